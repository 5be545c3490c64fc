//! What is written to the file `rules`, after plumber(4).

ghost use Rattle.std.specs.Prelude.{◌≡◌, IfOk, OnOk};
ghost use Rattle.core_scene.specs.Scenes.{scene_of, kept_of, Did};
ghost use Rattle.core_rules.specs.Writing.{rules_outcome, rest_outcome, clear_deeds, held_after};

use crate::adding::{Written, add};
use crate::refusal::RulesRefusal;
use am_text::NoMemory;
use core_scene::{Deed, Entry, Scene};
use fid_table::Held;
use std::alloc::Global;

/// Adds the whole sets of a text: what a fid of `rules` holds, with the bytes that are now written to it. A set ends at
/// a blank line. The ports that they name are added, too. The answer is why nothing is added, if nothing is.
///
/// It is `BadRule` or `BadExpressionSize` where the whole sets aren't rules, read with the variables that accepted
/// rules define; else `TooManyRules` where there would be more than 65,536 ports, or where the accepted text and all of
/// this text have more than 262,144 bytes, also where no set is whole. `held_after` says what of the text is held then.
pub fn write_rules(
    alloc: Global,
    scene: &mut Scene,
    entry: Entry,
    text: &mut Held,
) -> Result<Option<RulesRefusal>, NoMemory>
    ensures refusal { IfOk result (λ refusal. refusal ≡ (rules_outcome text.old (scene_of scene.old)).refusal) }
    ensures ok { OnOk result (Did entry (scene_of scene.old) (scene_of scene.new)
        (rules_outcome text.old (scene_of scene.old)).deeds) }
    ensures kept { kept_of scene.new ≡ kept_of scene.old }
    ensures text { text.new ≡ text.old }
{
    let end = text.sets_end();
    let bytes = text.as_slice();
    let written = Written {
        text: bytes.split_at(end).0,
        bytes: bytes.len(),
    };
    add(alloc, scene, entry, written)
}

/// Adds what a fid of `rules` still holds when it is clunked, whose end ends its last set. The answer is why nothing is
/// added, if nothing is, as that of `write_rules`. Where nothing is held, nothing is done.
pub fn add_rest(
    alloc: Global,
    scene: &mut Scene,
    entry: Entry,
    text: &[u8],
) -> Result<Option<RulesRefusal>, NoMemory>
    ensures refusal { IfOk result (λ refusal. refusal ≡ (rest_outcome text.now (scene_of scene.old)).refusal) }
    ensures ok { OnOk result (Did entry (scene_of scene.old) (scene_of scene.new)
        (rest_outcome text.now (scene_of scene.old)).deeds) }
    ensures kept { kept_of scene.new ≡ kept_of scene.old }
{
    if text.is_empty() {
        return Ok(None);
    }
    let written = Written {
        text,
        bytes: text.len(),
    };
    add(alloc, scene, entry, written)
}

/// Forgets all rules, with their variables and their text, as when `rules` is opened with truncation. Ports stay.
pub fn clear_rules(alloc: Global, scene: &mut Scene, entry: Entry) -> Result<(), NoMemory>
    ensures ok { OnOk result (Did entry (scene_of scene.old) (scene_of scene.new) clear_deeds) }
    ensures kept { kept_of scene.new ≡ kept_of scene.old }
{
    scene.act(alloc, entry, Deed::ClearsRules)
}

/// What a fid of `rules` holds behind a write, with which it had this text: what follows the whole sets, and nothing
/// where the write was refused.
pub fn held_after(
    alloc: Global,
    text: Held,
    refusal: Option<RulesRefusal>,
) -> Result<Held, NoMemory>
    ensures { IfOk result (λ held. held ≡ held_after text refusal) }
{
    if refusal.is_some() {
        return Ok(Held::new(alloc));
    }
    let mut text = text;
    let end = text.sets_end();
    text.behind(alloc, end)
}
