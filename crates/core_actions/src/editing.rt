//! Cut, Snarf and Paste.

ghost use Rattle.std.specs.Prelude.{◌≡◌, ◌+◌, ◌<◌, ◌^◌, true, length, IsSome, IfOk, OnOk};
ghost use Rattle.win_text.specs.Bodies.{IsInside};
ghost use Rattle.core_windows.specs.Possible.{text_in};
ghost use Rattle.core_windows.specs.Windows.{window_at};
ghost use Rattle.core_scene.specs.Scenes.{scene_of, kept_of, Did};
ghost use Rattle.core_actions.specs.Seen.{dot_of, fits};
ghost use Rattle.core_actions.specs.Editing.{snarf_deeds, cut_deeds, range_put, put_over, size_around, paste_outcome};

use crate::deeds::{edit_and_set, edit_window};
use crate::fault::ActionFault;
use crate::seen::{dot_at, dot_text_at, fits, size_at};
use am_text::{NoMemory, Range, Runes};
use core_addresses::replacement;
use core_scene::{Deed, Entry, Scene, Setting};
use std::alloc::Global;

/// Snarf: the text that is selected becomes the snarfed text, where there is one. The windows stay as they are.
#[tactic(auto, using(crate::proofs::Windows::joins))]
pub fn snarf(alloc: Global, scene: &mut Scene, entry: Entry, window: u32) -> Result<(), NoMemory>
    ensures ok { OnOk result (Did entry (scene_of scene.old) (scene_of scene.new)
        (snarf_deeds window (scene_of scene.old))) }
    ensures windows { OnOk result (scene.new.windows.present ≡ scene.old.windows.present) }
    ensures kept { kept_of scene.new ≡ kept_of scene.old }
{
    let dot = dot_at(&scene.windows, window);
    if dot.q0 == dot.q1 {
        return Ok(());
    }
    let selected = dot_text_at(alloc, &scene.windows, window)?;
    scene.act(alloc, entry, Deed::Snarfs(selected))
}

/// Cut: the text that is selected becomes the snarfed text, where there is one, and is removed.
#[tactic(auto, using(crate::proofs::Windows::editing))]
pub fn cut(alloc: Global, scene: &mut Scene, entry: Entry, window: u32) -> Result<(), NoMemory>
    requires { IsSome (window_at scene.old.windows.present window) }
    ensures ok { OnOk result (Did entry (scene_of scene.old) (scene_of scene.new)
        (cut_deeds window (scene_of scene.old))) }
    ensures kept { kept_of scene.new ≡ kept_of scene.old }
{
    let dot = dot_at(&scene.windows, window);
    let edits = replacement(alloc, dot, Runes::new(alloc))?;
    snarf(alloc, scene, entry, window)?;
    edit_window(alloc, scene, entry, window, edits)
}

// A range, once a text has taken its place.
fn range_put(range: Range, text: &Runes) -> Range
    requires { range.q0 + length text.now < 2 ^ 64 }
    ensures { result ≡ range_put range text.now }
{
    Range {
        q0: range.q0,
        q1: range.q0 + text.len(),
    }
}

// Puts a text in the place of a range, and selects it.
#[tactic(auto, using(crate::proofs::Windows::putting))]
fn put_over(
    alloc: Global,
    scene: &mut Scene,
    entry: Entry,
    place: (u32, Range),
    text: Runes,
) -> Result<(), NoMemory>
    requires lives { IsSome (window_at scene.old.windows.present place.0) }
    requires inside { IsInside (text_in (window_at scene.old.windows.present place.0)) place.1 }
    requires fits { place.1.q0 + length text < 2 ^ 64 }
    ensures ok { OnOk result (Did entry (scene_of scene.old) (scene_of scene.new) (put_over place.0 place.1 text)) }
    ensures kept { kept_of scene.new ≡ kept_of scene.old }
{
    let (window, range) = place;
    let put = range_put(range, &text);
    let edits = replacement(alloc, range, text)?;
    edit_and_set(alloc, scene, entry, window, (edits, Setting::Dot(put)))
}

// Whether a window has room for the snarfed text in the place of what is selected.
fn has_room(scene: &Scene, window: u32) -> bool
    ensures exact { result ≡ fits (size_around (window_at scene.now.windows.present window))
        (length scene.now.snarf.present) }
    ensures small { result ≡ true → (dot_of (window_at scene.now.windows.present window)).q0 + length
        scene.now.snarf.present < 2 ^ 64 }
{
    let dot = dot_at(&scene.windows, window);
    let around = size_at(&scene.windows, window) - (dot.q1 - dot.q0);
    fits(around, scene.snarf.text().len())
}

// Puts the snarfed text in the place of what is selected, and selects it.
#[tactic(auto, using(crate::proofs::Windows::joins))]
fn paste_over(alloc: Global, scene: &mut Scene, entry: Entry, window: u32) -> Result<(), NoMemory>
    requires lives { IsSome (window_at scene.old.windows.present window) }
    requires small { (dot_of (window_at scene.old.windows.present window)).q0 + length scene.old.snarf.present
        < 2 ^ 64 }
    ensures ok { OnOk result (Did entry (scene_of scene.old) (scene_of scene.new)
        (put_over window (dot_of (window_at scene.old.windows.present window)) scene.old.snarf.present)) }
    ensures kept { kept_of scene.new ≡ kept_of scene.old }
{
    let dot = dot_at(&scene.windows, window);
    let text = Runes::copied(alloc, scene.snarf.text())?;
    put_over(alloc, scene, entry, (window, dot), text)
}

/// Paste: the snarfed text takes the place of the text that is selected, and is selected.
///
/// It isn't done where the body would have more than 16,777,216 runes.
#[tactic(auto, using(crate::proofs::Windows::joins))]
pub fn paste(
    alloc: Global,
    scene: &mut Scene,
    entry: Entry,
    window: u32,
) -> Result<Option<ActionFault>, NoMemory>
    requires { IsSome (window_at scene.old.windows.present window) }
    ensures fault { IfOk result (λ fault. fault ≡ (paste_outcome window (scene_of scene.old)).fault) }
    ensures ok { OnOk result (Did entry (scene_of scene.old) (scene_of scene.new)
        (paste_outcome window (scene_of scene.old)).deeds) }
    ensures kept { kept_of scene.new ≡ kept_of scene.old }
{
    if !has_room(scene, window) {
        return Ok(Some(ActionFault::TextTooLong));
    }
    paste_over(alloc, scene, entry, window)?;
    Ok(None)
}
