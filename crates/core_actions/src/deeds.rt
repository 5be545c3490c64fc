//! Single deeds over windows, after which the window lives.

ghost use Rattle.std.specs.Prelude.{◌≡◌, ◌∷◌, [], false, IsSome, Some, IfOk, OnOk};
ghost use Rattle.acme_tree.specs.Trees.{world_is_full};
ghost use Rattle.edit_log.specs.Edited.{text_after};
ghost use Rattle.core_windows.specs.Possible.{CanEdit, CanSet, CanSetIn, text_in};
ghost use Rattle.core_windows.specs.Windows.{window_at, world_of, named_window};
ghost use Rattle.core_windows.specs.declared.change.Change.TheVariants as change;
ghost use Rattle.core_scene.specs.Scenes.{scene_of, kept_of, Did};
ghost use Rattle.core_scene.specs.declared.deed.Deed.TheVariants as deed;
ghost use Rattle.core_actions.specs.Made.{next_window, make_deeds};

use crate::seen::FRONT;
use am_text::{NoMemory, Runes};
use core_addresses::replacement;
use core_scene::{Change, Deed, Entry, Scene, Setting};
use edit_log::Edits;
use std::alloc::Global;

/// Sets a part of a window. It goes on living.
pub fn set_in_window(
    alloc: Global,
    scene: &mut Scene,
    entry: Entry,
    window: u32,
    setting: Setting,
) -> Result<(), NoMemory>
    requires { CanSetIn (window_at scene.old.windows.present window) setting }
    ensures ok { OnOk result (Did entry (scene_of scene.old) (scene_of scene.new)
        (deed.Windows (change.Sets window setting) ∷ [])) }
    ensures lives { OnOk result (IsSome (window_at scene.new.windows.present window)) }
    ensures kept { kept_of scene.new ≡ kept_of scene.old }
{
    scene.act(
        alloc,
        entry,
        Deed::Windows(Change::Sets { window, setting }),
    )
}

/// Edits the body of a window. It goes on living, and its text is then known.
pub fn edit_window(
    alloc: Global,
    scene: &mut Scene,
    entry: Entry,
    window: u32,
    edits: Edits,
) -> Result<(), NoMemory>
    requires { CanEdit (window_at scene.old.windows.present window) edits }
    ensures ok { OnOk result (Did entry (scene_of scene.old) (scene_of scene.new)
        (deed.Windows (change.Edits window edits) ∷ [])) }
    ensures lives { OnOk result (IsSome (window_at scene.new.windows.present window)) }
    ensures text { OnOk result (text_in (window_at scene.new.windows.present window)
        ≡ text_after (text_in (window_at scene.old.windows.present window)) edits) }
    ensures kept { kept_of scene.new ≡ kept_of scene.old }
{
    scene.act(alloc, entry, Deed::Windows(Change::Edits { window, edits }))
}

/// Edits the body of a window, and then sets a part of it.
#[tactic(auto, using(crate::proofs::Windows::joins))]
pub(crate) fn edit_and_set(
    alloc: Global,
    scene: &mut Scene,
    entry: Entry,
    window: u32,
    both: (Edits, Setting),
) -> Result<(), NoMemory>
    requires edits { CanEdit (window_at scene.old.windows.present window) both.0 }
    requires setting { CanSet (text_after (text_in (window_at scene.old.windows.present window)) both.0) both.1 }
    ensures ok { OnOk result (Did entry (scene_of scene.old) (scene_of scene.new)
        (deed.Windows (change.Edits window both.0) ∷ deed.Windows (change.Sets window both.1) ∷ [])) }
    ensures kept { kept_of scene.new ≡ kept_of scene.old }
{
    let (edits, setting) = both;
    edit_window(alloc, scene, entry, window, edits)?;
    set_in_window(alloc, scene, entry, window, setting)
}

/// Makes a window of this name. It lives, and is empty and clean.
fn make(alloc: Global, scene: &mut Scene, entry: Entry, name: Runes) -> Result<(), NoMemory>
    requires { world_is_full (world_of scene.old.windows.present) ≡ false }
    ensures ok { OnOk result (Did entry (scene_of scene.old) (scene_of scene.new)
        (deed.Windows (change.Makes name) ∷ [])) }
    ensures made { OnOk result (window_at scene.new.windows.present (next_window (scene_of scene.old))
        ≡ Some (named_window name)) }
    ensures kept { kept_of scene.new ≡ kept_of scene.old }
{
    scene.act(alloc, entry, Deed::Windows(Change::Makes { name }))
}

/// Makes a window of this name, and puts a text into it. It lives, and has that text.
#[tactic(auto, using(crate::proofs::Windows::made))]
pub(crate) fn make_with(
    alloc: Global,
    scene: &mut Scene,
    entry: Entry,
    name: Runes,
    text: Runes,
) -> Result<u32, NoMemory>
    requires { world_is_full (world_of scene.old.windows.present) ≡ false }
    ensures ok { OnOk result (Did entry (scene_of scene.old) (scene_of scene.new)
        (make_deeds name text (scene_of scene.old))) }
    ensures number { IfOk result (λ w. w ≡ next_window (scene_of scene.old)) }
    ensures lives { IfOk result (λ w. IsSome (window_at scene.new.windows.present w)) }
    ensures text { IfOk result (λ w. text_in (window_at scene.new.windows.present w) ≡ text) }
    ensures kept { kept_of scene.new ≡ kept_of scene.old }
{
    let window = scene.windows.world().next;
    make(alloc, scene, entry, name)?;
    edit_window(
        alloc,
        scene,
        entry,
        window,
        replacement(alloc, FRONT, text)?,
    )?;
    Ok(window)
}
