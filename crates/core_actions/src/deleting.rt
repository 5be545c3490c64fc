//! Del and Delete.

ghost use Rattle.std.specs.Prelude.{◌≡◌, IsSome, IfOk, OnOk};
ghost use Rattle.core_windows.specs.Windows.{window_at};
ghost use Rattle.core_scene.specs.Scenes.{scene_of, kept_of, Did};
ghost use Rattle.core_actions.specs.Deleting.{delete_deeds, warning, warn_deeds, del_deeds};

use crate::deeds::set_in_window;
use crate::errors::append_errors;
use crate::seen::{asks, dir_at, name_at};
use am_text::{NoMemory, Runes, put_words};
use core_scene::{Change, Deed, Entry, Scene, Setting};
use std::alloc::Global;

// What is said of a window that is modified.
#[tactic(auto, unfolding(crate::specs::Deleting::warning))]
fn warning(name: Runes) -> Result<Runes, NoMemory>
    ensures { IfOk result (λ text. text ≡ warning name) }
{
    let mut text = name;
    put_words(&mut text, b" modified\n")?;
    Ok(text)
}

/// Delete: a window is deleted, modified or not.
pub fn delete(alloc: Global, scene: &mut Scene, entry: Entry, window: u32) -> Result<(), NoMemory>
    requires { IsSome (window_at scene.old.windows.present window) }
    ensures ok { OnOk result (Did entry (scene_of scene.old) (scene_of scene.new)
        (delete_deeds window (scene_of scene.old))) }
    ensures kept { kept_of scene.new ≡ kept_of scene.old }
{
    scene.act(alloc, entry, Deed::Windows(Change::Deletes { window }))
}

// The window counts as unmodified, and this is said in its directory's errors window.
#[tactic(auto, using(crate::proofs::Windows::joins))]
fn warn(alloc: Global, scene: &mut Scene, entry: Entry, window: u32) -> Result<(), NoMemory>
    requires { IsSome (window_at scene.old.windows.present window) }
    ensures ok { OnOk result (Did entry (scene_of scene.old) (scene_of scene.new)
        (warn_deeds entry window (scene_of scene.old))) }
    ensures kept { kept_of scene.new ≡ kept_of scene.old }
{
    let dir = dir_at(alloc, &scene.windows, window)?;
    let text = warning(name_at(alloc, &scene.windows, window)?)?;
    set_in_window(alloc, scene, entry, window, Setting::Clean)?;
    append_errors(alloc, scene, entry, dir.as_slice(), text)
}

/// Del: a window is deleted. One that is modified only counts as unmodified from then on, and is named in its
/// directory's errors window, unless its name is empty, a directory's, or one of an errors window.
#[tactic(auto, using(crate::proofs::Windows::joins))]
pub fn del(alloc: Global, scene: &mut Scene, entry: Entry, window: u32) -> Result<(), NoMemory>
    requires { IsSome (window_at scene.old.windows.present window) }
    ensures ok { OnOk result (Did entry (scene_of scene.old) (scene_of scene.new)
        (del_deeds entry window (scene_of scene.old))) }
    ensures kept { kept_of scene.new ≡ kept_of scene.old }
{
    if asks(&scene.windows, window) {
        warn(alloc, scene, entry, window)
    } else {
        delete(alloc, scene, entry, window)
    }
}
