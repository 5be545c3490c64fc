//! The built-in commands of acme(1).

ghost use Rattle.std.specs.Prelude.{◌≡◌, codes, IsSome, IfOk, OnOk};
ghost use Rattle.core_windows.specs.Windows.{window_at};
ghost use Rattle.core_scene.specs.Scenes.{scene_of, kept_of, Did};
ghost use Rattle.core_actions.specs.Files.{get_outcome, put_outcome};
ghost use Rattle.core_actions.specs.Editing.{paste_outcome};
ghost use Rattle.core_actions.specs.Looking.{find_deeds};
ghost use Rattle.core_actions.specs.Opening.{new_deeds};
ghost use Rattle.core_across.specs.Editing.{edit_deeds};
ghost use Rattle.core_exec.specs.Executing.{or_said, builtin_deeds};

use crate::faults::{Speaker, say};
use acme_cmd::Builtin;
use am_text::{NoMemory, Runes};
use core_across::edit;
use core_actions::{
    Move, cut, del, delete, dir_at, find, get, move_groups, new_window, paste, put, snarf,
};
use core_scene::{Entry, Scene};
use std::alloc::Global;

/// A built-in command with its argument.
#[derive(Drop)]
pub(crate) struct Call {
    pub builtin: Builtin,
    pub argument: Runes,
}

// Get, with a line where it has a fault.
#[tactic(auto, using(crate::proofs::Joined::joins))]
fn get_or_say(
    alloc: Global,
    scene: &mut Scene,
    entry: Entry,
    window: u32,
    name: &Runes,
) -> Result<(), NoMemory>
    requires { IsSome (window_at scene.old.windows.present window) }
    ensures ok { OnOk result (Did entry (scene_of scene.old) (scene_of scene.new)
        (or_said entry (window_at scene.old.windows.present window) (codes "Get")
        (get_outcome window name.now (scene_of scene.old)) (scene_of scene.old))) }
    ensures kept { kept_of scene.new ≡ kept_of scene.old }
{
    let dir = dir_at(alloc, &scene.windows, window)?;
    let fault = get(alloc, scene, entry, window, name.as_slice())?;
    say(alloc, scene, entry, Speaker { dir, word: b"Get" }, fault)
}

// Put, with a line where it has a fault.
#[tactic(auto, using(crate::proofs::Joined::joins))]
fn put_or_say(
    alloc: Global,
    scene: &mut Scene,
    entry: Entry,
    window: u32,
    name: &Runes,
) -> Result<(), NoMemory>
    requires { IsSome (window_at scene.old.windows.present window) }
    ensures ok { OnOk result (Did entry (scene_of scene.old) (scene_of scene.new)
        (or_said entry (window_at scene.old.windows.present window) (codes "Put")
        (put_outcome window name.now (scene_of scene.old)) (scene_of scene.old))) }
    ensures kept { kept_of scene.new ≡ kept_of scene.old }
{
    let dir = dir_at(alloc, &scene.windows, window)?;
    let fault = put(alloc, scene, entry, window, name.as_slice())?;
    say(alloc, scene, entry, Speaker { dir, word: b"Put" }, fault)
}

// Paste, with a line where it has a fault.
#[tactic(auto, using(crate::proofs::Joined::joins))]
fn paste_or_say(alloc: Global, scene: &mut Scene, entry: Entry, window: u32) -> Result<(), NoMemory>
    requires { IsSome (window_at scene.old.windows.present window) }
    ensures ok { OnOk result (Did entry (scene_of scene.old) (scene_of scene.new)
        (or_said entry (window_at scene.old.windows.present window) (codes "Paste")
        (paste_outcome window (scene_of scene.old)) (scene_of scene.old))) }
    ensures kept { kept_of scene.new ≡ kept_of scene.old }
{
    let dir = dir_at(alloc, &scene.windows, window)?;
    let fault = paste(alloc, scene, entry, window)?;
    say(
        alloc,
        scene,
        entry,
        Speaker {
            dir,
            word: b"Paste",
        },
        fault,
    )
}

// Edit.
fn edit_text(
    alloc: Global,
    scene: &mut Scene,
    entry: Entry,
    window: u32,
    text: &Runes,
) -> Result<(), NoMemory>
    requires { IsSome (window_at scene.old.windows.present window) }
    ensures ok { OnOk result (Did entry (scene_of scene.old) (scene_of scene.new)
        (edit_deeds entry window text.now (scene_of scene.old))) }
    ensures kept { kept_of scene.new ≡ kept_of scene.old }
{
    edit(alloc, scene, entry, window, text.as_slice())
}

// The built-in Look.
fn find_text(
    alloc: Global,
    scene: &mut Scene,
    entry: Entry,
    window: u32,
    text: &Runes,
) -> Result<(), NoMemory>
    requires { IsSome (window_at scene.old.windows.present window) }
    ensures ok { OnOk result (Did entry (scene_of scene.old) (scene_of scene.new)
        (find_deeds window text.now (scene_of scene.old))) }
    ensures kept { kept_of scene.new ≡ kept_of scene.old }
{
    find(alloc, scene, entry, window, text.as_slice())
}

// New.
fn new_text(
    alloc: Global,
    scene: &mut Scene,
    entry: Entry,
    window: u32,
    text: &Runes,
) -> Result<(), NoMemory>
    ensures ok { OnOk result (Did entry (scene_of scene.old) (scene_of scene.new)
        (new_deeds entry window text.now (scene_of scene.old))) }
    ensures kept { kept_of scene.new ≡ kept_of scene.old }
{
    new_window(alloc, scene, entry, window, text.as_slice())
}

/// Does a built-in command in a window.
#[tactic(auto, unfolding(crate::specs::Executing::builtin_deeds))]
pub(crate) fn do_builtin(
    alloc: Global,
    scene: &mut Scene,
    entry: Entry,
    window: u32,
    call: Call,
) -> Result<(), NoMemory>
    requires { IsSome (window_at scene.old.windows.present window) }
    ensures ok { OnOk result (Did entry (scene_of scene.old) (scene_of scene.new)
        (builtin_deeds entry window call.builtin call.argument (scene_of scene.old))) }
    ensures kept { kept_of scene.new ≡ kept_of scene.old }
{
    let Call { builtin, argument } = call;
    match builtin {
        Builtin::Cut => cut(alloc, scene, entry, window),
        Builtin::Del => del(alloc, scene, entry, window),
        Builtin::Delete => delete(alloc, scene, entry, window),
        Builtin::Edit => edit_text(alloc, scene, entry, window, &argument),
        Builtin::Get => get_or_say(alloc, scene, entry, window, &argument),
        Builtin::Look => find_text(alloc, scene, entry, window, &argument),
        Builtin::New => new_text(alloc, scene, entry, window, &argument),
        Builtin::Paste => paste_or_say(alloc, scene, entry, window),
        Builtin::Put => put_or_say(alloc, scene, entry, window, &argument),
        Builtin::Redo => move_groups(alloc, scene, entry, window, Move::Redo),
        Builtin::Snarf => snarf(alloc, scene, entry, window),
        Builtin::Undo => move_groups(alloc, scene, entry, window, Move::Undo),
        Builtin::Idle => Ok(()),
    }
}
