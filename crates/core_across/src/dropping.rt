//! `D`: windows are deleted by their names.

ghost use Rattle.std.specs.Prelude.{◌≡◌, ◌∷◌, [], ◌++◌, Some, IsSome, IfOk, OnOk, map};
ghost use Rattle.core_windows.specs.Windows.{window_at};
ghost use Rattle.core_scene.specs.Scenes.{scene_of, kept_of, Did};
ghost use Rattle.core_actions.specs.Seen.{dir_of};
ghost use Rattle.core_across.specs.FileFaults.{as_deeds};
ghost use Rattle.core_across.specs.Dropping.{to_delete, window_named, windows_named, windows_to_delete, with_one, once};
ghost use Rattle.core_across.specs.Dropping.{deletion, deletions, AreLive};
ghost use Rattle.core_across.specs.FileCommands.{deeds_in, fault_in};

use acme_cmd::whole;
use am_text::{Ids, Items, NameList, NoMemory, Rune, Runes};
use core_actions::{asks, dir_at};
use core_edit::CommandFault;
use core_scene::{Change, Deed, Deeds, Entry, Scene, Windows};
use std::alloc::Global;

// The window, where it is there, and isn't a modified one that `del` would ask of.
fn to_delete(windows: &Windows, window: Option<u32>) -> Result<u32, CommandFault>
    ensures { result ≡ to_delete windows.now.present window }
{
    let Some(window) = window else {
        return Err(CommandFault::NoSuchWindow);
    };
    if asks(windows, window) {
        Err(CommandFault::WindowModified)
    } else {
        Ok(window)
    }
}

// The window of a name, made whole with a directory.
fn window_named(
    alloc: Global,
    windows: &Windows,
    dir: &Runes,
    name: &Runes,
) -> Result<Result<u32, CommandFault>, NoMemory>
    ensures exact { IfOk result (λ window. window ≡ window_named windows.now.present dir.now name.now) }
    ensures lives { IfOk result (λ window. IfOk window (λ v. IsSome (window_at windows.now.present v))) }
{
    let name = whole(alloc, dir.as_slice(), name.as_slice())?;
    Ok(to_delete(windows, windows.named(name.as_slice())))
}

// The windows of these names, in order, or the fault of the first name that has one.
#[tactic(auto, using(crate::proofs::Dropped::joined))]
fn windows_named(
    alloc: Global,
    windows: &Windows,
    dir: &Runes,
    names: &[Runes],
) -> Result<Result<Ids, CommandFault>, NoMemory>
    ensures exact { IfOk result (λ all. all ≡ windows_named windows.now.present dir.now names.now) }
    ensures live { IfOk result (λ all. IfOk all (AreLive windows.now.present)) }
{
    let mut all = Items::new(alloc);
    let mut rest = names;
    while let [name, behind @ ..] = rest {
        match window_named(alloc, windows, dir, name)? {
            Ok(window) => all.push(window)?,
            Err(fault) => return Ok(Err(fault)),
        }
        rest = behind;
    }
    Ok(Ok(all))
}

// The window itself.
fn own_window(
    alloc: Global,
    windows: &Windows,
    window: u32,
) -> Result<Result<Ids, CommandFault>, NoMemory>
    requires { IsSome (window_at windows.now.present window) }
    ensures exact { IfOk result (λ all. all ≡ windows_to_delete window [] windows.now.present) }
    ensures live { IfOk result (λ all. IfOk all (AreLive windows.now.present)) }
{
    match to_delete(windows, Some(window)) {
        Ok(window) => {
            let mut all = Items::new(alloc);
            all.push(window)?;
            Ok(Ok(all))
        }
        Err(fault) => Ok(Err(fault)),
    }
}

/// The windows that `D` deletes: those of its names, each made whole with the directory of a window's name, or without
/// a name that window. The first name that no window has, or whose window `del` would ask of, is a fault.
pub(crate) fn windows_to_delete(
    alloc: Global,
    windows: &Windows,
    window: u32,
    names: &NameList,
) -> Result<Result<Ids, CommandFault>, NoMemory>
    requires { IsSome (window_at windows.now.present window) }
    ensures exact { IfOk result (λ all. all ≡ windows_to_delete window names.now windows.now.present) }
    ensures live { IfOk result (λ all. IfOk all (AreLive windows.now.present)) }
{
    if names.is_empty() {
        return own_window(alloc, windows, window);
    }
    let dir = dir_at(alloc, windows, window)?;
    windows_named(alloc, windows, &dir, names.as_slice())
}

// Adds a window, unless it is among them.
fn add_one(all: &mut Ids, window: u32) -> Result<(), NoMemory>
    ensures { OnOk result (all.new ≡ with_one all.old window) }
{
    if !all.as_slice().contains(&window) {
        all.push(window)?;
    }
    Ok(())
}

// The windows, each once, in the order in which they first come.
fn once(alloc: Global, windows: &[u32]) -> Result<Ids, NoMemory>
    ensures { IfOk result (λ all. all ≡ once windows.now) }
{
    let mut all = Items::new(alloc);
    let mut rest = windows;
    while let [window, behind @ ..] = rest {
        add_one(&mut all, *window)?;
        rest = behind;
    }
    Ok(all)
}

// The deletions of these windows.
#[tactic(auto, using(crate::proofs::Dropped::joined))]
fn deletions(alloc: Global, windows: &[u32]) -> Result<Deeds, NoMemory>
    ensures { IfOk result (λ deeds. deeds ≡ map deletion windows.now) }
{
    let mut deeds = Items::new(alloc);
    let mut rest = windows;
    while let [window, behind @ ..] = rest {
        deeds.push(Deed::Windows(Change::Deletes { window: *window }))?;
        rest = behind;
    }
    Ok(deeds)
}

// Deletes windows, each once.
fn delete_each(alloc: Global, scene: &mut Scene, entry: Entry, windows: Ids) -> Result<(), NoMemory>
    requires { AreLive scene.old.windows.present windows }
    ensures ok { OnOk result (Did entry (scene_of scene.old) (scene_of scene.new) (deletions windows)) }
    ensures kept { kept_of scene.new ≡ kept_of scene.old }
{
    let apart = once(alloc, windows.as_slice())?;
    let deeds = deletions(alloc, apart.as_slice())?;
    scene.act_all(alloc, entry, deeds)
}

/// Deletes windows, each once, or says why not.
pub(crate) fn delete_all(
    alloc: Global,
    scene: &mut Scene,
    entry: Entry,
    windows: Result<Ids, CommandFault>,
) -> Result<Option<CommandFault>, NoMemory>
    requires { IfOk windows (AreLive scene.old.windows.present) }
    ensures fault { IfOk result (λ fault. fault ≡ fault_in (as_deeds deletions windows)) }
    ensures ok { OnOk result (Did entry (scene_of scene.old) (scene_of scene.new)
        (deeds_in (as_deeds deletions windows))) }
    ensures kept { kept_of scene.new ≡ kept_of scene.old }
{
    match windows {
        Ok(all) => {
            delete_each(alloc, scene, entry, all)?;
            Ok(None)
        }
        Err(fault) => Ok(Some(fault)),
    }
}
