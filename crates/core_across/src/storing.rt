//! `w`: the text of a range is stored in a file.

ghost use Rattle.std.specs.Prelude.{◌≡◌, ◌≤◌, false, IsSome, IfOk, OnOk, slice_range};
ghost use Rattle.addr_syntax.specs.Tree.{tree_of};
ghost use Rattle.am_text.specs.Utf8.{utf8};
ghost use Rattle.name_tree.specs.Kinds.{file_clashes};
ghost use Rattle.win_text.specs.Bodies.{IsInside};
ghost use Rattle.core_windows.specs.Possible.{text_in};
ghost use Rattle.core_windows.specs.Windows.{window_at};
ghost use Rattle.core_scene.specs.Scenes.{scene_of, kept_of, Did};
ghost use Rattle.core_actions.specs.Files.{store_deeds};
ghost use Rattle.core_across.specs.FileFaults.{as_deeds};
ghost use Rattle.core_across.specs.Storing.{saved_if_free, saved_range, write_plan};
ghost use Rattle.core_across.specs.FileCommands.{deeds_in, fault_in};

use crate::addressed::range_in;
use crate::entering::written;
use crate::file_faults::action_fault;
use am_text::{NoMemory, Range, Runes, encode};
use core_actions::{Saved, path_of, size_at, store};
use core_edit::CommandFault;
use core_scene::{Entry, Scene, Tree, Windows};
use edit_files::Addr;
use std::alloc::Global;

// The text, where a file can be stored under its path.
fn saved_if_free(
    alloc: Global,
    files: &Tree,
    saved: Saved,
) -> Result<Result<Saved, CommandFault>, NoMemory>
    ensures exact { IfOk result (λ plan. plan ≡ saved_if_free files.now.present saved) }
    ensures free { IfOk result (λ plan. IfOk plan (λ s. file_clashes files.now.present (utf8 s.path) ≡ false)) }
{
    let path = encode(alloc, &saved.path)?;
    if files.clashes_file(path.as_slice()) {
        Ok(Err(CommandFault::FileNotFound))
    } else {
        Ok(Ok(saved))
    }
}

// The text of a range of a window's body.
fn text_at(windows: &Windows, window: u32, range: Range) -> Result<Runes, NoMemory>
    requires lives { IsSome (window_at windows.now.present window) }
    requires inside { IsInside (text_in (window_at windows.now.present window)) range }
    ensures { IfOk result (λ text. text
        ≡ slice_range (text_in (window_at windows.now.present window)) range.q0 range.q1) }
{
    match windows.get(window) {
        Some(pane) => pane.body.slice(range.q0, range.q1),
        None => unreachable!(),
    }
}

// The text of a range of the body, under the path of a name.
fn saved_range(
    alloc: Global,
    scene: &Scene,
    window: u32,
    range: Range,
    name: &Option<Runes>,
) -> Result<Result<Saved, CommandFault>, NoMemory>
    requires lives { IsSome (window_at scene.now.windows.present window) }
    requires inside { IsInside (text_in (window_at scene.now.windows.present window)) range }
    ensures exact { IfOk result (λ plan. plan ≡ saved_range window name.now (scene_of scene.now) range) }
    ensures free { IfOk result (λ plan.
        IfOk plan (λ s. file_clashes scene.now.files.present (utf8 s.path) ≡ false)) }
{
    let text = text_at(&scene.windows, window, range)?;
    match path_of(alloc, &scene.windows, window, written(name))? {
        Ok(path) => saved_if_free(alloc, &scene.files, Saved { path, text }),
        Err(fault) => Ok(Err(action_fault(fault))),
    }
}

/// What `w` stores: the text of the range of its address, which is the whole body where none is written, under the path
/// of its name, or else of the window's name.
pub(crate) fn write_plan(
    alloc: Global,
    scene: &Scene,
    window: u32,
    addr: &Option<Addr>,
    name: &Option<Runes>,
) -> Result<Result<Saved, CommandFault>, NoMemory>
    requires { IsSome (window_at scene.now.windows.present window) }
    ensures exact { IfOk result (λ plan. plan ≡ write_plan window (tree_of addr.now) name.now (scene_of scene.now)) }
    ensures free { IfOk result (λ plan.
        IfOk plan (λ s. file_clashes scene.now.files.present (utf8 s.path) ≡ false)) }
{
    let whole = Range {
        q0: 0,
        q1: size_at(&scene.windows, window),
    };
    match range_in(alloc, &scene.windows, window, addr, whole)? {
        Ok(range) => saved_range(alloc, scene, window, range, name),
        Err(fault) => Ok(Err(fault)),
    }
}

/// Stores a text and requests a program to save it, or says why not. The windows stay as they are.
pub(crate) fn save(
    alloc: Global,
    scene: &mut Scene,
    entry: Entry,
    window: u32,
    plan: Result<Saved, CommandFault>,
) -> Result<Option<CommandFault>, NoMemory>
    requires { IfOk plan (λ s. file_clashes scene.old.files.present (utf8 s.path) ≡ false) }
    ensures fault { IfOk result (λ fault. fault
        ≡ fault_in (as_deeds (λ s. store_deeds window s (scene_of scene.old)) plan)) }
    ensures ok { OnOk result (Did entry (scene_of scene.old) (scene_of scene.new)
        (deeds_in (as_deeds (λ s. store_deeds window s (scene_of scene.old)) plan))) }
    ensures kept { kept_of scene.new ≡ kept_of scene.old }
{
    match plan {
        Ok(saved) => {
            store(alloc, scene, entry, window, saved)?;
            Ok(None)
        }
        Err(fault) => Ok(Some(fault)),
    }
}
