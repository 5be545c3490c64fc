//! `e` and `r`: the text of a file or a directory becomes the body, or a part of it.

ghost use Rattle.std.specs.Prelude.{◌≡◌, ◌≤◌, IsSome, IfOk, OnOk};
ghost use Rattle.addr_syntax.specs.Tree.{tree_of};
ghost use Rattle.win_text.specs.Bodies.{IsInside};
ghost use Rattle.core_windows.specs.Possible.{text_in};
ghost use Rattle.core_windows.specs.Windows.{window_at};
ghost use Rattle.core_scene.specs.Scenes.{scene_of, kept_of, Did};
ghost use Rattle.core_actions.specs.Files.{file_text};
ghost use Rattle.core_across.specs.FileFaults.{as_deeds};
ghost use Rattle.core_across.specs.Entering.{written, placed_if_fits, text_placed, enter_plan, read_plan, place_deeds};
ghost use Rattle.core_across.specs.FileCommands.{deeds_in, fault_in};

use crate::addressed::range_in;
use crate::file_faults::action_fault;
use am_text::{NoMemory, Range, Rune, Runes};
use core_actions::{dot_at, edit_window, file_text, fits, size_at};
use core_addresses::replacement;
use core_edit::CommandFault;
use core_scene::{Entry, Scene, Windows};
use edit_files::Addr;
use std::alloc::Global;

/// A text, and the range of a body whose place it takes.
#[derive(Drop)]
pub(crate) struct Placed {
    pub range: Range,
    pub text: Runes,
}

/// The name that is written; a missing one is empty.
pub(crate) fn written(name: &Option<Runes>) -> &[Rune]
    ensures { result.now ≡ written name.now }
{
    match name {
        Some(name) => name.as_slice(),
        None => &[],
    }
}

fn placed_if_fits(windows: &Windows, window: u32, placed: Placed) -> Result<Placed, CommandFault>
    requires { IsInside (text_in (window_at windows.now.present window)) placed.range }
    ensures exact { result ≡ placed_if_fits (window_at windows.now.present window) placed }
    ensures inside { IfOk result (λ p. IsInside (text_in (window_at windows.now.present window)) p.range) }
{
    let cut = placed.range.q1 - placed.range.q0;
    if fits(size_at(windows, window) - cut, placed.text.len()) {
        Ok(placed)
    } else {
        Err(CommandFault::TextTooLong)
    }
}

// The text of the file or directory of a name in the place of a range.
fn text_placed(
    alloc: Global,
    scene: &Scene,
    window: u32,
    range: Range,
    name: &Option<Runes>,
) -> Result<Result<Placed, CommandFault>, NoMemory>
    requires { IsInside (text_in (window_at scene.now.windows.present window)) range }
    ensures exact { IfOk result (λ plan. plan ≡ text_placed (window_at scene.now.windows.present window) range
        (file_text window (written name.now) (scene_of scene.now))) }
    ensures inside { IfOk result (λ plan.
        IfOk plan (λ p. IsInside (text_in (window_at scene.now.windows.present window)) p.range)) }
{
    match file_text(alloc, scene, window, written(name))? {
        Ok(text) => Ok(placed_if_fits(&scene.windows, window, Placed { range, text })),
        Err(fault) => Ok(Err(action_fault(fault))),
    }
}

/// What `e` puts in the place of the whole body: the text of the file or directory of its name, or else of the
/// window's name.
pub(crate) fn enter_plan(
    alloc: Global,
    scene: &Scene,
    window: u32,
    name: &Option<Runes>,
) -> Result<Result<Placed, CommandFault>, NoMemory>
    ensures exact { IfOk result (λ plan. plan ≡ enter_plan window name.now (scene_of scene.now)) }
    ensures inside { IfOk result (λ plan.
        IfOk plan (λ p. IsInside (text_in (window_at scene.now.windows.present window)) p.range)) }
{
    let whole = Range {
        q0: 0,
        q1: size_at(&scene.windows, window),
    };
    text_placed(alloc, scene, window, whole, name)
}

/// What `r` puts in the place of the range of its address, which is dot where none is written.
pub(crate) fn read_plan(
    alloc: Global,
    scene: &Scene,
    window: u32,
    addr: &Option<Addr>,
    name: &Option<Runes>,
) -> Result<Result<Placed, CommandFault>, NoMemory>
    requires { IsSome (window_at scene.now.windows.present window) }
    ensures exact { IfOk result (λ plan. plan ≡ read_plan window (tree_of addr.now) name.now (scene_of scene.now)) }
    ensures inside { IfOk result (λ plan.
        IfOk plan (λ p. IsInside (text_in (window_at scene.now.windows.present window)) p.range)) }
{
    let dot = dot_at(&scene.windows, window);
    match range_in(alloc, &scene.windows, window, addr, dot)? {
        Ok(range) => text_placed(alloc, scene, window, range, name),
        Err(fault) => Ok(Err(fault)),
    }
}

/// Puts a text in the place of a range, or says why not. Dot moves with the edit, and the window's mark is left.
#[tactic(auto, using(crate::proofs::Placing::placing))]
pub(crate) fn place(
    alloc: Global,
    scene: &mut Scene,
    entry: Entry,
    window: u32,
    plan: Result<Placed, CommandFault>,
) -> Result<Option<CommandFault>, NoMemory>
    requires lives { IsSome (window_at scene.old.windows.present window) }
    requires inside { IfOk plan (λ p. IsInside (text_in (window_at scene.old.windows.present window)) p.range) }
    ensures fault { IfOk result (λ fault. fault ≡ fault_in (as_deeds (place_deeds window) plan)) }
    ensures ok { OnOk result (Did entry (scene_of scene.old) (scene_of scene.new)
        (deeds_in (as_deeds (place_deeds window) plan))) }
    ensures kept { kept_of scene.new ≡ kept_of scene.old }
{
    match plan {
        Ok(Placed { range, text }) => {
            let edits = replacement(alloc, range, text)?;
            edit_window(alloc, scene, entry, window, edits)?;
            Ok(None)
        }
        Err(fault) => Ok(Some(fault)),
    }
}
