//! Faults of commands, said in the errors window.

ghost use Rattle.std.specs.Prelude.{◌≡◌, OnOk};
ghost use Rattle.core_windows.specs.Windows.{window_at};
ghost use Rattle.core_scene.specs.Scenes.{scene_of, kept_of, Did};
ghost use Rattle.core_actions.specs.Errors.{errors_deeds};
ghost use Rattle.core_actions.specs.Seen.{dir_of};
ghost use Rattle.core_edit.specs.Faults.{fault_line};
ghost use Rattle.core_across.specs.Editing.{fault_deeds};

use am_text::NoMemory;
use core_actions::{append_errors, dir_at};
use core_edit::{CommandFault, fault_line};
use core_scene::{Entry, Scene};
use std::alloc::Global;

// Says a fault in the errors window of the window's directory.
fn say_fault(
    alloc: Global,
    scene: &mut Scene,
    entry: Entry,
    window: u32,
    fault: CommandFault,
) -> Result<(), NoMemory>
    ensures ok { OnOk result (Did entry (scene_of scene.old) (scene_of scene.new)
        (errors_deeds entry (dir_of (window_at scene.old.windows.present window)) (fault_line fault)
        (scene_of scene.old))) }
    ensures kept { kept_of scene.new ≡ kept_of scene.old }
{
    let dir = dir_at(alloc, &scene.windows, window)?;
    let line = fault_line(alloc, fault)?;
    append_errors(alloc, scene, entry, dir.as_slice(), line)
}

/// Says a fault in the errors window of the window's directory; of want of memory nothing is said.
pub(crate) fn say(
    alloc: Global,
    scene: &mut Scene,
    entry: Entry,
    window: u32,
    fault: Option<CommandFault>,
) -> Result<(), NoMemory>
    ensures ok { OnOk result (Did entry (scene_of scene.old) (scene_of scene.new)
        (fault_deeds entry (dir_of (window_at scene.old.windows.present window)) fault (scene_of scene.old))) }
    ensures kept { kept_of scene.new ≡ kept_of scene.old }
{
    match fault {
        Some(fault) => say_fault(alloc, scene, entry, window, fault),
        None => Ok(()),
    }
}
