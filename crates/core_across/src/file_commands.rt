//! The commands of Edit over names and files: `B`, `D`, `e`, `r` and `w`.

ghost use Rattle.std.specs.Prelude.{◌≡◌, None, IsSome, IfOk, OnOk};
ghost use Rattle.core_windows.specs.Windows.{window_at};
ghost use Rattle.core_scene.specs.Scenes.{scene_of, kept_of, Did};
ghost use Rattle.edit_files.specs.Command.{files_command};
ghost use Rattle.core_across.specs.FileCommands.{file_deeds, deeds_in, fault_in};

use crate::dropping::{delete_all, windows_to_delete};
use crate::entering::{enter_plan, place, read_plan};
use crate::storing::{save, write_plan};
use am_text::NoMemory;
use core_actions::new_window;
use core_edit::CommandFault;
use core_scene::{Entry, Scene};
use edit_files::FilesCmd;
use std::alloc::Global;

/// Does a command over names and files in a window, or tells its fault, with which nothing is done.
///
/// `B` opens a name as New does. `D` deletes windows, of which none is deleted where one isn't there or is a modified
/// one that `del` would ask of. `e` and `r` put the text of a file or a directory in the place of the body or of a
/// range, and `w` stores the text of a range as Put does; none of these sets a mark. A command over bodies does nothing
/// here.
pub fn file_edit(
    alloc: Global,
    scene: &mut Scene,
    entry: Entry,
    window: u32,
    cmd: &FilesCmd,
) -> Result<Option<CommandFault>, NoMemory>
    requires { IsSome (window_at scene.old.windows.present window) }
    ensures fault { IfOk result (λ fault. fault
        ≡ fault_in (file_deeds entry window (files_command cmd.now) (scene_of scene.old))) }
    ensures ok { OnOk result (Did entry (scene_of scene.old) (scene_of scene.new)
        (deeds_in (file_deeds entry window (files_command cmd.now) (scene_of scene.old)))) }
    ensures kept { kept_of scene.new ≡ kept_of scene.old }
{
    match cmd {
        FilesCmd::Open(name) => {
            new_window(alloc, scene, entry, window, name.as_slice())?;
            Ok(None)
        }
        FilesCmd::Drop(names) => {
            let windows = windows_to_delete(alloc, &scene.windows, window, names)?;
            delete_all(alloc, scene, entry, windows)
        }
        FilesCmd::Enter(name) => {
            let plan = enter_plan(alloc, scene, window, name)?;
            place(alloc, scene, entry, window, plan)
        }
        FilesCmd::ReadIn(addr, name) => {
            let plan = read_plan(alloc, scene, window, addr, name)?;
            place(alloc, scene, entry, window, plan)
        }
        FilesCmd::WriteOut(addr, name) => {
            let plan = write_plan(alloc, scene, window, addr, name)?;
            save(alloc, scene, entry, window, plan)
        }
        FilesCmd::One(_) => Ok(None),
        FilesCmd::Each(_, _) => Ok(None),
        FilesCmd::Other(_, _) => Ok(None),
    }
}
