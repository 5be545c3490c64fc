//! Edit, done to the scene.

ghost use Rattle.std.specs.Prelude.{◌≡◌, IsSome, IfOk, OnOk};
ghost use Rattle.edit_files.specs.Command.{files_command};
ghost use Rattle.core_windows.specs.Windows.{window_at};
ghost use Rattle.core_scene.specs.Scenes.{scene_of, kept_of, Did};
ghost use Rattle.core_actions.specs.Seen.{dir_of};
ghost use Rattle.core_across.specs.Commands.{is_planned};
ghost use Rattle.core_across.specs.Plans.{command_plans, AreSound};
ghost use Rattle.core_across.specs.FileCommands.{file_deeds};
ghost use Rattle.core_across.specs.Editing.{planned_outcome, file_outcome, command_outcome, told_deeds, edit_deeds};

use crate::file_commands::file_edit;
use crate::making::make;
use crate::planning::{CommandPlans, command_plans};
use crate::reading::read_files;
use crate::saying::say;
use am_text::{NoMemory, Rune};
use core_edit::CommandFault;
use core_scene::{Entry, Scene};
use edit_files::FilesCmd;
use std::alloc::Global;

// Whether bodies are planned for a command: one of sam(1), in this window or in others.
fn is_planned(cmd: &FilesCmd) -> bool
    ensures { result ≡ is_planned (files_command cmd.now) }
{
    match cmd {
        FilesCmd::One(_) => true,
        FilesCmd::Each(_, _) => true,
        FilesCmd::Other(_, _) => true,
        FilesCmd::Open(_) => false,
        FilesCmd::Drop(_) => false,
        FilesCmd::Enter(_) => false,
        FilesCmd::ReadIn(_, _) => false,
        FilesCmd::WriteOut(_, _) => false,
    }
}

// Does plans, or says their fault.
fn do_planned(
    alloc: Global,
    scene: &mut Scene,
    entry: Entry,
    window: u32,
    planned: CommandPlans,
) -> Result<(), NoMemory>
    requires { IfOk planned (AreSound scene.old.windows.present) }
    ensures ok { OnOk result (Did entry (scene_of scene.old) (scene_of scene.new)
        (told_deeds entry (dir_of (window_at scene.old.windows.present window))
        (planned_outcome entry (dir_of (window_at scene.old.windows.present window)) planned (scene_of scene.old))
        (scene_of scene.old))) }
    ensures kept { kept_of scene.new ≡ kept_of scene.old }
{
    match planned {
        Ok(plans) => make(alloc, scene, entry, window, plans),
        Err(fault) => say(alloc, scene, entry, window, fault),
    }
}

// A command over the bodies of windows.
fn edit_bodies(
    alloc: Global,
    scene: &mut Scene,
    entry: Entry,
    window: u32,
    cmd: &FilesCmd,
) -> Result<(), NoMemory>
    requires { IsSome (window_at scene.old.windows.present window) }
    ensures ok { OnOk result (Did entry (scene_of scene.old) (scene_of scene.new)
        (told_deeds entry (dir_of (window_at scene.old.windows.present window))
        (planned_outcome entry (dir_of (window_at scene.old.windows.present window))
        (command_plans window (files_command cmd.now) scene.old.windows.present) (scene_of scene.old))
        (scene_of scene.old))) }
    ensures kept { kept_of scene.new ≡ kept_of scene.old }
{
    let planned = command_plans(alloc, &scene.windows, window, cmd)?;
    do_planned(alloc, scene, entry, window, planned)
}

// A command over windows and files.
fn edit_files(
    alloc: Global,
    scene: &mut Scene,
    entry: Entry,
    window: u32,
    cmd: &FilesCmd,
) -> Result<(), NoMemory>
    requires { IsSome (window_at scene.old.windows.present window) }
    ensures ok { OnOk result (Did entry (scene_of scene.old) (scene_of scene.new)
        (told_deeds entry (dir_of (window_at scene.old.windows.present window))
        (file_outcome (file_deeds entry window (files_command cmd.now) (scene_of scene.old))) (scene_of scene.old))) }
    ensures kept { kept_of scene.new ≡ kept_of scene.old }
{
    match file_edit(alloc, scene, entry, window, cmd)? {
        Some(fault) => say(alloc, scene, entry, window, Some(fault)),
        None => Ok(()),
    }
}

// A command.
fn do_command(
    alloc: Global,
    scene: &mut Scene,
    entry: Entry,
    window: u32,
    cmd: &FilesCmd,
) -> Result<(), NoMemory>
    requires { IsSome (window_at scene.old.windows.present window) }
    ensures ok { OnOk result (Did entry (scene_of scene.old) (scene_of scene.new)
        (told_deeds entry (dir_of (window_at scene.old.windows.present window))
        (command_outcome entry window (files_command cmd.now) (scene_of scene.old)) (scene_of scene.old))) }
    ensures kept { kept_of scene.new ≡ kept_of scene.old }
{
    if is_planned(cmd) {
        edit_bodies(alloc, scene, entry, window, cmd)
    } else {
        edit_files(alloc, scene, entry, window, cmd)
    }
}

/// Edit: a text is done as a command of sam(1) over the body of a window, or as one over windows and files.
///
/// `X` and `Y` do their command in the body of each live window whose name has a match, or has none. All plans are
/// made before anything is done, over the texts as they stand. The bodies are then edited by rising number of their
/// windows, each by one change, and dot is the text of the last change, or the range of the last command where there
/// is none. The requests of `|`, `<` and `>` follow in that order, and then all that was printed is put at the end of
/// the errors window of this window's directory, as one text. `B`, `D`, `e`, `r` and `w` open and delete windows, and
/// read and store files. Where the text is no command, where it has a fault, in whatever window, and where a body
/// would have more than 16,777,216 runes, the line `Edit: FAULT` is put there, and nothing else is done.
pub fn edit(
    alloc: Global,
    scene: &mut Scene,
    entry: Entry,
    window: u32,
    text: &[Rune],
) -> Result<(), NoMemory>
    requires { IsSome (window_at scene.old.windows.present window) }
    ensures ok { OnOk result (Did entry (scene_of scene.old) (scene_of scene.new)
        (edit_deeds entry window text.now (scene_of scene.old))) }
    ensures kept { kept_of scene.new ≡ kept_of scene.old }
{
    match read_files(alloc, text)? {
        Some(cmd) => do_command(alloc, scene, entry, window, &cmd),
        None => say(alloc, scene, entry, window, Some(CommandFault::BadCommand)),
    }
}
