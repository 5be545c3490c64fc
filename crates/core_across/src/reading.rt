//! The command that a text of Edit is.

ghost use Rattle.std.specs.Prelude.{◌≡◌, IfOk};
ghost use Rattle.std.specs.Option.{option_map};
ghost use Rattle.edit_files.specs.Command.{files_command};
ghost use Rattle.core_across.specs.Commands.{small_files};

use am_text::{NoMemory, Rune};
use edit_files::{FilesCmd, SynFault, parse_files};
use std::alloc::Global;

/// The command that a text is, if it is one inside the limits of the language.
pub(crate) fn read_files(alloc: Global, text: &[Rune]) -> Result<Option<FilesCmd>, NoMemory>
    ensures { IfOk result (λ found. option_map files_command found ≡ small_files text.now) }
{
    match parse_files(alloc, text) {
        Ok(cmd) => Ok(Some(cmd)),
        Err(SynFault::Bad(_)) => Ok(None),
        Err(SynFault::Nodes) => Ok(None),
        Err(SynFault::Deep) => Ok(None),
        Err(SynFault::NoMemory) => Err(NoMemory),
    }
}
