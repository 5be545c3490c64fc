//! Reads the command of Edit that a text is.

ghost use Rattle.std.specs.Prelude.{◌≡◌, IfOk};
ghost use Rattle.std.specs.Option.{option_map};
ghost use Rattle.edit_parts.specs.Tree.{command};
ghost use Rattle.sam_syntax.specs.Edits.{small_edit};

use crate::parse_edit;
use am_text::{NoMemory, Rune};
use edit_parts::{Cmd, SynFault};
use std::alloc::Global;

/// The command of Edit that the whole text is, after sam(1), and `None` where it is none inside the limits: no
/// expression of more than 2,048 nodes, at most 32 levels (a block and each of `x y g v` is one), and no address of
/// more than 1,024 operators.
pub fn read_edit(alloc: Global, text: &[Rune]) -> Result<Option<Cmd>, NoMemory>
    ensures { IfOk result (λ found. option_map command found ≡ small_edit text.now) }
{
    match parse_edit(alloc, text) {
        Ok(cmd) => Ok(Some(cmd)),
        Err(SynFault::Bad(_)) => Ok(None),
        Err(SynFault::Nodes) => Ok(None),
        Err(SynFault::Deep) => Ok(None),
        Err(SynFault::NoMemory) => Err(NoMemory),
    }
}
