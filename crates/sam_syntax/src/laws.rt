//! Laws of the definitions. Each function has laws as its contract, and does nothing.

ghost use Rattle.std.specs.Prelude.{◌≡◌, ℕ, List};
ghost use Rattle.edit_parts.specs.Tree.{Command};
ghost use Rattle.sam_syntax.specs.Grammar.{IsEdit};
ghost use Rattle.sam_syntax.specs.Laws.{JoinsAsWritten, EditsAreWritten, LoopsTakeTheRest, BlocksHoldTheirLines};

pub use crate::tree_laws::edits_have_commands;

/// A text has one command at most.
pub fn an_edit_has_one_tree()
    ensures { (text : List ℕ) (a b : Command) → IsEdit text a → IsEdit text b → a ≡ b }
{}

/// The pieces of a text are joined to a command exactly where the grammar writes the command with them.
pub fn an_edit_is_as_written()
    ensures pieces { JoinsAsWritten }
    ensures text { EditsAreWritten }
{}

/// A loop does all that stands behind it.
pub fn a_loop_takes_the_rest()
    ensures { LoopsTakeTheRest }
{}

/// The commands of a block are those of its lines, in their order.
pub fn a_block_holds_its_lines()
    ensures { BlocksHoldTheirLines }
{}
