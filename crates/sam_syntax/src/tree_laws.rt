//! Laws of the definitions. The function has a law as its contract, and does nothing.

ghost use Rattle.sam_syntax.specs.TreeLaws.{EditsAreThose};

/// A text has a command exactly where the grammar of Edit writes that command so.
pub fn edits_have_commands()
    ensures { EditsAreThose }
{}
