//! Laws of the editor. Each function has a law as its contract, and does nothing.

ghost use Rattle.core_answers.specs.Laws.{EachIsAnswered};

/// A reaction answers its message by its own R message, unless one of the named refusals
/// applies, whose text is answered.
pub fn reactions_are_answered()
    ensures { EachIsAnswered }
{}
