//! A law of the causes for which reading ends. Its function has the law as its contract, and does nothing.

ghost use Rattle.am_serve.specs.Laws.{NextDecides};

/// What stands next in the stream decides: where it is beyond the budget or broken, no other cause is left but want of
/// memory.
pub fn what_stands_next_decides()
    ensures { NextDecides }
{}
