//! Laws of what is written to `rules`. Each function has a law as its contract, and does nothing.

ghost use Rattle.core_rules.specs.RulesLaws.{RefusedAddsNothing, WrittenIsKept};

/// Where a write or a rest is refused, it does nothing.
pub fn refused_adds_nothing()
    ensures { RefusedAddsNothing }
{}

/// What is accepted and held after a write is what was accepted and what was held before, with what was written; and a
/// rest is accepted whole.
pub fn what_is_written_is_kept()
    ensures { WrittenIsKept }
{}
