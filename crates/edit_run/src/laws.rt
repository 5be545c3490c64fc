//! Laws of the definitions. The functions do nothing.

ghost use Rattle.edit_run.specs.Laws.{NoMatchWantsNothing, NumberZeroWantsNothing, OneOfTheTwo, TextsAreWoven};

/// Where a range has no match, `s` and `x` want nothing, and so does `s0` everywhere. Of `g` and `v` one does its
/// command and the other doesn't.
pub fn no_match_wants_nothing()
    ensures none { NoMatchWantsNothing }
    ensures zero { NumberZeroWantsNothing }
    ensures one { OneOfTheTwo }
{}

/// The texts for which `y` does its command and those for which `x` does, by turns, are the text of the range.
pub fn texts_and_matches_are_the_range()
    ensures { TextsAreWoven }
{}
