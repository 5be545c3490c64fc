//! What holds of all searches.

ghost use Rattle.re_spans.specs.Laws.{TestTells, FindsTheFirst, FindsTheLast, FindsTheMatchOver};
ghost use Rattle.re_spans.specs.Laws.{SuccessiveMatchesFollow, SuccessiveMatchesAreInOrder};

/// The searches that values speak of choose a match: the one that begins first, or ends last, or begins first of
/// those that have a place, and of those the longest. They find none only where there is none.
pub fn searches_choose_a_match()
    ensures test { TestTells }
    ensures first { FindsTheFirst }
    ensures last { FindsTheLast }
    ensures over { FindsTheMatchOver }
{}

/// Successive matches are each the first from the end of the one before, and none is left after the last. They lie
/// in order inside their range.
pub fn successive_matches_follow()
    ensures follow { SuccessiveMatchesFollow }
    ensures ordered { SuccessiveMatchesAreInOrder }
{}
