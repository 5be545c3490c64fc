//! What holds of all paths.

ghost use Rattle.re_sets.specs.Laws.{SpansArePaths, MatchesArePaths, MatchesAreMirroredPaths, TreesAreRead};
ghost use Rattle.re_sets.specs.Laws.{SetsAreEntered, SetsAreStepped, SetsAreReached};
ghost use Rattle.re_sets.specs.Searches.{SearchFinds, BackFinds, SearchIsValue};

/// A span is a path through the letters of a tree, and backward through those of the mirrored tree.
pub fn spans_are_paths()
    ensures spans { SpansArePaths }
    ensures forward { MatchesArePaths }
    ensures backward { MatchesAreMirroredPaths }
    ensures read { TreesAreRead }
{}

/// Sets of letters step over runes as matches do, and hold after so many runes just the letters that were reached.
pub fn sets_follow_spans()
    ensures entered { SetsAreEntered }
    ensures stepped { SetsAreStepped }
    ensures reached { SetsAreReached }
{}

/// A search by rows.
pub fn rows_search()
    ensures forward { SearchFinds }
    ensures backward { BackFinds }
    ensures value { SearchIsValue }
{}
