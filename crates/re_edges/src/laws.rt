//! Laws of the definitions. The function has the law as its contract, and does nothing.

ghost use Rattle.re_edges.specs.Laws.{MatchesKeepToEdges};

/// A text that is a match as a whole looks at its edges as the expression says.
pub fn matches_keep_to_edges()
    ensures { MatchesKeepToEdges }
{}
