//! Laws of the cut. Each function has laws as its contract, and does nothing.

ghost use Rattle.ninep_cut.specs.Laws.{WholeWhere, MoreWhere, BrokenWhere, StaysBroken, FrontIs, JoinsBytes};
ghost use Rattle.ninep_cut.specs.Laws.{AreMessages, LeavesNone, BeginsWith, IsLongest, JoinsPieces, CutsNoMore};
ghost use Rattle.ninep_cut.specs.Laws.{GivesTheCut, GivesAll};

/// Where each answer comes.
pub fn answers_are_exact()
    ensures whole { WholeWhere }
    ensures more { MoreWhere }
    ensures broken { BrokenWhere }
    ensures stays { StaysBroken }
    ensures front { FrontIs }
{}

/// The cut of a stream is the longest list of whole messages from the front, and the rest.
pub fn cuts_are_longest()
    ensures joined { JoinsBytes }
    ensures messages { AreMessages }
    ensures rest { LeavesNone }
    ensures begins { BeginsWith }
    ensures longest { IsLongest }
{}

/// However a stream is cut into pieces, the messages that are given and the rest are its cut.
pub fn pieces_are_joined()
    ensures pieces { JoinsPieces }
    ensures broken { CutsNoMore }
    ensures calls { GivesTheCut }
    ensures all { GivesAll }
{}
