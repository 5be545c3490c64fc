//! Laws of the definitions. Each function has laws as its contract, and does nothing.

ghost use Rattle.am_text.specs.Escapes.{ReadsAgain, ReadsOnly};
ghost use Rattle.am_text.specs.Pieces.{BegunIsFront, JoinsTexts, JoinsRests, EndsWhole, LeavesNone, LeavesFew};

/// Reading undoes escaping, and nothing else is read.
pub fn escapes_are_read_again()
    ensures again { ReadsAgain }
    ensures only { ReadsOnly }
{}

/// What is left over is what the next piece may end: the proper front of a sequence.
pub fn begun_is_front()
    ensures { BegunIsFront }
{}

/// Decoding piece by piece is decoding of the whole.
pub fn pieces_are_joined()
    ensures texts { JoinsTexts }
    ensures rests { JoinsRests }
    ensures end { EndsWhole }
    ensures none { LeavesNone }
    ensures few { LeavesFew }
{}
