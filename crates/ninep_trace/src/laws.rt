//! Laws of the words.

ghost use Rattle.ninep_trace.specs.Laws.{ReadsAgain, ReadsOnly, StandInLines};

/// Each line in words has one meaning, and each meaning one spelling: what is spelled so is read, and nothing else. The
/// function does nothing.
pub fn words_are_read_again()
    ensures again { ReadsAgain }
    ensures only { ReadsOnly }
{}

/// What a line in words says has no newline, and is no line `report`. The function does nothing.
pub fn words_stand_in_lines()
    ensures { StandInLines }
{}
