//! Laws of the definitions. Each function has laws as its contract, and does nothing.

ghost use Rattle.acme_watch.specs.Laws.{OpeningsAreNumbered, GetsEachLine, StayInOrder, WaitingAreLast, TakesTheFirst};
ghost use Rattle.acme_watch.specs.Laws.{GetsWhatItTook, LivesGoOn, AnswersWhatItTook, ReadsAgain, ReadsOnly};

/// No opening that is there has a number beyond those ever made of its file, whatever is called.
pub fn openings_are_numbered()
    ensures { OpeningsAreNumbered }
{}

/// What an opening of `log` was given, with what it has left and the lines that wait for it, are the lines that were
/// noted since it opened, in order, whatever is called.
pub fn openings_get_each_line()
    ensures { GetsEachLine }
{}

/// The requests that wait are the last ones, each with its number and its two lines, whatever is called; a read takes
/// the first of them.
pub fn requests_stay_in_order()
    ensures kept { StayInOrder }
    ensures last { WaitingAreLast }
    ensures first { TakesTheFirst }
{}

/// What an opening of `jobs` was given, with what it has left, are the two lines of the requests that it took, in
/// order,
/// whatever is called.
pub fn openings_get_what_they_took()
    ensures { GetsWhatItTook }
{}

/// A request that was taken stays taken by that opening at that entry, whatever is called, and while it is neither
/// answered nor lost its opening is there. One that was answered or lost stays so.
pub fn lives_go_on()
    ensures { LivesGoOn }
{}

/// Only the opening that took a request can answer it, and only once.
pub fn answers_are_to_what_was_taken()
    ensures { AnswersWhatItTook }
{}

/// What is read as an answer is a decimal with ` ok` or ` fail` and a newline behind it, and nothing else is.
pub fn answers_are_read_again()
    ensures again { ReadsAgain }
    ensures only { ReadsOnly }
{}
