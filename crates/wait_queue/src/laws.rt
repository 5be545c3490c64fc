//! What holds of all that a queue gives.

ghost use Rattle.wait_queue.specs.Laws.{LosesNothing, LeavesOthers, CancelledIsGone, CancelledIsNotNext, OnlyAskWaits};
ghost use Rattle.wait_queue.specs.Laws.{ServedWaited};

/// What an answer gives, with what it leaves to its opening, is what the opening had left and the item that the answer
/// takes.
pub fn loses_nothing()
    ensures { LosesNothing }
{}

/// A read leaves the carries of other openings.
pub fn leaves_others()
    ensures { LeavesOthers }
{}

/// After a cancel no read with that tag on that connection waits, nor is one the next.
pub fn cancelled_is_gone()
    ensures gone { CancelledIsGone }
    ensures next { CancelledIsNotNext }
{}

/// Only `ask` makes a read wait, the one that it is called for, and `serve` answers only reads that
/// wait. So a read that was cancelled is not answered, and takes nothing, unless it is asked anew.
pub fn only_ask_waits()
    ensures adds { OnlyAskWaits }
    ensures served { ServedWaited }
{}
