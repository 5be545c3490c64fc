//! What holds of all that openings are given.

ghost use Rattle.plumb_ports.specs.Laws.{LosesNothing, GetsEachMessage, BeginsWithNothing, KeptOnce, StaysLawful};
ghost use Rattle.plumb_ports.specs.Laws.{LeavesOthers, CancelledIsGone, CancelledIsNotNext, OnlyAskWaits, ServedWaited};
ghost use Rattle.plumb_ports.specs.Laws.{OpeningsAreNumbered};

/// What a call gives to an opening, with what is then still to come, is what was to come before with
/// what the call delivers. So no byte of a message is lost or given twice.
pub fn loses_nothing()
    ensures { LosesNothing }
{}

/// Each opening of a port gets what the port keeps when it joins, and each message that is delivered
/// while it is there, in order, whatever calls are made but for what `back` takes back.
pub fn gets_each_message()
    ensures begins { BeginsWithNothing }
    ensures gets { GetsEachMessage }
{}

/// A kept message is delivered once: the opening that takes it leaves none to the port, and a
/// message is either copied to openings or kept.
pub fn kept_once()
    ensures { KeptOnce }
{}

/// Where each opening that joins gets the next number, none is numbered beyond those that ever joined.
pub fn openings_are_numbered()
    ensures { OpeningsAreNumbered }
{}

/// No port ever keeps more than 64 messages, and one with an opening keeps none.
pub fn keeps_at_most_64()
    ensures { StaysLawful }
{}

/// An answer to a read leaves the messages and carries of other openings.
pub fn leaves_others()
    ensures { LeavesOthers }
{}

/// After a cancel no read with that tag on that connection waits, nor is one the next.
pub fn cancelled_is_gone()
    ensures gone { CancelledIsGone }
    ensures next { CancelledIsNotNext }
{}

/// Only `ask` makes a read wait, the one that it is called for, and `serve` answers only reads that
/// wait. So a read that was cancelled is not answered, and takes nothing, unless it is asked anew.
pub fn only_ask_waits()
    ensures adds { OnlyAskWaits }
    ensures served { ServedWaited }
{}
