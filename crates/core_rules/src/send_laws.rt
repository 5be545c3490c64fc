//! Laws of what is written to `send`. Each function has a law as its contract, and does nothing.

ghost use Rattle.core_rules.specs.SendLaws.{HeldIsBegun, MessagesAreRead};

/// A text is its messages, one after another as their grammar has them, and the bytes behind them, which are no whole
/// message.
pub fn texts_are_cut_into_messages()
    ensures { MessagesAreRead }
{}

/// What is held is a proper front of a message.
pub fn held_bytes_are_no_message()
    ensures { HeldIsBegun }
{}
