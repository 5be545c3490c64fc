//! What holds of a book over the calls of one entry.

ghost use Rattle.book_calls.specs.Laws.{CallsAreLawful};

pub use crate::port_laws::port_calls_are_lawful;

/// Over the calls that one entry makes of a lawful book, in the fields of `IsLawfulEntry`. The book stays lawful. What
/// is dropped behind them was so before, or it is dropped at this entry and its event file is open no more. What was
/// written back or dropped stays so. What an opening was given, with what it is given now, is the joined spelling of
/// the items that it took, but for an end of the last one's. And what was taken was so before, or by an answer of this
/// entry, whose bytes are a non-empty front of the item's spelling.
pub fn calls_are_lawful()
    ensures { CallsAreLawful }
{}
