//! What holds of the items of event files, over every journal.

ghost use Rattle.event_laws.specs.Laws.{EventsAreLawful};

/// Over every journal, in the fields of `EventLaws`. In each window the pending items come last, and along the others
/// the entry at which each was taken or dropped never falls. An item is dropped only at the entry behind which its
/// event file is open no more. What was written back or dropped stays so. What an opening was given in Rreads is the
/// joined spelling of the items that it took, but for an end of the last one's: what it has left while it is open. Each
/// item that was taken has an Rread of its own, at that entry and on that opening, with a non-empty front of its
/// spelling. And what an entry does to the event files it does by calls of the book alone.
pub fn events_are_lawful()
    ensures { EventsAreLawful }
{}
