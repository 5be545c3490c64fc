//! What openings of ports get over calls of the ports.

ghost use Rattle.book_calls.specs.PortLaws.{CallsAreLawful};

/// Over calls, one after another, no opening is numbered beyond those that ever joined. And what an opening was given,
/// with what it is given by them, is a front of what its port kept when it joined followed by each message that was
/// delivered to its port while it was there: no byte is lost or given twice. While it is there, what is missing is what
/// it has left, and is still to come.
pub fn port_calls_are_lawful()
    ensures { CallsAreLawful }
{}
