//! What openings of ports get, over every journal.

ghost use Rattle.event_laws.specs.PortLaws.{PortsAreLawful};

/// Over every journal, in the fields of `PortLaws`. What an entry does to ports it does by calls of them, and its
/// Rreads on openings of ports have the data that these give, in order. The joined data of the Rreads on an opening are
/// a front of what its port kept when it joined followed by each message that was delivered to its port while it was
/// there, in order: no byte is lost or given twice. While it is there, what is missing is what it has left with the
/// messages that wait for it.
pub fn ports_are_lawful()
    ensures { PortsAreLawful }
{}
