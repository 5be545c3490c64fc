//! Why a connection ended.

use ninep_types::WireFault;

/// What was wrong with the bytes of a connection.
#[derive(Clone, Copy, Debug, PartialEq, Eq)]
pub enum Bad {
    /// They are no message.
    Wire(WireFault),
    /// The message is larger than the connection's msize.
    Size,
    /// The message has the tag of one that still waits.
    Tag,
}

/// Why a connection ended.
#[derive(Clone, Copy, Debug, PartialEq, Eq)]
pub enum Ending {
    /// Its input ended between two messages.
    End,
    /// Its input ended inside a message.
    Torn,
    /// Its input could not be read.
    ReadFault,
    /// Its input broke the protocol.
    Broken(Bad),
    /// Its share of the messages is used up.
    Spent,
    /// Its output could not be written.
    Gone,
    /// There was no memory to serve it.
    NoMemory,
}
