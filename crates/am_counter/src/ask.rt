//! Questions to a journal, and what comes of taking replies.

/// What is asked of the journal as it is at one turn.
#[derive(Clone, Copy, Debug, PartialEq, Eq)]
pub enum Ask {
    /// Whether the event file of this window is open.
    EventOpen(u32),
    /// Whether this connection has fewer than 256 unsent replies, so that a message may come.
    Room(u32),
    /// Whether this connection has ended.
    Ended(u32),
}

/// What came of taking the unsent replies of a connection.
#[derive(Clone, Copy, Debug, PartialEq, Eq)]
pub enum Taken {
    /// They were taken: some bytes at least.
    Bytes,
    /// There is none, and the connection goes on.
    NothingYet,
    /// There is none, and the connection has ended.
    Ended,
}
