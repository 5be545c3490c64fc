//! Events, why one is refused, and the formats of a journal.

ghost use Rattle.std.specs.Prelude.{◌≡◌};
ghost use Rattle.am_journal.specs.declared.event.Refused.TheVariants.{NoMemory};

use crate::ending::Ending;
use am_text::{Bytes, Items, Range, Runes};
use ninep_types::TMsg;
use std::alloc::{AllocError, AllocFailed};

/// A text of a window.
#[derive(Clone, Copy, Debug, PartialEq, Eq)]
pub enum Side {
    Tag,
    Body,
}

/// A range of one of a window's texts.
#[derive(Clone, Copy, Debug, PartialEq, Eq)]
pub struct Spot {
    pub window: u32,
    pub side: Side,
    pub range: Range,
}

/// What the editor takes one at a time. A transcript has a line for each.
#[derive(Drop)]
pub enum Event {
    /// A connection is made. There are 64 of them, numbered from 0.
    Dial {
        conn: u32,
    },
    /// A message comes on a connection.
    Msg {
        conn: u32,
        msg: TMsg,
    },
    /// A connection ends.
    Hang {
        conn: u32,
        why: Ending,
    },
    /// The unsent replies of a connection are taken, to be sent.
    Took {
        conn: u32,
    },
    /// An empty window is made.
    New,
    /// A text is typed into a window.
    Key {
        window: u32,
        side: Side,
        text: Runes,
    },
    /// Dot is set in a window's body.
    Sel {
        window: u32,
        range: Range,
    },
    /// A text of a window is executed.
    Exec {
        at: Spot,
    },
    /// A text of a window is executed with another text, of the same window or of another.
    Arg {
        at: Spot,
        chord: Spot,
    },
    /// A text of a window is looked for.
    Look {
        at: Spot,
    },
    /// A file is stored in the tree of files.
    File {
        path: Bytes,
        text: Runes,
    },
    /// A directory is made in the tree of files.
    Dir {
        path: Bytes,
    },
}

/// The format of a journal and of its transcript. The editor's limits of fids and of waiting reads go by it.
#[derive(Clone, Copy, Debug, PartialEq, Eq)]
pub enum Format {
    One,
    Two,
}

/// Events in their order.
pub type Events = Items<Event>;

/// A format, and all events that were done. Its entries are these events, numbered from 1.
#[derive(Drop)]
pub struct Journal {
    pub format: Format,
    pub events: Events,
}

/// Why an event isn't enabled.
#[derive(Clone, Copy, Debug, PartialEq, Eq)]
pub enum Why {
    /// The connection isn't dialled.
    Conn,
    /// The connection was dialled before.
    Dialed,
    /// The connection has ended.
    Ended,
    /// The message is larger than the connection's msize.
    Size,
    /// A read of the connection with the message's tag waits.
    Tag,
    /// The connection has 256 unsent replies.
    Replies,
    /// The connection has no unsent reply.
    Nothing,
    /// There is no live window with this number.
    Window,
    /// The range isn't in the text.
    Range,
    /// No more windows can be made.
    Windows,
    /// The text would be too long.
    Length,
    /// A file stands where a directory is wanted, or a directory where a file is.
    Tree,
}

/// Why an event isn't done.
#[derive(Clone, Copy, Debug, PartialEq, Eq)]
pub enum Refused {
    /// The state doesn't allow it.
    NotEnabled(Why),
    /// There is no memory for it.
    NoMemory,
}

impl From<am_text::NoMemory> for Refused {
    ghost from_gives = { λ _ e. e ≡ NoMemory };

    fn from(_e: am_text::NoMemory) -> Refused {
        Refused::NoMemory
    }
}

impl From<AllocError> for Refused {
    ghost from_gives = { λ _ e. e ≡ NoMemory };

    fn from(_e: AllocError) -> Refused {
        Refused::NoMemory
    }
}

impl<T: Drop> From<AllocFailed<T>> for Refused {
    ghost from_gives = { λ _ e. e ≡ NoMemory };

    fn from(_e: AllocFailed<T>) -> Refused {
        Refused::NoMemory
    }
}
