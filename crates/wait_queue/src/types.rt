//! Reads, and what they are given.

use am_text::Bytes;

/// A read that asks for at most `count` bytes of what its opening gets. It is known by its
/// connection and its tag.
#[derive(Clone, Copy, Debug, PartialEq, Eq)]
pub struct Asker {
    pub conn: u32,
    pub tag: u16,
    pub opening: u32,
    pub count: u32,
}

/// What a read is given.
#[derive(Drop)]
pub struct Piece {
    pub bytes: Bytes,
    /// The number of the item that the piece takes, if it takes one.
    pub taken: Option<u64>,
}

/// The answer to a read: its piece at once, or that it waits.
#[derive(Drop)]
pub enum Asked {
    Now(Piece),
    Waits,
}
