//! What a line asks for.

use am_text::{Bytes, Items, Names};

/// What a line of `do` asks for. A fid is 1 to 1,000.
#[derive(Drop)]
pub enum DoLine {
    /// Opens the file to which the names lead from the root, with the mode of open(5).
    Open { fid: u32, names: Names, mode: u8 },
    /// Reads at most `count` bytes from `offset` on.
    Read { fid: u32, offset: u64, count: u32 },
    /// Writes the bytes at `offset`.
    Write { fid: u32, offset: u64, bytes: Bytes },
    /// Closes the file.
    Close { fid: u32 },
}

/// The lines of an input, in order.
pub type DoLines = Items<DoLine>;
