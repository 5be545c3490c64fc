//! Cases of ninep_cut. A stream goes on from line to line.
//!
//! | line | answer |
//! |---|---|
//! | `stream` | a new stream, and a message `old` |
//! | `cut` COUNT BYTES | so many such pieces come: how many bytes are left then, what stands in front, how many are
//! left once a message was given, and the message |
//!
//! Of a message the answer has the length and the last bytes, at most 16 of them.

use crate::fault::Fault;
use crate::fields::line;
use am_text::{Bytes, Items};
use ninep_cut::Cutter;
use std::alloc::Global;

/// How many bytes of a message are shown.
const SHOWN: usize = 16;

/// A stream, and the message that was given last.
#[derive(Drop)]
pub struct Stream {
    cutter: Cutter,
    message: Bytes,
}

impl Stream {
    /// A stream of which nothing came.
    pub fn new(alloc: Global) -> Result<Self, Fault> {
        Ok(Stream {
            cutter: Cutter::new(alloc),
            message: Items::copied(alloc, b"old")?,
        })
    }

    fn feed(&mut self, count: usize, piece: &[u8]) -> Result<(), Fault> {
        for _ in 0..count {
            self.cutter.feed(piece)?;
        }
        Ok(())
    }

    pub fn cut(&mut self, alloc: Global, count: usize, piece: &[u8]) -> Result<Bytes, Fault> {
        self.feed(count, piece)?;
        let fed = self.cutter.rest();
        let cut = self.cutter.next(&mut self.message)?;
        let left = self.cutter.rest();
        let message = self.message.as_slice();
        let (_, last) = message.split_at(message.len().saturating_sub(SHOWN));
        let last = hex::encode(alloc, last)?;
        Ok(line(format!(in alloc; "{fed} {cut:?} {left} {} {last}", message.len())?))
    }
}
