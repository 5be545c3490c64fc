//! What a fid keeps.

use crate::held::Held;
use acme_tree::Node;
use am_text::Part;

/// A fid: the node at which it stands, and what its reads and writes go on with (intro(5)).
#[derive(Drop)]
pub struct Fid {
    pub node: Node,
    /// The mode in which it was opened, None where it isn't open.
    pub mode: Option<u8>,
    /// The opening of an event file or of a port.
    pub opening: Option<u32>,
    /// The offset at which a read of its directory goes on.
    pub given: u64,
    /// How many records of its directory were given.
    pub skip: usize,
    /// The start of a character whose rest wasn't written yet.
    pub part: Part,
    /// What was written and isn't whole yet.
    pub held: Held,
}
