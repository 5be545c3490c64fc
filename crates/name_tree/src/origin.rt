//! Where a place of the tree hangs.

use am_text::Bytes;

/// The place above, and the name there.
#[derive(Drop)]
pub struct Origin {
    pub above: usize,
    pub name: Bytes,
}
