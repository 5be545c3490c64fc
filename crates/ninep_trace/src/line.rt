//! What a line in words says.

use am_journal::Event;
use ninep_types::RMsg;

/// What a line in words says.
#[derive(Drop)]
pub enum Line {
    /// An event of a transcript.
    Event(Event),
    /// A message to a connection.
    Reply(u32, RMsg),
}
