//! Where a message goes.

use am_text::{Bytes, Runes};
use plumb_msg::PlumbMsg;

/// What is done where the port isn't open. Where there is no port the command is always started, and nothing is kept.
#[derive(Drop)]
pub enum Way {
    /// Nothing: the message goes to the port alone.
    Port,
    /// The command is started, and the message isn't kept.
    Start(Runes),
    /// The command is started, and the message is kept for the port, if there is one.
    Client(Runes),
}

/// Where a message goes, and the message that goes there.
#[derive(Drop)]
pub struct Route {
    /// The name of the port, if there is one.
    pub port: Option<Bytes>,
    pub way: Way,
    /// The message as the rules left it, with the port as its dst.
    pub msg: PlumbMsg,
}
