//! Sam's addresses: their trees, how they are written, and the tree of a text as a function of the text.
#![tactic(auto)]

mod address;
pub mod laws;
mod mark;
mod parser;
mod reader;
mod reading;
mod scan;
mod token;

pub use address::{Addr, Limited, SynFault};
pub use mark::begins_piece;
pub use parser::{addr_at, parse_addr};
pub use reader::read_address;
pub use scan::{delimiter_at, expression, number};
