//! Edit's commands, as sam has them: how they are written, a reader of them, and the command that a text is,
//! as a function of the text.
#![tactic(auto)]

pub mod laws;
mod parser;
mod position;
mod progress;
mod reader;
mod reading;
mod tree_laws;

pub use addr_syntax::parse_addr;
pub use edit_parts::{Act, Addr, Cmd, Cmds, SynFault};
pub use parser::parse_edit;
pub use reader::read_edit;
