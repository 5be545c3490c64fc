//! The sides of a connection that is served, and of a script, over any journal that they share.
#![tactic(auto)]

mod asked;
mod bells;
mod budget;
mod due;
mod fault;
mod hanging;
mod laws;
mod reading;
mod scripting;
mod sending;
mod start;
mod station;
mod writing;

pub use asked::Asked;
pub use bells::Bells;
pub use fault::{LineFault, fault_word};
pub use laws::what_stands_next_decides;
pub use reading::read_side;
pub use scripting::{ScriptEnd, first_line, script_side};
pub use station::{Script, Station};
pub use writing::{WriteEnd, write_side};
