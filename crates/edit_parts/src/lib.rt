//! The parts of Edit's commands: their trees, and how the pieces of a command are written.
#![tactic(auto)]

mod action;
mod command;
mod expression;
mod kind;
pub mod laws;
mod scan;
mod text;
mod token;

pub use addr_syntax::{Addr, Limited, SynFault};
pub use command::{Act, Cmd, Cmds};
pub use kind::{Kind, Letter, Loop, Place, Request, Way, kind_of};
pub use token::{Token, token_at};
