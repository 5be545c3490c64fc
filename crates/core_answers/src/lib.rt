//! What each message of a connection does, and its answer; what the files of windows give and take.
#![tactic(auto)]

mod addressing;
mod answer;
mod erring;
pub mod laws;
mod read;
mod texts;
mod write;

pub use am_text::{Bytes, Items, NoMemory, Rune, Runes};
pub use answer::reaction_of;
pub use core_fids::{Reaction, Server};
pub use ninep_types::TBody;
