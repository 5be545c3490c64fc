//! What was done to a text: edits, where they move places, and the groups that Undo takes back.
#![tactic(auto)]

pub mod laws;
mod log;
mod places;
mod splicing;
mod types;
mod undoing;

pub use log::UndoLog;
pub use places::image;
pub use splicing::splice;
pub use types::{Done, DoneList, Edit, Edits, Marking, Pushed, SpliceFault};
