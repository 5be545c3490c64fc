//! What a step does to the scene, as a task: changes of windows, Exec and Look, control messages, an item that is
//! written back, what comes into the tree of files, and what is written to the plumber's files.
#![tactic(auto)]

mod control;
mod ended;
mod plumbing;
mod task;

pub use am_text::{Bytes, NoMemory};
pub use core_exec::{Side, Spot};
pub use core_fids::Refusal;
pub use core_scene::{Changes, Entry, Scene};
pub use ended::Ended;
pub use task::{Task, do_task};
