//! A queue of items, and of reads that wait for them.
#![tactic(auto)]

mod carries;
mod laws;
mod limits;
mod pending;
mod queue;
mod reads;
mod types;
mod waiting_list;

pub use laws::{cancelled_is_gone, leaves_others, loses_nothing, only_ask_waits};
pub use limits::MAX_OPENINGS;
pub use queue::WaitQueue;
pub use reads::{Answers, Reads};
pub use types::{Asked, Asker, Piece};
