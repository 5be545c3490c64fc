//! Replies to connections, and those of each connection that aren't taken yet, in two states.
#![tactic(auto)]

mod outputs;
mod reply;
mod unsent;

pub use outputs::Outputs;
pub use reply::{Reply, reply_at};
