//! What a step ends: connections, their sessions and fids, openings of files whose reads wait, waiting reads that were
//! answered, and replies that are taken; and what the report tells of the editor, with answers to what is asked of it.
#![tactic(auto)]

mod asking;
mod closing;
mod connections;
mod prepared;
mod replies;
mod view;

pub use asking::answer;
pub use closing::{change_book, change_ports, change_watch};
pub use connections::{change_connections, change_sessions, change_users};
pub use prepared::Prepared;
pub use replies::take_replies;
pub use view::view_of;
