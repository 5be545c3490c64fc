//! The tables of the editor, connections, and the kinds of events.
#![tactic(auto)]

mod connection;
mod kind;
mod limits;
mod parts;

pub use am_journal::CONNECTIONS;
pub use connection::{Connection, connection_at};
pub use kind::{Kind, conn_of, is_hang, kind_of};
pub use limits::REPLIES;
pub use parts::Parts;
