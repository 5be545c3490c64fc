//! A client of 9P2000 over a source and a sink, after section 5 of the Plan 9 manual.
//!
//! A client sends messages and waits for the replies to them, in any order: each message has a tag of its own, and the
//! replies that come for other tags are kept.
#![tactic(auto)]

mod asked;
mod client;
mod fault;
mod hearing;
mod kinds;
pub mod laws;
mod unread;
mod version;

pub use am_text::{Bytes, Items, NoMemory};
pub use asked::Asked;
pub use client::Client;
pub use fault::CallFault;
pub use ninep_types::{Qid, Qids, RBody, RMsg, TBody, TMsg, WireFault};
pub use version::version_message;
