//! The messages of 9P2000 read from bytes and written to them, after section 5 of the Plan 9 manual.
//!
//! A message is size[4] type[1] tag[2] and its fields. Numbers are little-endian, and the size counts
//! its own four bytes. `docs/formats/messages.md` has the table of messages.
#![tactic(auto)]

mod fields;
pub mod laws;
mod puts;
mod r_reading;
mod r_writing;
mod t_reading;
mod t_writing;

pub use am_text::{Bytes, Items, Names, NoMemory};
pub use ninep_types::{Qid, Qids, RBody, RMsg, TBody, TMsg, WireError, WireFault};
pub use r_reading::read_r;
pub use r_writing::{r_kind, write_r};
pub use t_reading::read_t;
pub use t_writing::{t_kind, t_size, write_t};
