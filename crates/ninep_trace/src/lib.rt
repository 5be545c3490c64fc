//! The messages of 9P2000 and the lines of a transcript in words, for people.
//!
//! `specs/Words` says the one spelling of each message and line, `specs/Fields` and `specs/Reading` how a line is read.
//! `docs/formats/words.md` has the table of messages.
#![tactic(auto)]

mod events;
mod fields;
pub mod laws;
mod line;
mod puts;
mod r_reading;
mod r_words;
mod reading;
mod t_reading;
mod t_words;
mod unread;

pub use am_journal::Event;
pub use am_text::{Bytes, Items, Names, NoMemory};
pub use events::words_of;
pub use line::Line;
pub use ninep_types::{Qid, Qids, RBody, RMsg, TBody, TMsg};
pub use r_words::words_r;
pub use reading::read_words;
pub use t_words::words_t;
