//! Replaying a transcript, tracing it in words, and packing words into a transcript.
#![tactic(auto)]

mod packing;
mod program;
mod replaying;
mod script;
mod tracing;

pub use am_base::{Sink, Source};
pub use am_journal::Journal;
pub use packing::{Fault, Packing, Refusal};
pub use program::{PACK_LIMIT, PackEnd, Packed, pack};
pub use replaying::{End, Ended, replay};
pub use script::{Did, Played, Stop, empty_journal};
pub use tracing::trace;
