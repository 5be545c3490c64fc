//! The editor that threads share: a journal to which each seat adds events, each in a turn of its own.
#![tactic(auto)]

mod counting;
mod desk;
mod serving;
mod settled;

pub use acme_core::{Core, Event, Format, NoMemory, Refused, Why};
pub use am_counter::{Ask, Counter, Taken, Told};
pub use am_text::Bytes;
pub use desk::{Desk, DeskSeat};
pub use serving::{ServingDesk, ServingSeat};
