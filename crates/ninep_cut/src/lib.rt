//! A stream of 9P messages, cut by their size fields.
//!
//! A message begins with its size in four bytes, little-endian, which counts these four too (section 5 of the Plan 9
//! manual). Here a message has 7 to 65,560 bytes.
#![tactic(auto)]

mod cut;
mod cutter;
mod laws;

pub use am_text::{Bytes, Items, NoMemory};
pub use cut::{Cut, cut_of, first_of};
pub use cutter::Cutter;
pub use laws::{answers_are_exact, cuts_are_longest, pieces_are_joined};
