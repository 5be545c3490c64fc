//! What the sides of a connection ask of the editor that they share: one journal, to which seats add events.
#![tactic(auto)]

mod ask;
mod counter;
mod seats;
mod told;

pub use ask::{Ask, Taken};
pub use counter::Counter;
pub use seats::Seats;
pub use told::Told;
