//! Serving connections, one for each slot of a host, and a script beside them, over any journal whose seats can be
//! split.
#![tactic(auto)]

mod binding;
mod room;
mod service;
mod serving;
mod slot;
mod slots;
mod working;

pub use service::{Service, Site};
pub use slot::{HostSlot, HostSlots, Objects, Slot, Slots};
pub use slots::serve_slots;
