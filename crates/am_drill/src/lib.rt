//! The drill: a long run of the editor over events that are made by rule, and the summary of it.
#![tactic(auto)]

mod counting;
mod driving;
mod events;
mod laws;
mod numbers;
mod runner;
mod summary;

pub use am_base::Sink;
pub use am_journal::Journal;
pub use driving::{DrillEnd, Drilled, drill};
pub use laws::drill_is_played;
