//! The body of a window: a text, the ranges that move with its edits, and its undo groups.
#![tactic(auto)]

mod body;
mod groups;
pub mod laws;
mod limits;
mod plans;
mod ranges;
mod types;

pub use body::Body;
pub use limits::BODY_RUNES;
pub use types::{Marks, PlanKind, Ready, TextPlan, Trace, TraceKind};
