//! Commands of sam(1) over the body of a window: what one is to make of it, and how a fault is said.
#![tactic(auto)]

mod fault;
mod planning;

pub use edit_run::{Cmd, EditPlan};
pub use fault::{CommandFault, fault_line};
pub use planning::{Planned, window_plan};
