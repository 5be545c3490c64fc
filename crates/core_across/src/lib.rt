//! Edit: a text as a command of sam(1) over the body of a window or over those of many, or as one over windows and
//! files, as deeds over the scene.
#![tactic(auto)]

mod addressed;
mod doing;
mod dropping;
mod entering;
mod file_commands;
mod file_faults;
pub mod laws;
mod live;
mod making;
mod planning;
mod reading;
mod saying;
mod storing;

pub use doing::edit;
