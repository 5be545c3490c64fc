//! Serving: the slots of a host and a script at one desk, and what is written at the end.
#![tactic(auto)]

mod ending;
mod served;
mod serving;
mod texts;
mod writing;

pub use served::{Served, ServedEnd, ServedList};
pub use serving::{HostServing, serve};
pub use writing::{ServeEnd, Serving};
