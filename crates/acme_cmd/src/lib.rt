//! What the texts of Exec and Look are read as.
#![tactic(auto)]

mod blanks;
mod command;
mod expansion;
mod names;
mod paths;
mod reading;

pub use command::{Builtin, Command};
pub use expansion::{Click, expand};
pub use names::whole;
pub use paths::is_path;
pub use reading::classify;
