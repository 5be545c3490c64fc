//! The texts of a window's files `tag`, `ctl` and `index`, after acme(4).
#![tactic(auto)]

mod columns;
mod limits;
mod message;
mod parsing;
mod paths;
mod tags;

pub use columns::{ctl_text, index_line};
pub use limits::TAG_RUNES;
pub use message::{CtlFault, CtlMsg};
pub use parsing::parse_ctl;
pub use paths::{ERRORS, directory, errors_name};
pub use tags::{Shown, Tag, tag_text};
