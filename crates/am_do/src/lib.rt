//! Doing lines over a connection: how the lines of `acmefs do PATH TREE` are written, and what it does.
//!
//! `specs/Talks` says what is sent and written, as a function of the lines and of the replies that come.
#![tactic(auto)]

mod answers;
mod asking;
mod beginning;
mod doing;
mod fields;
mod line;
mod names;
mod opening;
mod reading;
mod running;
mod stop;

pub use doing::{Done, do_lines};
pub use line::{DoLine, DoLines};
pub use reading::{LinesFault, read_do_line, read_do_lines};
pub use running::{DoEnd, Doing, HostDoing, do_path};
pub use stop::Stop;
