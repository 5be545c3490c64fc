//! Edit over many windows and files: its commands, a reader of them, and what a command makes of windows.
#![tactic(auto)]

mod command;
mod crossing;
pub mod laws;
mod letter;
mod names;
mod reader;
mod scan;
mod windows;

pub use command::FilesCmd;
pub use crossing::{AcrossFault, Plans, across};
pub use edit_parts::{Addr, Cmd, SynFault};
pub use re_spans::Re;
pub use reader::parse_files;
pub use windows::Windows;
