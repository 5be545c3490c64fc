//! The windows of the editor: as they stand, by all that was done to them, and the changes that a step makes,
//! which can be taken back.
#![tactic(auto)]

mod change;
mod finding;
pub mod laws;
mod looks;
mod numbers;
mod pane;
mod places;
mod slots;
mod states;
mod undo;
mod windows;

pub use acme_tree::World;
pub use am_text::{Bytes, Items, NoMemory, Range, Rune, Runes};
pub use change::{Change, Changes, Setting};
pub use edit_log::{Edit, Edits};
pub use pane::Pane;
pub use win_text::Body;
pub use windows::Windows;
