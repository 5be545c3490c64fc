//! The events of a window, and how they are spelled.
#![tactic(auto)]

mod back;
mod item;
mod spelling;

pub use back::read_back;
pub use item::{BackMsg, Item, Life, Origin, Sort};
pub use spelling::spell;
