//! The words after the program's name.
#![tactic(auto)]

mod asked;
mod commands;
mod reading;
mod table;

pub use asked::{Asked, Tree};
pub use reading::read_words;
