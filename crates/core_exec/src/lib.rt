//! Exec and Look: what a click on a window's text stands for, the items that it makes while the window's event file is
//! open, and what it does where it isn't (acme(1), acme(4)).
#![tactic(auto)]

mod acting;
mod builtins;
mod click;
mod faults;
mod items;
mod looking;
mod requests;
mod running;

pub use acting::{act_on, exec_at, look_at};
pub use am_journal::{Side, Spot};
pub use click::Clicked;
