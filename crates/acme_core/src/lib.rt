//! The editor of one thread: it takes one event at a time and keeps a journal of them.
#![tactic(auto)]

mod editor;
pub mod laws;
mod planning;

pub use am_counter::Ask;
pub use am_journal::{
    ConnView, ConnViews, Event, Events, Format, ItemView, ItemViews, Journal, Refused, Side, Spot,
    View, Why, WindowView, WindowViews,
};
pub use am_text::{Bytes, Items, NoMemory, Range, Rune, Runes};
pub use core_outputs::Reply;
pub use editor::{Core, Plan};
pub use ninep_types::{RBody, RMsg, TBody, TMsg};
