//! Plumb messages, after plumb(6).
#![tactic(auto)]

mod begun;
mod laws;
mod limits;
mod memo;
mod message;
mod names;
mod reading;
mod scanning;
mod texts;
mod unread;
mod writing;

pub use begun::Begun;
pub use laws::{
    answers_are_exact, attribute_lines_are_their_grammar, messages_are_read_again, reading_goes_on,
};
pub use limits::MAX_DATA;
pub use message::{Attr, Attrs, PlumbMsg, PlumbRead};
pub use reading::read_msg;
pub use scanning::read_attrs;
pub use writing::{attrs_text, can_spell, write_msg};
