//! What is written to the plumber's files. `rules`: sets of rules that are added, and the ports that they name. `send`:
//! messages, one after another, each of which is plumbed.
#![tactic(auto)]

mod adding;
mod laws;
mod new_names;
mod refusal;
mod send_laws;
mod send_refusal;
mod sending;
mod writing;

pub use am_text::NoMemory;
pub use core_plumb::PlumbRefusal;
pub use core_scene::{Entry, Scene};
pub use laws::{refused_adds_nothing, what_is_written_is_kept};
pub use refusal::RulesRefusal;
pub use send_laws::{held_bytes_are_no_message, texts_are_cut_into_messages};
pub use send_refusal::SendRefusal;
pub use sending::{Sent, send};
pub use writing::{add_rest, clear_rules, held_after, write_rules};
