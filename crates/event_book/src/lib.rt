//! The items of all windows with their lives, the openings of event files, and the reads that wait.
#![tactic(auto)]

mod book;
mod event_file;
mod file_table;
mod finding;
mod laws;
mod lives;
mod owners;
mod tables;

pub use am_journal::{ItemView, ItemViews};
pub use book::Book;
pub use finding::BackFault;
pub use laws::{
    answers_append, begins_with_nothing, dropped_at_close, ended_stay, flushed_takes_none,
    nothing_else_gives, taken_by_answers, written_once,
};
