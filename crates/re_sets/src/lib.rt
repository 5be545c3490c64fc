//! The letters of an expression as sets, and what a search by rows of such sets finds.
#![tactic(auto)]

mod laws;

pub use laws::{rows_search, sets_follow_spans, spans_are_paths};
