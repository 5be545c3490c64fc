//! What holds of every journal of the editor.
#![tactic(auto)]

mod journals;
mod laws;

pub use journals::journals_are_lawful;
pub use laws::{
    clicks_are_told_where_the_event_file_is_open, ended_connections_get_nothing_more,
    executed_moves_are_moves, flushed_reads_are_not_answered, items_are_written_back_once,
    no_waiting_read_can_be_answered, refusals_follow_from_the_state, replies_are_sent_or_unsent,
};
