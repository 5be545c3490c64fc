//! What programs may follow of the editor: the lines of the file `log`, and the requests that the file `jobs` has.
#![tactic(auto)]

mod jobs;
mod laws;
mod lines;
mod log;
mod reads;
mod types;
mod watch;

pub use am_text::JobLife;
pub use laws::{
    answers_are_read_again, answers_are_to_what_was_taken, lives_go_on, openings_are_numbered,
    openings_get_each_line, openings_get_what_they_took, requests_stay_in_order,
};
pub use types::{AnswerFault, Op, OpeningCounts, WatchFile, WatchRead};
pub use watch::Watch;
