//! What a step does to the files `log` and `jobs`: openings, reads that are answered or wait, answers to requests, and
//! what ends openings and waiting reads.
#![tactic(auto)]

mod answering;
mod asking;
mod closing;
mod laws;
mod serving;

pub use acme_watch::{AnswerFault, Watch, WatchFile, WatchRead};
pub use am_text::{Bytes, Items, NoMemory};
pub use answering::{RequestAnswer, answer_refusal, write_answer};
pub use asking::{ReadAt, open_watch, read_watch};
pub use closing::{cancel_watch_read, free_watch_fids, free_watch_openings};
pub use laws::{begins_sound_and_idle, stays_sound};
pub use serving::serve_watch;
