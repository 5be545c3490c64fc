//! What the editor asks its user's programs to do.

use crate::items::{Items, Runes};

/// What is asked for.
#[derive(Clone, Copy, Debug, PartialEq, Eq)]
pub enum JobKind {
    /// To run a command, as it was executed in a window.
    Run,
    /// To run a command over the input, which its output is to replace (`|`).
    Pipe,
    /// To run a command whose output is wanted (`<`).
    From,
    /// To run a command over the input (`>`).
    To,
    /// To save the input in the file that the command names.
    Save,
    /// To start a command that serves a port of the plumber.
    Start,
}

/// A request: what is asked for, the number of the window that asks, the directory in which the command is to run, the
/// command, and the text that it is given.
#[derive(Drop)]
pub struct Job {
    pub kind: JobKind,
    pub window: u32,
    pub dir: Runes,
    pub command: Runes,
    pub input: Runes,
}

/// A list of requests.
pub type Jobs = Items<Job>;

/// What became of a request, by the file `jobs`. Entries are those of the journal.
#[derive(Clone, Copy, Debug, PartialEq, Eq)]
pub enum JobLife {
    /// No opening has read it.
    Waiting,
    /// An opening read it, at this entry.
    Taken {
        opening: u32,
        at: u64,
    },
    /// That opening answered it at a later entry: it was done, or it failed.
    Answered {
        opening: u32,
        at: u64,
        answer: u64,
        good: bool,
    },
    /// That opening closed before it answered.
    Lost {
        opening: u32,
        at: u64,
        close: u64,
    },
}

/// What became of each request, by number.
pub type JobLives = Items<JobLife>;
