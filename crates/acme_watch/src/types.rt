//! What happens to windows, openings, and reads that wait.

use wait_queue::Asker;

/// What happens to a window.
#[derive(Clone, Copy, Debug, PartialEq, Eq)]
pub enum Op {
    New,
    Del,
    Name,
    Get,
    Put,
}

/// How many openings of each file were ever made.
#[derive(Clone, Copy, Debug, PartialEq, Eq)]
pub struct OpeningCounts {
    pub log: u32,
    pub jobs: u32,
}

/// Why an answer to a request is refused: it is none, the request wasn't taken by this opening, or it was answered.
#[derive(Clone, Copy, Debug, PartialEq, Eq)]
pub enum AnswerFault {
    BadAnswer,
    NoRequest,
    Answered,
}

/// One of the two files.
#[derive(Clone, Copy, Debug, PartialEq, Eq)]
pub enum WatchFile {
    Log,
    Jobs,
}

/// A read that waits on one of the files.
#[derive(Clone, Copy, Debug, PartialEq, Eq)]
pub struct WatchRead {
    pub file: WatchFile,
    pub asker: Asker,
}
