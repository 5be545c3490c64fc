//! What a text that is executed asks for.

use am_text::{JobKind, Range};

/// A built-in command of acme(1).
#[derive(Clone, Copy, Debug, PartialEq, Eq)]
pub enum Builtin {
    Cut,
    Del,
    Delete,
    Edit,
    Get,
    Look,
    New,
    Paste,
    Put,
    Redo,
    Snarf,
    Undo,
    /// A command on what this editor doesn't have, as columns and fonts. It does nothing.
    Idle,
}

/// What a text that is executed asks for.
#[derive(Clone, Copy, Debug, PartialEq, Eq)]
pub enum Command {
    /// A built-in command, and the range of its argument in the text.
    Builtin(Builtin, Range),
    /// A request of this kind, and the range of its command in the text.
    Pipe(JobKind, Range),
    /// A request to run the whole text.
    External,
}
