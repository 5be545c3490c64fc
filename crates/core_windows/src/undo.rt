//! What takes a change back.

use crate::pane::Pane;
use am_text::{Roomy, Rune, Runes};
use win_text::Trace;

/// What takes a change of a window's name or tag back.
#[derive(Drop)]
pub enum TagBack {
    /// Neither has changed.
    Nothing,
    /// The name was this.
    Rename(Runes),
    /// The right part of the tag was this.
    Retag(Roomy<Rune>),
    /// The right part of the tag had so many runes.
    Shorten(usize),
}

/// What takes a change of one window back: what was done to its body, whether it was modified, and what its tag was.
#[derive(Drop)]
pub struct Back {
    pub trace: Trace,
    pub modified: bool,
    pub tag: TagBack,
}

/// What takes one change back.
#[derive(Drop)]
pub enum Undo {
    /// The last window was made: it goes.
    Unmake,
    /// The window that was deleted stands at its place again.
    Revive(usize, Pane),
    /// What was done to the window at this place is taken back.
    Restore(usize, Back),
}
