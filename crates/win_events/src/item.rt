//! Events of windows, after acme(4).

use am_text::{Range, Runes};

/// What an event comes from.
#[derive(Clone, Copy, Debug, PartialEq, Eq)]
pub enum Origin {
    /// A write to the body or the tag.
    E,
    /// A write to another file, or an action that was written back.
    F,
    /// The keyboard.
    K,
    /// The mouse, and what its actions do.
    M,
}

/// The type of an event: what was done, and whether in the body or in the tag.
#[derive(Clone, Copy, Debug, PartialEq, Eq)]
pub enum Sort {
    BodyDel,
    TagDel,
    BodyIns,
    TagIns,
    BodyLook,
    TagLook,
    BodyExec,
    TagExec,
}

/// One event of a window.
///
/// Ranges count runes. `expanded` is there where the range is null: the range and the text that
/// the click was expanded to. `argument` is there where the click had one: its text and its place.
#[derive(Drop)]
pub struct Item {
    pub origin: Origin,
    pub sort: Sort,
    pub range: Range,
    pub flag: u32,
    pub text: Runes,
    pub expanded: Option<(Range, Runes)>,
    pub argument: Option<(Runes, Runes)>,
}

/// What became of an item. An opening is one opening of the window's event file, and the other
/// numbers are those of the journal's entries.
#[derive(Clone, Copy, Debug, PartialEq, Eq)]
pub enum Life {
    /// No read has taken it.
    Pending,
    /// A read on this opening took it at this entry.
    Taken { opening: u32, at: u64 },
    /// It was taken, and written back at the entry `back`.
    Back { opening: u32, at: u64, back: u64 },
    /// The window's event file was closed at this entry.
    Dropped { at: u64 },
}

/// An event message that is written back.
#[derive(Clone, Copy, Debug, PartialEq, Eq)]
pub struct BackMsg {
    pub origin: Origin,
    pub sort: Sort,
    pub range: Range,
}
