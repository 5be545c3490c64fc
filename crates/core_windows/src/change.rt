//! What is done to the windows.

use am_text::{Items, Range, Runes};
use edit_log::Edits;

/// A part of a window that is set, mostly by a control message (acme(4)).
#[derive(Drop)]
pub enum Setting {
    /// The address becomes dot.
    AddrToDot,
    /// Dot becomes the address.
    DotToAddr,
    /// The limit becomes the address.
    LimitToAddr,
    /// There is no limit.
    NoLimit,
    /// Dot becomes this range.
    Dot(Range),
    /// The address becomes this range.
    Addr(Range),
    /// The window counts as unmodified.
    Clean,
    /// The window counts as modified.
    Dirty,
    /// The right part of the tag is removed.
    ClearTag,
    /// Groups of edits are automatic (true), or one group begins.
    Mark(bool),
    /// The name becomes this.
    Name(Runes),
}

/// One thing that is done to the windows, each known by its number.
#[derive(Drop)]
pub enum Change {
    /// A window of this name is made, with an empty body.
    Makes { name: Runes },
    /// A window is deleted.
    Deletes { window: u32 },
    /// The body of a window is edited, from the first edit to the last. Dot and the address move with the edits.
    Edits { window: u32, edits: Edits },
    /// A text is put at the end of the right part of a window's tag.
    Adds { window: u32, text: Runes },
    /// A part of a window is set.
    Sets { window: u32, setting: Setting },
    /// The last group of edits of a window is taken back, if there is one.
    Undoes { window: u32 },
    /// The first undone group of a window is made again, if there is one.
    Redoes { window: u32 },
}

/// Changes, done from first to last.
pub type Changes = Items<Change>;
