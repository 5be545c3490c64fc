//! Where a command is done, and what it makes.

use am_text::{Jobs, Range, Runes};
use edit_log::Edits;

/// Where a command is done: the number and the name of the window, and the dot of its body.
#[derive(Drop)]
pub struct Site {
    pub window: u32,
    pub name: Runes,
    pub dot: Range,
}

/// What a command makes of a window's body: the edits, to be done from first to last, and dot after them; what is to be
/// printed, and what the user's programs are asked to do.
#[derive(Drop)]
pub struct EditPlan {
    pub edits: Edits,
    pub dot: Range,
    pub prints: Runes,
    pub jobs: Jobs,
}
