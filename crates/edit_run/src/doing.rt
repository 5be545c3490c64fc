//! What commands are done over, and what they have done.

use crate::effects::Effects;
use crate::line_cursor::LineCursor;
use crate::types::Site;
use std::alloc::Global;

/// What commands are done over: a text, and the window where it stands.
#[derive(Drop)]
pub struct Over<'a, T> {
    pub alloc: Global,
    pub text: &'a T,
    pub site: &'a Site,
}

/// What the commands that were done want, and where in the text lines were counted last.
#[derive(Drop)]
pub struct Doing {
    pub effects: Effects,
    pub cursor: LineCursor,
}
