//! Where a search looks.

use crate::way::Way;

/// Between which places a search looks, and which null match it leaves out.
#[derive(Clone, Copy)]
pub struct Bounds {
    pub low: usize,
    pub high: usize,
    pub no_null: Option<usize>,
}

/// Where a search is, and which way it goes.
#[derive(Clone, Copy)]
pub struct Cursor {
    pub way: Way,
    pub at: usize,
}
