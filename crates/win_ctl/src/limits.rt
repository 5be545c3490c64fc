//! Limits of a tag.

/// The most runes that the right part of a tag may have.
pub const TAG_RUNES: usize = 65_536;
