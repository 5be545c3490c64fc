//! Limits of a body.

/// The most runes that a body may have.
pub const BODY_RUNES: usize = 16_777_216;
