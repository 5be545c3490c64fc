//! Limits of openings.

/// The most openings that are ever made over all queues of a kind, whose numbers begin with 1.
pub const MAX_OPENINGS: usize = 0xFFFF_FFFF;
