//! Limits of a message.

/// The most bytes of data that a message has.
pub const MAX_DATA: usize = 1_048_576;
