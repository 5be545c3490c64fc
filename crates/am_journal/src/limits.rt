//! Limits of a journal.

/// How many connections there are: they have the numbers below.
pub const CONNECTIONS: usize = 64;
