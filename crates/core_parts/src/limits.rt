//! Limits of connections.

/// How many unsent replies a connection may have; while it has so many, none of its messages comes.
pub const REPLIES: usize = 256;
