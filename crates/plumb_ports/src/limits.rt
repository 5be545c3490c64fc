//! Limits of ports.

/// The most ports.
pub const MAX_PORTS: usize = 65_536;

/// The most messages that a port without openings keeps.
pub(crate) const KEPT_MESSAGES: usize = 64;
