//! Why a write to `send` is refused.

use core_plumb::PlumbRefusal;

/// Why a write to `send` is refused.
#[derive(Clone, Copy, Debug, PartialEq, Eq)]
pub enum SendRefusal {
    /// The bytes are no plumb message, and begin none.
    BadPlumbMessage,
    /// A message can't be plumbed.
    Plumb(PlumbRefusal),
}
