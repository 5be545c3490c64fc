//! Why a plumb message isn't delivered.

/// Why a plumb message isn't delivered.
#[derive(Clone, Copy, Debug, PartialEq, Eq)]
pub enum PlumbRefusal {
    /// No set of rules holds, and the message names no port; or the message can't be written.
    NoMatchingRule,
    /// The port has no opening, and no command is to be started; or there is no such port.
    PortNotOpen,
    /// The port has no opening, and keeps as many messages as it may.
    PortQueueFull,
}
