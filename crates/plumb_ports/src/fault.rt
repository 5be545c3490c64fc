//! Why a message isn't delivered.

ghost use Rattle.std.specs.Prelude.{◌≡◌};
ghost use Rattle.plumb_ports.specs.declared.fault.PortFault.TheVariants as fault;

use am_text::NoMemory;

/// Why a message isn't delivered.
#[derive(Clone, Copy, Debug, PartialEq, Eq)]
pub enum PortFault {
    /// No port was ever added under the name.
    NoPort,
    /// The port has no opening, and the message isn't to be kept.
    Closed,
    /// The port has no opening, and keeps 64 messages already.
    Full,
    /// Want of memory.
    NoMemory,
}

impl From<NoMemory> for PortFault {
    ghost from_gives = { λ _ r. r ≡ fault.NoMemory };

    fn from(_e: NoMemory) -> PortFault {
        PortFault::NoMemory
    }
}
