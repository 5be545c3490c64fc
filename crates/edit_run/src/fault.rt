//! Why a command can't be done.

ghost use Rattle.std.specs.Prelude.{◌≡◌};
ghost use Rattle.edit_run.specs.declared.fault.EditFault.TheVariants as edit_fault;
ghost use Rattle.edit_run.specs.Faults.{of_address};

use am_text::NoMemory;
use sam_address::AddrFault;

/// Why a command can't be done over a text.
#[derive(Clone, Copy, Debug, PartialEq, Eq)]
pub enum EditFault {
    /// The text has no such line or rune.
    Range,
    /// No part of the text is a match of an address.
    NoMatch,
    /// An address would end before it begins.
    Order,
    /// A change begins before the end of the one before it.
    Sequence,
    /// Text would be moved into itself.
    Overlap,
    /// Want of memory.
    NoMemory,
}

impl From<NoMemory> for EditFault {
    ghost from_gives = { λ _ e. e ≡ edit_fault.NoMemory };

    fn from(_e: NoMemory) -> EditFault {
        EditFault::NoMemory
    }
}

impl From<AddrFault> for EditFault {
    ghost from_gives = { λ fault e. e ≡ of_address fault };

    fn from(fault: AddrFault) -> EditFault {
        match fault {
            AddrFault::Range => EditFault::Range,
            AddrFault::NoMatch => EditFault::NoMatch,
            AddrFault::Order => EditFault::Order,
            AddrFault::NoMemory => EditFault::NoMemory,
        }
    }
}
