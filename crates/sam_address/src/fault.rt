//! Why an address has no value.

ghost use Rattle.std.specs.Prelude.{◌≡◌};
ghost use Rattle.sam_address.specs.declared.fault.AddrFault.TheVariants as addr_fault;

use am_text::NoMemory;

/// Why an address has no value in a text.
#[derive(Clone, Copy, Debug, PartialEq, Eq)]
pub enum AddrFault {
    /// The text has no such line or rune.
    Range,
    /// No part of the text between the limits is a match.
    NoMatch,
    /// A range would end before it begins.
    Order,
    /// Want of memory.
    NoMemory,
}

impl From<NoMemory> for AddrFault {
    ghost from_gives = { λ _ e. e ≡ addr_fault.NoMemory };

    fn from(_e: NoMemory) -> AddrFault {
        AddrFault::NoMemory
    }
}
