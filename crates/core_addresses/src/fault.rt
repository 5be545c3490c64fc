//! Why a range isn't named, or isn't replaced.

ghost use Rattle.std.specs.Prelude.{◌≡◌};
ghost use Rattle.core_addresses.specs.declared.fault.RangeFault.TheVariants as fault;

use am_text::NoMemory;

/// Why a write to `addr`, `data` or `xdata` isn't done.
#[derive(Clone, Copy, Debug, PartialEq, Eq)]
pub enum RangeFault {
    /// What is written to `addr` is no address inside the limits.
    BadAddress,
    /// The address names a rune or a line that isn't there.
    OutOfRange,
    /// An expression of the address has no match.
    NoMatch,
    /// The right side of `,` or `;` ends before the left one begins.
    OutOfOrder,
    /// The bytes end in an unfinished rune.
    PartialRune,
    /// The body would have more than 16,777,216 runes.
    TooLong,
    /// Want of memory.
    NoMemory,
}

impl From<NoMemory> for RangeFault {
    ghost from_gives = { λ _ e. e ≡ fault.NoMemory };

    fn from(_e: NoMemory) -> RangeFault {
        RangeFault::NoMemory
    }
}
