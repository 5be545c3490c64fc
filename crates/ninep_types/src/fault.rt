//! Why a message could not be read.

ghost use Rattle.std.specs.Prelude.{◌≡◌};
ghost use Rattle.ninep_types.specs.declared.fault.WireError.TheVariants.{NoMemory};

/// What is wrong with the bytes of a message: the first fault from left to right.
#[derive(Clone, Copy, Debug, PartialEq, Eq)]
pub enum WireFault {
    /// Fewer than 7 bytes are given, or another number of bytes than the size field says.
    Size,
    /// The type byte is of no message of this direction.
    Kind,
    /// A field passes the end of the bytes.
    Short,
    /// Bytes are left over after the last field.
    Long,
    /// A string isn't UTF-8 or has a NUL.
    Text,
    /// A walk has more than 16 names or qids.
    Names,
}

/// Why a message could not be read: the bytes are at fault, or memory ran out.
#[derive(Clone, Copy, Debug, PartialEq, Eq)]
pub enum WireError {
    Fault(WireFault),
    NoMemory,
}

impl From<am_text::NoMemory> for WireError {
    ghost from_gives = { λ _ e. e ≡ NoMemory };

    fn from(_e: am_text::NoMemory) -> WireError {
        WireError::NoMemory
    }
}
