//! Why a line was not read.

ghost use Rattle.std.specs.Prelude.{◌≡◌};
ghost use Rattle.ninep_trace.specs.declared.unread.Unread.TheVariants.{NoMemory};

/// Why bytes were not read as words.
#[derive(Clone, Copy, Debug, PartialEq, Eq)]
pub enum Unread {
    /// They aren't in the grammar.
    NotWords,
    /// There is no memory for what they say.
    NoMemory,
}

impl From<am_text::NoMemory> for Unread {
    ghost from_gives = { λ _ e. e ≡ NoMemory };

    fn from(_e: am_text::NoMemory) -> Unread {
        Unread::NoMemory
    }
}
