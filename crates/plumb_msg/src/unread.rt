//! Why no message could be read.

ghost use Rattle.std.specs.Prelude.{◌≡◌};
ghost use Rattle.plumb_msg.specs.declared.unread.Stop.TheVariants.{NoMemory};

/// Why a part of a message could not be read.
#[derive(Clone, Copy, Debug, PartialEq, Eq)]
pub enum Unread {
    /// The bytes end within it.
    More,
    /// No bytes that go on from these have it there.
    Bad,
}

/// Why reading stops: the bytes, or want of memory.
#[derive(Clone, Copy, Debug, PartialEq, Eq)]
pub enum Stop {
    Unread(Unread),
    NoMemory,
}

impl From<am_text::NoMemory> for Stop {
    ghost from_gives = { λ _ e. e ≡ NoMemory };

    fn from(_e: am_text::NoMemory) -> Stop {
        Stop::NoMemory
    }
}
