//! Control messages, after acme(4).

ghost use Rattle.std.specs.Prelude.{◌≡◌};
ghost use Rattle.win_ctl.specs.declared.message.CtlFault.TheVariants.{NoMemory};

use am_text::Runes;

/// A message that is written to a window's `ctl`.
#[derive(Drop)]
pub enum CtlMsg {
    /// `addr=dot`: the address becomes dot.
    AddrDot,
    /// `clean`: the window counts as unmodified.
    Clean,
    /// `dirty`: the window counts as modified.
    Dirty,
    /// `cleartag`: the right part of the tag is removed.
    ClearTag,
    /// `del`: the window is deleted unless it is modified.
    Del,
    /// `delete`: the window is deleted.
    Delete,
    /// `dot=addr`: dot becomes the address.
    DotAddr,
    /// A message that changes nothing: `dump`, `dumpdir`, `scroll`, `noscroll`, `show`.
    Idle,
    /// `get`: the body is read from the file of the window's name.
    Get,
    /// `limit=addr`: the limit becomes the address.
    LimitAddr,
    /// `mark`: groups of edits are automatic again.
    Mark,
    /// `nomark`: one group of edits begins.
    NoMark,
    /// `name N`: the window's name becomes N.
    Name(Runes),
    /// `put`: the body is written to the file of the window's name.
    Put,
}

/// Why a line is no control message.
#[derive(Clone, Copy, Debug, PartialEq, Eq)]
pub enum CtlFault {
    /// There is no such message.
    Unknown,
    /// The name is empty, or has a rune of at most 0x20, the blank.
    BadName,
    /// Memory ran out.
    NoMemory,
}

impl From<am_text::NoMemory> for CtlFault {
    ghost from_gives = { λ _ e. e ≡ NoMemory };

    fn from(_e: am_text::NoMemory) -> CtlFault {
        CtlFault::NoMemory
    }
}
