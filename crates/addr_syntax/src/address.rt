//! The tree of an address.

ghost use Rattle.std.specs.Prelude.{◌≡◌};
ghost use Rattle.addr_syntax.specs.declared.address.SynFault.TheVariants as syn_fault;

use am_text::NoMemory;
use re_syntax::Re;
use std::alloc::{AllocError, AllocFailed};

/// The tree of an address, as sam(1) has them.
///
/// A side that is `None` was not written: left of `+` or `-` it means dot and right of them the line number 1,
/// left of `,` or `;` it means the beginning of the text and right of them its end.
#[derive(Drop)]
pub enum Addr {
    /// `.`, dot.
    Here,
    /// `0`, the null range before the first rune.
    Zero,
    /// `$`, the null range after the last rune.
    Last,
    /// `#n`, the null range before the rune n.
    Char(u64),
    /// `n`, the line n with its newline.
    Line(u64),
    /// `/re/`, a match searched for forward.
    Fore(Re),
    /// `?re?`, a match searched for backward.
    Back(Re),
    /// `a+b`, or two parts without an operator between them.
    Plus(Option<Box<Addr>>, Option<Box<Addr>>),
    /// `a-b`.
    Minus(Option<Box<Addr>>, Option<Box<Addr>>),
    /// `a,b`, from the start of a to the end of b.
    Comma(Option<Box<Addr>>, Option<Box<Addr>>),
    /// `a;b`, the same with dot at a while b is valued.
    Semi(Option<Box<Addr>>, Option<Box<Addr>>),
}

/// What is built of a text that may pass a limit: past one nothing is.
#[derive(Drop)]
pub enum Limited<T> {
    Whole(T),
    /// An address has more than 1,024 of `+`, `-`, `,` and `;`.
    Deep,
    /// An expression has more than 2,048 nodes.
    Large,
}

/// Why a text is no address.
#[derive(Clone, Copy, Debug, PartialEq, Eq)]
pub enum SynFault {
    /// No address goes on at this place, or the text ends here and only stops short of one.
    Bad(usize),
    /// An expression has more than 2,048 nodes.
    Nodes,
    /// There are more than 1,024 of `+`, `-`, `,` and `;`, each `+` that isn't written included.
    Deep,
    /// Want of memory.
    NoMemory,
}

impl From<NoMemory> for SynFault {
    ghost from_gives = { λ _ e. e ≡ syn_fault.NoMemory };

    fn from(_e: NoMemory) -> SynFault {
        SynFault::NoMemory
    }
}

impl From<AllocError> for SynFault {
    ghost from_gives = { λ _ e. e ≡ syn_fault.NoMemory };

    fn from(_e: AllocError) -> SynFault {
        SynFault::NoMemory
    }
}

impl<T: Drop> From<AllocFailed<T>> for SynFault {
    ghost from_gives = { λ _ e. e ≡ syn_fault.NoMemory };

    fn from(_e: AllocFailed<T>) -> SynFault {
        SynFault::NoMemory
    }
}
