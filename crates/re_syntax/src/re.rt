//! The tree of an expression.

ghost use Rattle.std.specs.Prelude.{◌≡◌};
ghost use Rattle.re_syntax.specs.declared.re.ReFault.TheVariants as re_fault;

use am_text::{Items, NoMemory, Range, Rune};
use std::alloc::{AllocError, AllocFailed};

/// Ranges of runes, each by its first and its last.
pub type RuneSpans = Items<(Rune, Rune)>;

/// The ranges of the groups of a match, by their numbers.
pub type Groups = Items<Option<Range>>;

/// The tree of an expression, as regexp(6) has them.
///
/// Concatenations and alternations of more than two parts nest to the right. A group has its number, which
/// counts from 1 by the opening parentheses.
pub enum Re {
    /// One rune, this one.
    Lit(Rune),
    /// One rune, but no newline.
    Any,
    /// One rune inside one of the ranges, or with `not` outside all of them and no newline.
    Class { not: bool, spans: RuneSpans },
    /// The null text before the first rune of a line.
    Start,
    /// The null text at a newline or at the end of the text.
    End,
    /// One after the other.
    Cat(Box<Re>, Box<Re>),
    /// One or the other.
    Alt(Box<Re>, Box<Re>),
    /// Any number of pieces.
    Star(Box<Re>),
    /// One piece or more.
    Plus(Box<Re>),
    /// One piece or none.
    Opt(Box<Re>),
    /// A group with its number.
    Group(u32, Box<Re>),
}

// By a loop, so that a tree is let go by a stack that is as deep as its left sides are nested, and no deeper for a
// chain of repetitions or of parts that nest to the right.
impl Drop for Re {
    fn drop(mut self) {
        'nodes: loop {
            match self {
                Re::Lit(_) => return,
                Re::Any => return,
                Re::Class { not: _, spans: _ } => return,
                Re::Start => return,
                Re::End => return,
                Re::Cat(left, right) => {
                    drop(left);
                    self = Box::into_inner(right);
                }
                Re::Alt(left, right) => {
                    drop(left);
                    self = Box::into_inner(right);
                }
                Re::Star(part) => self = Box::into_inner(part),
                Re::Plus(part) => self = Box::into_inner(part),
                Re::Opt(part) => self = Box::into_inner(part),
                Re::Group(_, part) => self = Box::into_inner(part),
            }
        }
    }
}

/// Why a text is no expression.
#[derive(Clone, Copy, Debug, PartialEq, Eq)]
pub enum ReFault {
    /// No expression goes on at this place, or the text ends here and only stops short of one.
    Bad(usize),
    /// The tree has more than 2,048 nodes.
    Nodes,
    /// Want of memory.
    NoMemory,
}

impl From<NoMemory> for ReFault {
    ghost from_gives = { λ _ e. e ≡ re_fault.NoMemory };

    fn from(_e: NoMemory) -> ReFault {
        ReFault::NoMemory
    }
}

impl From<AllocError> for ReFault {
    ghost from_gives = { λ _ e. e ≡ re_fault.NoMemory };

    fn from(_e: AllocError) -> ReFault {
        ReFault::NoMemory
    }
}

impl<T: Drop> From<AllocFailed<T>> for ReFault {
    ghost from_gives = { λ _ e. e ≡ re_fault.NoMemory };

    fn from(_e: AllocFailed<T>) -> ReFault {
        ReFault::NoMemory
    }
}
