//! Sets of the letters of an expression.

ghost use Rattle.std.specs.Prelude.{◌≡◌, ◌<◌, ◌==◌, ◌^◌, ℕ, false, bit_and, bit_or, IfSome, IfNone, IsTrue};
ghost use Rattle.re_sets.specs.Words.{on};
ghost use Rattle.re_sets.specs.Tables.{take_away, meet};
ghost use Rattle.re_machine.specs.Sets.{HasOne, IsWithout};

/// A set of the letters of an expression by their numbers, which contracts see as the bits of a number.
pub trait LetterSet: Copy {
    ghost SIZE: { ℕ };

    ghost bits: { Self → ℕ };

    /// The letters have numbers below this one.
    const SIZE: usize;

    /// The set without letters.
    fn none() -> Self
        ensures { bits result ≡ 0 };

    /// The set of one letter.
    fn one(n: usize) -> Self
        requires { n < SIZE }
        ensures { bits result ≡ 2 ^ n };

    /// Whether it has no letter.
    fn is_none(self) -> bool
        ensures is { result ≡ (bits self == 0) }
        ensures some { result ≡ false → HasOne SIZE (bits self) };

    /// The letters of either set.
    fn union(self, other: Self) -> Self
        ensures { bits result ≡ bit_or (bits self) (bits other) };

    /// The letters of both sets.
    fn both(self, other: Self) -> Self
        ensures { bits result ≡ bit_and (bits self) (bits other) };

    /// The letters that aren't in the other set.
    fn minus(self, other: Self) -> Self
        ensures { bits result ≡ take_away (bits self) (bits other) };

    /// The letter of the lowest number.
    fn lowest(self) -> Option<usize>
        ensures some { IfSome result (λ n. (n < SIZE) × IsTrue (on (bits self) n)) }
        ensures none { IfNone result (bits self ≡ 0) };

    /// The set without one of its letters.
    fn without(self, n: usize) -> Self
        requires inside { n < SIZE }
        requires has { IsTrue (on (bits self) n) }
        ensures { IsWithout (bits self) n (bits result) };
}

impl LetterSet for u64 {
    ghost SIZE = { 64 };

    ghost bits = { λ word. word };

    const SIZE: usize = 64;

    fn none() -> u64 {
        0
    }

    fn one(n: usize) -> u64 {
        1 << n
    }

    fn is_none(self) -> bool {
        self == 0
    }

    fn union(self, other: u64) -> u64 {
        self | other
    }

    fn both(self, other: u64) -> u64 {
        self & other
    }

    fn minus(self, other: u64) -> u64 {
        self ^ (self & other)
    }

    fn lowest(self) -> Option<usize> {
        if self == 0 {
            None
        } else {
            Some(self.trailing_zeros() as usize)
        }
    }

    fn without(self, n: usize) -> u64 {
        self & !(1 << n)
    }
}

/// Whether two sets have a letter in common.
pub fn meets<S: LetterSet>(x: S, y: S) -> bool
    ensures is { result ≡ meet S.SIZE (S.bits x) (S.bits y) }
    ensures none { result ≡ false → bit_and (S.bits x) (S.bits y) ≡ 0 }
{
    !x.both(y).is_none()
}
