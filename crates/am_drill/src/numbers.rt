//! The numbers of a drill, of which each is drawn by a seed that follows from the one before.

ghost use Rattle.std.specs.Prelude.{◌≡◌, ◌<◌, ◌^◌};
ghost use Rattle.am_drill.specs.Drill.{next_seed, drawn, letter, turn_of};

/// The seed before the first round.
pub(crate) const FIRST_SEED: u64 = 1;

/// What a round does.
#[derive(Clone, Copy, Debug, PartialEq, Eq)]
pub enum Turn {
    /// A letter is written to the body.
    Write,
    /// The event file is read, and the read is flushed.
    Events,
    /// A letter is typed into the body.
    Key,
    /// The body is read.
    Read,
}

/// The seed of the next round.
pub(crate) fn next_seed(seed: u64) -> u64
    requires { seed < 2 ^ 31 }
    ensures exact { result ≡ next_seed seed }
    ensures small { result < 2 ^ 31 }
{
    (seed * 1103515245 + 12345) % (1 << 31)
}

/// The number that a seed draws.
pub(crate) fn drawn(seed: u64) -> u64
    ensures { result ≡ drawn seed }
{
    seed / 65536
}

/// The letter of a number.
pub(crate) fn letter(number: u64) -> u8
    ensures { result ≡ letter number }
{
    b'a' + ((number / 4) % 26) as u8
}

/// What a round does that draws this number.
pub(crate) fn turn_of(number: u64) -> Turn
    ensures { result ≡ turn_of number }
{
    if number % 4 == 0 {
        return Turn::Write;
    }
    if number % 4 == 1 {
        return Turn::Events;
    }
    if number % 4 == 2 {
        return Turn::Key;
    }
    Turn::Read
}
