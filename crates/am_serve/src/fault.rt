//! Why a line of a transcript or of a script is refused.

ghost use Rattle.std.specs.Prelude.{◌≡◌};
ghost use Rattle.am_serve.specs.Faults.{fault_word};

use am_journal::{Why, word};

/// Why a line is refused.
#[derive(Clone, Copy, Debug, PartialEq, Eq)]
pub enum LineFault {
    /// It isn't in the grammar.
    Line,
    /// It awaits an event file that isn't open, and all connections have ended. No line of a transcript does.
    Alone,
    /// Its event isn't enabled.
    NotEnabled(Why),
}

/// The word for it in the line `refused`.
pub fn fault_word(why: LineFault) -> &'static [u8]
    ensures { result.now ≡ fault_word why }
{
    match why {
        LineFault::Line => b"line",
        LineFault::Alone => b"alone",
        LineFault::NotEnabled(why) => word(why),
    }
}
