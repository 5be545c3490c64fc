//! What the first rune of a piece says.

ghost use Rattle.std.specs.Prelude.{◌≡◌};
ghost use Rattle.edit_parts.specs.Kinds.{kind_of, other_kind};

use addr_syntax::begins_piece;
use am_text::{BAR, EQUALS, GREATER, LEFT_BRACE, LESS, NEWLINE, RIGHT_BRACE, Rune, SPACE};

/// `a`.
pub const LETTER_A: Rune = 0x61;

/// `c`.
pub const LETTER_C: Rune = 0x63;

/// `d`.
pub const LETTER_D: Rune = 0x64;

/// `g`.
pub const LETTER_G: Rune = 0x67;

/// `i`.
pub const LETTER_I: Rune = 0x69;

/// `m`.
pub const LETTER_M: Rune = 0x6D;

/// `p`.
pub const LETTER_P: Rune = 0x70;

/// `s`.
pub const LETTER_S: Rune = 0x73;

/// `t`.
pub const LETTER_T: Rune = 0x74;

/// `v`.
pub const LETTER_V: Rune = 0x76;

/// `x`.
pub const LETTER_X: Rune = 0x78;

/// `y`.
pub const LETTER_Y: Rune = 0x79;

/// A loop: over the matches, over what stands between them, and the tests for a match and for none.
#[derive(Clone, Copy)]
pub enum Loop {
    ForEach,
    ForBetween,
    Where,
    WhereNot,
}

/// Where `a`, `c` and `i` put their text.
#[derive(Clone, Copy)]
pub enum Place {
    Behind,
    Instead,
    Before,
}

/// Whether `m` or `t` is written.
#[derive(Clone, Copy)]
pub enum Way {
    Move,
    Copy,
}

/// A request to the outside: through the command, from it, to it.
#[derive(Clone, Copy)]
pub enum Request {
    Through,
    FromIt,
    ToIt,
}

/// A letter whose parts end its command.
#[derive(Clone, Copy)]
pub enum Letter {
    Puts(Place),
    Delete,
    Substitute,
    Sends(Way),
    Print,
    /// `=`, which may have a `#`.
    Equals,
    Asks(Request),
}

/// Which kind of piece begins with a rune.
#[derive(Clone, Copy)]
pub enum Kind {
    Blank,
    EndsLine,
    Address,
    Loops(Loop),
    Opens,
    Closes,
    Acts(Letter),
    /// None does.
    Other,
}

// What isn't a letter or sign of a command may begin an address.
fn other_kind(c: Rune) -> Kind
    ensures { result ≡ other_kind c }
{
    if begins_piece(c) {
        Kind::Address
    } else {
        Kind::Other
    }
}

/// Which kind of piece begins with the rune.
#[tactic(auto, unfolding(crate::specs::Kinds::kind_of))]
pub fn kind_of(c: Rune) -> Kind
    ensures { result ≡ kind_of c }
{
    match c {
        SPACE => Kind::Blank,
        NEWLINE => Kind::EndsLine,
        LEFT_BRACE => Kind::Opens,
        RIGHT_BRACE => Kind::Closes,
        LETTER_X => Kind::Loops(Loop::ForEach),
        LETTER_Y => Kind::Loops(Loop::ForBetween),
        LETTER_G => Kind::Loops(Loop::Where),
        LETTER_V => Kind::Loops(Loop::WhereNot),
        LETTER_A => Kind::Acts(Letter::Puts(Place::Behind)),
        LETTER_C => Kind::Acts(Letter::Puts(Place::Instead)),
        LETTER_I => Kind::Acts(Letter::Puts(Place::Before)),
        LETTER_D => Kind::Acts(Letter::Delete),
        LETTER_S => Kind::Acts(Letter::Substitute),
        LETTER_M => Kind::Acts(Letter::Sends(Way::Move)),
        LETTER_T => Kind::Acts(Letter::Sends(Way::Copy)),
        LETTER_P => Kind::Acts(Letter::Print),
        EQUALS => Kind::Acts(Letter::Equals),
        BAR => Kind::Acts(Letter::Asks(Request::Through)),
        LESS => Kind::Acts(Letter::Asks(Request::FromIt)),
        GREATER => Kind::Acts(Letter::Asks(Request::ToIt)),
        _ => other_kind(c),
    }
}
