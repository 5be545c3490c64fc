//! The letters of commands over windows and files.

ghost use Rattle.std.specs.Prelude.{◌≡◌, ◌≤◌, ◌<◌, length, drop, IfSome};
ghost use Rattle.edit_files.specs.Letters.{letter_of, other_letter, letter_at, reads_in, StandsAt};

use addr_syntax::begins_piece;
use am_text::Rune;

/// `B`.
pub const LETTER_UPPER_B: Rune = 0x42;

/// `D`.
pub const LETTER_UPPER_D: Rune = 0x44;

/// `X`.
pub const LETTER_UPPER_X: Rune = 0x58;

/// `Y`.
pub const LETTER_UPPER_Y: Rune = 0x59;

/// `e`.
pub const LETTER_E: Rune = 0x65;

/// `r`.
pub const LETTER_R: Rune = 0x72;

/// `w`.
pub const LETTER_W: Rune = 0x77;

/// What the first rune of a command says.
#[derive(Clone, Copy)]
pub enum Letter {
    /// `X`.
    Each,
    /// `Y`.
    Other,
    /// `B`.
    Open,
    /// `D`.
    Drop,
    /// `e`.
    Enter,
    /// `r`.
    ReadIn,
    /// `w`.
    WriteOut,
    /// An address begins.
    Address,
    /// All else is left to a command of sam.
    Sam,
}

// What is no letter of this table may begin an address.
fn other_letter(c: Rune) -> Letter
    ensures { result ≡ other_letter c }
{
    if begins_piece(c) {
        Letter::Address
    } else {
        Letter::Sam
    }
}

/// What the rune says at the beginning of a command.
#[tactic(auto, unfolding(crate::specs::Letters::letter_of))]
pub fn letter_of(c: Rune) -> Letter
    ensures { result ≡ letter_of c }
{
    match c {
        LETTER_UPPER_X => Letter::Each,
        LETTER_UPPER_Y => Letter::Other,
        LETTER_UPPER_B => Letter::Open,
        LETTER_UPPER_D => Letter::Drop,
        LETTER_E => Letter::Enter,
        LETTER_R => Letter::ReadIn,
        LETTER_W => Letter::WriteOut,
        _ => other_letter(c),
    }
}

/// What the rune at a place says; the end of the text begins a command of sam.
pub fn letter_at(text: &[Rune], at: usize) -> Letter
    requires { at ≤ length text.now }
    ensures is { result ≡ letter_at (drop at text.now) }
    ensures stands { StandsAt text.now at result }
{
    if at < text.len() {
        letter_of(text[at])
    } else {
        Letter::Sam
    }
}

// Whether the letter is `r`, or `w`, or neither.
fn reads_in(letter: Letter) -> Option<bool>
    ensures { result ≡ reads_in letter }
{
    match letter {
        Letter::ReadIn => Some(true),
        Letter::WriteOut => Some(false),
        Letter::Each => None,
        Letter::Other => None,
        Letter::Open => None,
        Letter::Drop => None,
        Letter::Enter => None,
        Letter::Address => None,
        Letter::Sam => None,
    }
}

/// Whether `r` stands at a place, or `w`, or neither.
pub fn reads_at(text: &[Rune], at: usize) -> Option<bool>
    requires { at ≤ length text.now }
    ensures is { result ≡ reads_in (letter_at (drop at text.now)) }
    ensures stands { IfSome result (λ reads_in. at < length text.now) }
{
    if at < text.len() {
        reads_in(letter_of(text[at]))
    } else {
        None
    }
}
