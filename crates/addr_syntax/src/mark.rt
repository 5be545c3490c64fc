//! What the first rune of a piece says.

ghost use Rattle.std.specs.Prelude.{◌≡◌};
ghost use Rattle.addr_syntax.specs.Marks.{mark_of, begins_piece};

use am_text::{
    COMMA, DIGIT_0, DIGIT_9, DOLLAR, DOT, HASH, MINUS, PLUS, QUESTION, Rune, SEMICOLON, SLASH,
};

/// An operator between parts.
#[derive(Clone, Copy)]
pub enum Sign {
    Plus,
    Minus,
}

/// An operator between rows of parts.
#[derive(Clone, Copy)]
pub enum Separator {
    Comma,
    Semi,
}

/// What the first rune of a piece says.
#[derive(Clone, Copy)]
pub enum Mark {
    Signs(Sign),
    Separates(Separator),
    Dot,
    Dollar,
    /// The first digit of a line number.
    Digit,
    /// The sign before the number of a rune.
    Hash,
    /// The delimiter of an expression that is searched for forward.
    Slash,
    /// The delimiter of one that is searched for backward.
    Query,
    Other,
}

/// What the first rune of a piece says.
#[tactic(auto, unfolding(crate::specs::Marks::mark_of))]
pub fn mark_of(c: Rune) -> Mark
    ensures { result ≡ mark_of c }
{
    match c {
        PLUS => Mark::Signs(Sign::Plus),
        MINUS => Mark::Signs(Sign::Minus),
        COMMA => Mark::Separates(Separator::Comma),
        SEMICOLON => Mark::Separates(Separator::Semi),
        DOT => Mark::Dot,
        DOLLAR => Mark::Dollar,
        HASH => Mark::Hash,
        SLASH => Mark::Slash,
        QUESTION => Mark::Query,
        DIGIT_0..=DIGIT_9 => Mark::Digit,
        _ => Mark::Other,
    }
}

/// Whether a piece begins with the rune.
pub fn begins_piece(c: Rune) -> bool
    ensures { result ≡ begins_piece (Some c) }
{
    !matches!(mark_of(c), Mark::Other)
}
