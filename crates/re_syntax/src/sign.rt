//! What a rune means where an expression is read.

ghost use Rattle.std.specs.Prelude.{◌≡◌, ◌&&◌};
ghost use Rattle.re_syntax.specs.Signs.{is_stop, sign_of, class_sign_of, bracket, escaped};

use am_text::{
    BACKSLASH, BAR, CARET, DOLLAR, DOT, LEFT_BRACKET, LEFT_PARENTHESIS, LETTER_N, MINUS, NEWLINE,
    PLUS, QUESTION, RIGHT_BRACKET, RIGHT_PARENTHESIS, Rune, STAR,
};

/// How often a piece is repeated.
#[derive(Clone, Copy)]
pub enum Repeat {
    Star,
    Plus,
    Opt,
}

/// What a rune means outside a class.
#[derive(Clone, Copy)]
pub enum Sign {
    /// The delimiter.
    Stop,
    /// An opening bracket whose closing one is the delimiter.
    Lone,
    Escape,
    Bar,
    Repeats(Repeat),
    Open,
    Close,
    Dot,
    Caret,
    Dollar,
    OpenClass,
    Plain,
}

/// What a rune means in a class.
#[derive(Clone, Copy)]
pub enum ClassSign {
    /// The delimiter.
    Ends,
    Escapes,
    Dash,
    Closes,
    Hat,
    Member,
}

/// The rune is the delimiter.
pub fn is_stop(stop: Option<Rune>, c: Rune) -> bool
    ensures { result ≡ is_stop stop c }
{
    match stop {
        Some(s) => s == c,
        None => false,
    }
}

fn bracket(sign: Sign, is_lone: bool) -> Sign
    ensures { result ≡ bracket sign is_lone }
{
    if is_lone { Sign::Lone } else { sign }
}

/// What a rune means outside a class.
#[tactic(auto, unfolding(crate::specs::Signs::sign_of))]
pub fn sign_of(stop: Option<Rune>, c: Rune) -> Sign
    ensures { result ≡ sign_of stop c }
{
    if is_stop(stop, c) {
        return Sign::Stop;
    }
    match c {
        BACKSLASH => Sign::Escape,
        BAR => Sign::Bar,
        STAR => Sign::Repeats(Repeat::Star),
        PLUS => Sign::Repeats(Repeat::Plus),
        QUESTION => Sign::Repeats(Repeat::Opt),
        LEFT_PARENTHESIS => bracket(Sign::Open, is_stop(stop, RIGHT_PARENTHESIS)),
        RIGHT_PARENTHESIS => Sign::Close,
        DOT => Sign::Dot,
        CARET => Sign::Caret,
        DOLLAR => Sign::Dollar,
        LEFT_BRACKET => bracket(Sign::OpenClass, is_stop(stop, RIGHT_BRACKET)),
        _ => Sign::Plain,
    }
}

/// What a rune means in a class.
#[tactic(auto, unfolding(crate::specs::Signs::class_sign_of))]
pub fn class_sign_of(stop: Option<Rune>, c: Rune) -> ClassSign
    ensures { result ≡ class_sign_of stop c }
{
    if is_stop(stop, c) {
        return ClassSign::Ends;
    }
    match c {
        BACKSLASH => ClassSign::Escapes,
        MINUS => ClassSign::Dash,
        RIGHT_BRACKET => ClassSign::Closes,
        CARET => ClassSign::Hat,
        _ => ClassSign::Member,
    }
}

/// The rune that a backslash and this one stand for.
pub fn escaped(c: Rune) -> Rune
    ensures { result ≡ escaped c }
{
    if c == LETTER_N { NEWLINE } else { c }
}
