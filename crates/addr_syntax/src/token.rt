//! Reads the pieces of an address.

ghost use Rattle.std.specs.Prelude.{◌≡◌, ◌≤◌, ◌<◌, ◌+◌, length, slice_index, IfOk, IfErr};
ghost use Rattle.addr_syntax.specs.Marks.{mark_of};
ghost use Rattle.addr_syntax.specs.Scan.{IsTokenAt, PieceFails, forward_of, backward_of, behind_at};

use crate::address::{Addr, SynFault};
use crate::mark::{Mark, mark_of};
use crate::reading::Token;
use crate::scan::{expression, number};
use am_text::{QUESTION, Rune, SLASH};
use re_syntax::Re;
use std::alloc::Global;

// The line whose number begins here.
fn line(text: &[Rune], at: usize) -> Result<(Token, usize), SynFault>
    requires within { at < length text.now }
    requires digit { mark_of (slice_index text.now at) ≡ Mark.Digit }
    ensures ok { IfOk result (λ a. IsTokenAt text.now at a.0 a.1) }
    ensures err { IfErr result (PieceFails text.now at) }
{
    let (n, end) = number(text, at)?;
    Ok((Token::Stands(Some(Addr::Line(n))), end))
}

// The rune whose number begins behind this place.
fn rune(text: &[Rune], at: usize) -> Result<(Token, usize), SynFault>
    requires within { at < length text.now }
    requires hash { mark_of (slice_index text.now at) ≡ Mark.Hash }
    ensures ok { IfOk result (λ a. IsTokenAt text.now at a.0 a.1) }
    ensures err { IfErr result (PieceFails text.now at) }
{
    let (n, end) = number(text, at + 1)?;
    Ok((Token::Stands(Some(Addr::Char(n))), end))
}

// The part of an expression that is searched for forward.
fn forward_of(re: Option<Re>) -> Option<Addr>
    ensures { result ≡ forward_of re }
{
    match re {
        Some(re) => Some(Addr::Fore(re)),
        None => None,
    }
}

// The part of one that is searched for backward.
fn backward_of(re: Option<Re>) -> Option<Addr>
    ensures { result ≡ backward_of re }
{
    match re {
        Some(re) => Some(Addr::Back(re)),
        None => None,
    }
}

// The place behind the last delimiter, which may be missing at the end of the text.
fn behind(text: &[Rune], end: usize) -> usize
    ensures { result ≡ behind_at text.now end }
{
    if end < text.len() { end + 1 } else { end }
}

// The search forward whose expression begins behind this place.
fn forward(alloc: Global, text: &[Rune], at: usize) -> Result<(Token, usize), SynFault>
    requires within { at < length text.now }
    requires slash { mark_of (slice_index text.now at) ≡ Mark.Slash }
    ensures ok { IfOk result (λ a. IsTokenAt text.now at a.0 a.1) }
    ensures err { IfErr result (PieceFails text.now at) }
{
    let (re, end) = expression(alloc, text, at + 1, SLASH)?;
    Ok((Token::Stands(forward_of(re)), behind(text, end)))
}

// The search backward whose expression begins behind this place.
fn backward(alloc: Global, text: &[Rune], at: usize) -> Result<(Token, usize), SynFault>
    requires within { at < length text.now }
    requires query { mark_of (slice_index text.now at) ≡ Mark.Query }
    ensures ok { IfOk result (λ a. IsTokenAt text.now at a.0 a.1) }
    ensures err { IfErr result (PieceFails text.now at) }
{
    let (re, end) = expression(alloc, text, at + 1, QUESTION)?;
    Ok((Token::Stands(backward_of(re)), behind(text, end)))
}

/// The token that begins at a place, and the place behind it.
pub fn token(alloc: Global, text: &[Rune], at: usize) -> Result<(Token, usize), SynFault>
    requires { at < length text.now }
    ensures ok { IfOk result (λ a. IsTokenAt text.now at a.0 a.1) }
    ensures err { IfErr result (PieceFails text.now at) }
{
    match mark_of(text[at]) {
        Mark::Signs(sign) => Ok((Token::Adds(sign), at + 1)),
        Mark::Separates(separator) => Ok((Token::Splits(separator), at + 1)),
        Mark::Dot => Ok((Token::Begins(Addr::Here), at + 1)),
        Mark::Dollar => Ok((Token::Begins(Addr::Last), at + 1)),
        Mark::Digit => line(text, at),
        Mark::Hash => rune(text, at),
        Mark::Slash => forward(alloc, text, at),
        Mark::Query => backward(alloc, text, at),
        Mark::Other => Err(SynFault::Bad(at)),
    }
}
