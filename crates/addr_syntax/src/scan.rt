//! Reads numbers and expressions.

ghost use Rattle.std.specs.Prelude.{◌≡◌, ◌≤◌, ◌<◌, ◌+◌, ◌||◌, ◌==◌, false, [], ◌∷◌, length, drop, IfOk, IfErr};
ghost use Rattle.std.specs.Prelude.{if◌then◌else◌};
ghost use Rattle.std.specs.Char.{is_ascii_digit};
ghost use Rattle.am_text.specs.Number.{number_after};
ghost use Rattle.addr_syntax.specs.Scan.{IsNumberAt, NumberFails, body_length, IsExpressionAt, ExpressionFails};

use crate::address::SynFault;
use am_text::{BACKSLASH, DIGIT_0, DIGIT_9, Rune};
use re_syntax::{Re, ReFault, parse_re};
use std::alloc::Global;

// The rune is a decimal digit.
fn is_digit(c: Rune) -> bool
    ensures { result ≡ is_ascii_digit c }
{
    DIGIT_0 <= c && c <= DIGIT_9
}

// The number with one digit more; `None` where that is no digit, and where the number is too large.
#[tactic(auto, unfolding(am_text::specs::Number::number_after))]
fn with_digit(n: u64, c: Rune) -> Option<u64>
    ensures { result ≡ number_after n (c ∷ []) }
{
    if !is_digit(c) {
        return None;
    }
    n.checked_mul(10)?.checked_add(u64::from(c - DIGIT_0))
}

// The number that ends at a place, where a digit of it stands before that and none there.
fn number_to(n: u64, from: usize, at: usize, is_digit: bool) -> Result<(u64, usize), SynFault>
    ensures { result ≡ (if (from == at) || is_digit then Err (SynFault.Bad at) else Ok (n, at)) }
{
    if from == at || is_digit {
        Err(SynFault::Bad(at))
    } else {
        Ok((n, at))
    }
}

/// The number whose digits begin at a place, and the place behind them.
///
/// `Bad` tells the place where no digit stands, or that of a digit with which the number is too large for 64 bits.
pub fn number(text: &[Rune], from: usize) -> Result<(u64, usize), SynFault>
    requires { from ≤ length text.now }
    ensures ok { IfOk result (λ a. IsNumberAt text.now from a.0 a.1) }
    ensures err { IfErr result (NumberFails text.now from) }
{
    let mut n = 0;
    for at in from..text.len() {
        let c = text[at];
        match with_digit(n, c) {
            Some(more) => n = more,
            None => return number_to(n, from, at, is_digit(c)),
        }
    }
    number_to(n, from, text.len(), false)
}

/// The place of the first delimiter behind no backslash, or the end of the text.
pub fn delimiter_at(text: &[Rune], from: usize, delimiter: Rune) -> usize
    requires { from ≤ length text.now }
    ensures { result ≡ from + body_length delimiter false (drop from text.now) }
{
    let mut escaped = false;
    for at in from..text.len() {
        let c = text[at];
        if escaped {
            escaped = false;
        } else if delimiter == c {
            return at;
        } else {
            escaped = c == BACKSLASH;
        }
    }
    text.len()
}

/// The expression that begins at a place, and the place where it ends: at a delimiter, or at the end of the text.
/// `None` stands for one that has more than 2,048 nodes, and `Nodes` is never answered.
pub fn expression(
    alloc: Global,
    text: &[Rune],
    from: usize,
    delimiter: Rune,
) -> Result<(Option<Re>, usize), SynFault>
    requires { from ≤ length text.now }
    ensures ok { IfOk result (λ a. IsExpressionAt delimiter text.now from a.0 a.1) }
    ensures err { IfErr result (ExpressionFails delimiter text.now from) }
{
    match parse_re(alloc, text, from, Some(delimiter)) {
        Ok((re, end)) => Ok((Some(re), end)),
        Err(ReFault::Nodes) => Ok((None, delimiter_at(text, from, delimiter))),
        Err(ReFault::Bad(place)) => Err(SynFault::Bad(place)),
        Err(ReFault::NoMemory) => Err(SynFault::NoMemory),
    }
}
