//! Finds where the texts of commands end.

ghost use Rattle.std.specs.Prelude.{◌≡◌, ◌≤◌, ◌<◌, ◌+◌, ◌&&◌, ◌==◌, true, length, drop, slice_index, IfOk, IfErr};
ghost use Rattle.am_text.specs.Ascii.{dot};
ghost use Rattle.addr_syntax.specs.Marks.{next_of, is_digit};
ghost use Rattle.edit_parts.specs.Kinds.{ends_line, is_next};
ghost use Rattle.edit_parts.specs.Texts.{after_blanks, lines_length, line_length, Lines, Nth};
ghost use Rattle.edit_parts.specs.Read.{IsReadBy, IsClosedAt, ClosedFails, IsDotAt, TextFails, NthFails};

use addr_syntax::{SynFault, delimiter_at, number};
use am_text::{DIGIT_0, DIGIT_9, DOT, NEWLINE, Rune, SLASH, SPACE};

/// The place behind the blanks that begin at a place.
pub fn after_blanks(text: &[Rune], from: usize) -> usize
    requires { from ≤ length text.now }
    ensures order { from ≤ result }
    ensures within { result ≤ length text.now }
    ensures behind { drop result text.now ≡ after_blanks (drop from text.now) }
{
    for at in from..text.len() {
        if text[at] != SPACE {
            return at;
        }
    }
    text.len()
}

/// The place of the newline that ends the line of a place, or the end of the text.
pub fn line_end(text: &[Rune], from: usize) -> usize
    requires { from ≤ length text.now }
    ensures exact { result ≡ from + line_length (drop from text.now) }
    ensures within { result ≤ length text.now }
{
    for at in from..text.len() {
        if text[at] == NEWLINE {
            return at;
        }
    }
    text.len()
}

/// The place of the `/` behind no backslash.
pub fn closing(text: &[Rune], from: usize) -> Result<usize, SynFault>
    requires { from ≤ length text.now }
    ensures ok { IfOk result (IsClosedAt text.now from) }
    ensures err { IfErr result (ClosedFails text.now from) }
{
    let end = delimiter_at(text, from, SLASH);
    if end < text.len() {
        Ok(end)
    } else {
        Err(SynFault::Bad(end))
    }
}

// Whether the text or a line ends at a place.
fn ends_line(text: &[Rune], at: usize) -> bool
    requires { at ≤ length text.now }
    ensures { result ≡ ends_line (next_of (drop at text.now)) }
{
    if at < text.len() {
        text[at] == NEWLINE
    } else {
        true
    }
}

// Whether a line that begins here is `.`.
fn is_dot(text: &[Rune], at: usize, starts: bool) -> bool
    requires { at < length text.now }
    ensures { result ≡ (starts && (slice_index text.now at == dot) && ends_line (next_of (drop (at + 1) text.now))) }
{
    starts && text[at] == DOT && ends_line(text, at + 1)
}

// The place of the first `.` that is a line, where a line begins at a place; the end of the text where there is none.
fn first_dot(text: &[Rune], from: usize) -> usize
    requires { from ≤ length text.now }
    ensures exact { result ≡ from + lines_length true (drop from text.now) }
    ensures within { result ≤ length text.now }
{
    let mut starts = true;
    for at in from..text.len() {
        if is_dot(text, at, starts) {
            return at;
        }
        starts = text[at] == NEWLINE;
    }
    text.len()
}

/// The place of the first `.` that is a line, where a line begins at a place.
pub fn dot_line(text: &[Rune], from: usize) -> Result<usize, SynFault>
    requires { from ≤ length text.now }
    ensures ok { IfOk result (IsDotAt text.now from) }
    ensures err { IfErr result (TextFails Lines text.now from) }
{
    let end = first_dot(text, from);
    if end < text.len() {
        Ok(end)
    } else {
        Err(SynFault::Bad(end))
    }
}

// Whether a decimal digit stands at a place.
fn is_digit_at(text: &[Rune], at: usize) -> bool
    requires { at ≤ length text.now }
    ensures { result ≡ is_digit (next_of (drop at text.now)) }
{
    at < text.len() && DIGIT_0 <= text[at] && text[at] <= DIGIT_9
}

/// The number of a match, and the place behind it and its blanks.
pub fn nth(text: &[Rune], from: usize) -> Result<(u64, usize), SynFault>
    requires { from ≤ length text.now }
    ensures ok { IfOk result (λ a. IsReadBy (Nth a.0) text.now from a.1) }
    ensures err { IfErr result (NthFails text.now from) }
{
    if !is_digit_at(text, from) {
        return Ok((1, from));
    }
    let (n, end) = number(text, from)?;
    Ok((n, after_blanks(text, end)))
}

/// Whether a rune stands at a place.
pub fn is_at(text: &[Rune], at: usize, c: Rune) -> bool
    requires { at ≤ length text.now }
    ensures { result ≡ is_next c (next_of (drop at text.now)) }
{
    at < text.len() && text[at] == c
}
