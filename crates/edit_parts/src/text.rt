//! Reads the texts of commands.

ghost use Rattle.std.specs.Prelude.{◌≡◌, ◌≤◌, ◌<◌, ◌+◌, length, false, ◌++◌, IfOk, IfErr, OnOk};
ghost use Rattle.edit_parts.specs.Texts.{unescaped, escaped, Lines, Text, RestOfLine};
ghost use Rattle.edit_parts.specs.Read.{IsReadBy, UnescapedTo, TextFails, ClosedFails};

use crate::scan::{closing, dot_line, is_at, line_end};
use addr_syntax::SynFault;
use am_text::{BACKSLASH, Items, LETTER_N, NEWLINE, NoMemory, Rune, Runes, SLASH};
use std::alloc::Global;

// Puts what a rune behind a backslash stands for at the end.
fn push_escaped(made: &mut Runes, c: Rune) -> Result<(), NoMemory>
    ensures { OnOk result (made.new ≡ made.old ++ escaped c) }
{
    match c {
        LETTER_N => made.push(NEWLINE),
        SLASH | BACKSLASH => made.push(c),
        _ => {
            made.push(BACKSLASH)?;
            made.push(c)
        }
    }
}

// What the runes stand for.
fn unescaped(alloc: Global, text: &[Rune]) -> Result<Runes, NoMemory>
    ensures { IfOk result (λ made. made ≡ unescaped false text.now) }
{
    let mut made = Items::new(alloc);
    let mut behind_backslash = false;
    for c in text {
        let c = *c;
        if behind_backslash {
            push_escaped(&mut made, c)?;
            behind_backslash = false;
        } else if c == BACKSLASH {
            behind_backslash = true;
        } else {
            made.push(c)?;
        }
    }
    Ok(made)
}

// The text up to its `/`.
fn closed_text(alloc: Global, text: &[Rune], from: usize) -> Result<(Runes, usize), SynFault>
    requires { from ≤ length text.now }
    ensures ok { IfOk result (λ a. IsReadBy (UnescapedTo a.0) text.now from a.1) }
    ensures err { IfErr result (ClosedFails text.now from) }
{
    let end = closing(text, from)?;
    Ok((unescaped(alloc, &text[from..end])?, end + 1))
}

// The lines up to a line `.`.
fn lines(alloc: Global, text: &[Rune], from: usize) -> Result<(Runes, usize), SynFault>
    requires { from ≤ length text.now }
    ensures ok { IfOk result (λ a. IsReadBy (Lines a.0) text.now from a.1) }
    ensures err { IfErr result (TextFails Lines text.now from) }
{
    let end = dot_line(text, from)?;
    Ok((Items::copied(alloc, &text[from..end])?, end + 1))
}

/// The text of `a`, `i` or `c`: between `/`, or lines.
pub fn text(alloc: Global, text: &[Rune], from: usize) -> Result<(Runes, usize), SynFault>
    requires { from ≤ length text.now }
    ensures ok { IfOk result (λ a. IsReadBy (Text a.0) text.now from a.1) }
    ensures err { IfErr result (TextFails Text text.now from) }
{
    if is_at(text, from, SLASH) {
        closed_text(alloc, text, from + 1)
    } else if is_at(text, from, NEWLINE) {
        lines(alloc, text, from + 1)
    } else {
        Err(SynFault::Bad(from))
    }
}

/// All runes up to the line's end.
pub fn rest_of_line(alloc: Global, text: &[Rune], from: usize) -> Result<(Runes, usize), NoMemory>
    requires { from ≤ length text.now }
    ensures { IfOk result (λ a. IsReadBy (RestOfLine a.0) text.now from a.1) }
{
    let end = line_end(text, from);
    Ok((Items::copied(alloc, &text[from..end])?, end))
}
