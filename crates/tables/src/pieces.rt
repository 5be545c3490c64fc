//! The pieces of Edit's commands.
//!
//! A line is `piece` and a text, and its answer the place behind the piece with which the text begins, and the piece:
//!
//! | piece | is |
//! |---|---|
//! | `blank`, `newline`, `{`, `}` | that |
//! | `address`, and what it is | an address, as in addresses.rt |
//! | `x`, `y`, `g`, `v` | a loop with its expression |
//! | `d`, `p`, `m`, `t`, `=`, `=#` | the letter with all its parts |
//! | `a`, `c`, `i`, `\|`, `<`, `>` and a text, escaped, behind a tab | the same |
//! | `s`, the number of the match and the text; `s`, the number, `g` and the text | the same |
//! | `deep`, `nodes` | a loop or a letter of which nothing is built |
//!
//! A text that begins with no piece is answered `bad PLACE`.

use crate::addresses::address_word;
use crate::fault::Fault;
use crate::fields::{put, text_of};
use addr_syntax::Limited;
use am_text::Runes;
use edit_parts::{Act, Loop, Token, token_at};
use std::alloc::Global;

fn loop_letter(kind: Loop) -> &'static str {
    match kind {
        Loop::ForEach => "x",
        Loop::ForBetween => "y",
        Loop::Where => "g",
        Loop::WhereNot => "v",
    }
}

// The letter of an action without a text.
fn bare_letter(act: &Act) -> &'static str {
    match act {
        Act::Delete => "d",
        Act::Print => "p",
        Act::Move(_) => "m",
        Act::Copy(_) => "t",
        Act::LineNo => "=",
        Act::CharNo => "=#",
        _ => "?",
    }
}

fn put_substitution(
    alloc: Global,
    line: &mut Vec<u8>,
    nth: u64,
    with: &Runes,
    all: bool,
) -> Result<(), Fault> {
    let sign = if all { " g" } else { "" };
    let front = format!(in alloc; "s {nth}{sign}\t")?;
    put(alloc, line, front.as_str(), with.as_slice())
}

fn put_act(alloc: Global, line: &mut Vec<u8>, act: &Act) -> Result<(), Fault> {
    match act {
        Act::Append(text) => put(alloc, line, "a\t", text.as_slice()),
        Act::Change(text) => put(alloc, line, "c\t", text.as_slice()),
        Act::Insert(text) => put(alloc, line, "i\t", text.as_slice()),
        Act::Pipe(text) => put(alloc, line, "|\t", text.as_slice()),
        Act::From(text) => put(alloc, line, "<\t", text.as_slice()),
        Act::To(text) => put(alloc, line, ">\t", text.as_slice()),
        Act::Subst { nth, with, all, .. } => put_substitution(alloc, line, *nth, with, *all),
        _ => put(alloc, line, bare_letter(act), &[]),
    }
}

fn put_piece(alloc: Global, line: &mut Vec<u8>, piece: &Token) -> Result<(), Fault> {
    match piece {
        Token::Blank => put(alloc, line, "blank", &[]),
        Token::EndsLine => put(alloc, line, "newline", &[]),
        Token::At(addr) => {
            put(alloc, line, "address ", &[])?;
            put(alloc, line, address_word(addr), &[])
        }
        Token::Loops(kind, Some(_)) => put(alloc, line, loop_letter(*kind), &[]),
        Token::Loops(_, None) => put(alloc, line, "nodes", &[]),
        Token::Opens => put(alloc, line, "{", &[]),
        Token::Closes => put(alloc, line, "}", &[]),
        Token::Does(Limited::Whole(act)) => put_act(alloc, line, act),
        Token::Does(Limited::Deep) => put(alloc, line, "deep", &[]),
        Token::Does(Limited::Large) => put(alloc, line, "nodes", &[]),
    }
}

/// The piece with which a text begins.
pub fn first(alloc: Global, case: &str) -> Result<Vec<u8>, Fault> {
    let text = text_of(alloc, case)?;
    if text.is_empty() {
        return Err(Fault::NoCase);
    }
    let (piece, end) = token_at(alloc, text.as_slice(), 0)?;
    let mut line = format!(in alloc; "{end} ")?.into_bytes();
    put_piece(alloc, &mut line, &piece)?;
    Ok(line)
}
