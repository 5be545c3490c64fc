//! Reads the pieces of a command.

ghost use Rattle.std.specs.Prelude.{◌≡◌, ◌<◌, ◌+◌, length, IfOk, IfErr};
ghost use Rattle.edit_parts.specs.Kinds.{kind_of};
ghost use Rattle.edit_parts.specs.Answer.{IsTokenAt, PieceFails};

use crate::action::act;
use crate::command::Act;
use crate::expression::loop_expression;
use crate::kind::{Kind, Loop, kind_of};
use crate::scan::after_blanks;
use addr_syntax::{Addr, Limited, SynFault, addr_at};
use am_text::Rune;
use re_syntax::Re;
use std::alloc::Global;

/// A piece of a command. Of one that passes a limit nothing is built.
#[derive(Drop)]
pub enum Token {
    Blank,
    EndsLine,
    At(Limited<Addr>),
    /// One of `x y g v` with its expression; `None` stands for one of more than 2,048 nodes.
    Loops(Loop, Option<Re>),
    Opens,
    Closes,
    /// Any other letter with all its parts.
    Does(Limited<Act>),
}

/// The piece that begins at a place, and the place behind it.
///
/// `Bad` tells the first place at which no piece that begins at the place goes on: the end of the text where the text
/// only stops short, and the place itself where none begins. `Nodes` and `Deep` are never answered.
pub fn token_at(alloc: Global, text: &[Rune], at: usize) -> Result<(Token, usize), SynFault>
    requires { at < length text.now }
    ensures read { IfOk result (λ a. IsTokenAt text.now at a.0 a.1) }
    ensures refused { IfErr result (PieceFails text.now at) }
{
    match kind_of(text[at]) {
        Kind::Blank => Ok((Token::Blank, at + 1)),
        Kind::EndsLine => Ok((Token::EndsLine, at + 1)),
        Kind::Opens => Ok((Token::Opens, at + 1)),
        Kind::Closes => Ok((Token::Closes, at + 1)),
        Kind::Address => {
            let (addr, end) = addr_at(alloc, text, at)?;
            Ok((Token::At(addr), end))
        }
        Kind::Loops(kind) => {
            let (re, end) = loop_expression(alloc, text, after_blanks(text, at + 1), kind)?;
            Ok((Token::Loops(kind, re), end))
        }
        Kind::Acts(letter) => {
            let (act, end) = act(alloc, text, at + 1, letter)?;
            Ok((Token::Does(act), end))
        }
        Kind::Other => Err(SynFault::Bad(at)),
    }
}
