//! Reads the parts of letters.

ghost use Rattle.std.specs.Prelude.{◌≡◌, ◌≤◌, ◌<◌, ◌+◌, length, IfOk, IfErr};
ghost use Rattle.re_syntax.specs.Tree as expression;
ghost use Rattle.addr_syntax.specs.Tree as address;
ghost use Rattle.addr_syntax.specs.Answer.{IsLimited};
ghost use Rattle.edit_parts.specs.Tree as tree;
ghost use Rattle.edit_parts.specs.Tree.{action};
ghost use Rattle.edit_parts.specs.Kinds.{puts, sends, request_of};
ghost use Rattle.edit_parts.specs.Texts.{All};
ghost use Rattle.edit_parts.specs.Pieces.{SubstitutesAs, ActsAs};
ghost use Rattle.edit_parts.specs.Answer.{IsBuiltExpression, IsBuiltAction};
ghost use Rattle.edit_parts.specs.Read.{IsReadBy, IsActionBy, ActionFails};

use crate::command::Act;
use crate::expression::quoted_expression;
use crate::kind::{LETTER_G, Letter, Place, Request, Way};
use crate::scan::{after_blanks, closing, is_at, nth};
use crate::text::{rest_of_line, text};
use addr_syntax::{Addr, Limited, SynFault, addr_at};
use am_text::{HASH, Items, NoMemory, Rune, Runes};
use re_syntax::Re;
use std::alloc::Global;

// A `g`, where there is one.
fn all(text: &[Rune], from: usize) -> (bool, usize)
    requires { from ≤ length text.now }
    ensures { IsReadBy (All result.0) text.now from result.1 }
{
    if is_at(text, from, LETTER_G) {
        (true, from + 1)
    } else {
        (false, from)
    }
}

// The action of `s` with these parts.
fn subst(nth: u64, re: Option<Re>, with: Runes, all: bool) -> Limited<Act>
    ensures { (e : expression.Tree) → IsBuiltExpression re e → IsBuiltAction result (tree.Substitute nth e with all) }
{
    match re {
        Some(re) => Limited::Whole(Act::Subst { nth, re, with, all }),
        None => Limited::Large,
    }
}

// The parts of `s`, behind its blanks.
fn substitution(
    alloc: Global,
    text: &[Rune],
    from: usize,
) -> Result<(Limited<Act>, usize), SynFault>
    requires { from ≤ length text.now }
    ensures ok { IfOk result (λ a. IsActionBy SubstitutesAs text.now from a.0 a.1) }
    ensures err { IfErr result (ActionFails SubstitutesAs text.now from) }
{
    let (nth, slash) = nth(text, from)?;
    let (re, with_from) = quoted_expression(alloc, text, slash)?;
    let with_end = closing(text, with_from)?;
    let with = Items::copied(alloc, &text[with_from..with_end])?;
    let (all, end) = all(text, after_blanks(text, with_end + 1));
    Ok((subst(nth, re, with, all), end))
}

// `=` or `=#`, behind the `=`.
fn equals(text: &[Rune], from: usize) -> (Limited<Act>, usize)
    requires { from ≤ length text.now }
    ensures { IsActionBy (ActsAs Letter.Equals) text.now from result.0 result.1 }
{
    if is_at(text, from, HASH) {
        (Limited::Whole(Act::CharNo), from + 1)
    } else {
        (Limited::Whole(Act::LineNo), from)
    }
}

// `a`, `c` or `i` with this text.
fn puts(place: Place, t: Runes) -> Limited<Act>
    ensures { IsBuiltAction result (puts place t) }
{
    Limited::Whole(match place {
        Place::Behind => Act::Append(t),
        Place::Instead => Act::Change(t),
        Place::Before => Act::Insert(t),
    })
}

// `a`, `c` or `i`, behind the letter.
fn put(
    alloc: Global,
    runes: &[Rune],
    from: usize,
    place: Place,
) -> Result<(Limited<Act>, usize), SynFault>
    requires { from ≤ length runes.now }
    ensures ok { IfOk result (λ a. IsActionBy (ActsAs (Letter.Puts place)) runes.now from a.0 a.1) }
    ensures err { IfErr result (ActionFails (ActsAs (Letter.Puts place)) runes.now from) }
{
    let (t, end) = text(alloc, runes, after_blanks(runes, from))?;
    Ok((puts(place, t), end))
}

// `m` or `t` with this address.
fn send_to(way: Way, addr: Addr) -> Act
    ensures { action result ≡ sends way (address.tree addr) }
{
    match way {
        Way::Move => Act::Move(addr),
        Way::Copy => Act::Copy(addr),
    }
}

// The same, of an address that may pass a limit.
fn sends(way: Way, addr: Limited<Addr>) -> Limited<Act>
    ensures { (a : address.Tree) → IsLimited addr a → IsBuiltAction result (sends way a) }
{
    match addr {
        Limited::Whole(addr) => Limited::Whole(send_to(way, addr)),
        Limited::Deep => Limited::Deep,
        Limited::Large => Limited::Large,
    }
}

// `m` or `t`, behind the letter.
fn send(
    alloc: Global,
    text: &[Rune],
    from: usize,
    way: Way,
) -> Result<(Limited<Act>, usize), SynFault>
    requires { from ≤ length text.now }
    ensures ok { IfOk result (λ a. IsActionBy (ActsAs (Letter.Sends way)) text.now from a.0 a.1) }
    ensures err { IfErr result (ActionFails (ActsAs (Letter.Sends way)) text.now from) }
{
    let (addr, end) = addr_at(alloc, text, after_blanks(text, from))?;
    Ok((sends(way, addr), end))
}

// `|`, `<` or `>` with this command.
fn asks(request: Request, t: Runes) -> Limited<Act>
    ensures { IsBuiltAction result (tree.Asks (request_of request) t) }
{
    Limited::Whole(match request {
        Request::Through => Act::Pipe(t),
        Request::FromIt => Act::From(t),
        Request::ToIt => Act::To(t),
    })
}

// `|`, `<` or `>`, behind the sign.
fn ask(
    alloc: Global,
    text: &[Rune],
    from: usize,
    request: Request,
) -> Result<(Limited<Act>, usize), NoMemory>
    requires { from ≤ length text.now }
    ensures { IfOk result (λ a. IsActionBy (ActsAs (Letter.Asks request)) text.now from a.0 a.1) }
{
    let (t, end) = rest_of_line(alloc, text, after_blanks(text, from))?;
    Ok((asks(request, t), end))
}

/// What a letter does, whose parts begin at a place, and the place behind them.
pub fn act(
    alloc: Global,
    text: &[Rune],
    from: usize,
    letter: Letter,
) -> Result<(Limited<Act>, usize), SynFault>
    requires { from ≤ length text.now }
    ensures ok { IfOk result (λ a. IsActionBy (ActsAs letter) text.now from a.0 a.1) }
    ensures err { IfErr result (ActionFails (ActsAs letter) text.now from) }
{
    match letter {
        Letter::Puts(place) => put(alloc, text, from, place),
        Letter::Delete => Ok((Limited::Whole(Act::Delete), from)),
        Letter::Substitute => substitution(alloc, text, after_blanks(text, from)),
        Letter::Sends(way) => send(alloc, text, from, way),
        Letter::Print => Ok((Limited::Whole(Act::Print), from)),
        Letter::Equals => Ok(equals(text, from)),
        Letter::Asks(request) => Ok(ask(alloc, text, from, request)?),
    }
}
