//! The value of a tree.

ghost use Rattle.std.specs.Prelude.{◌≡◌, ◌<◌, ◌≤◌, ◌+◌, length, IfOk, IfErr, Ok};
ghost use Rattle.addr_syntax.specs.Tree.{tree, side};
ghost use Rattle.addr_syntax.specs.declared.address.Addr.{back-Addr-Plus-0};
ghost use Rattle.sam_address.specs.Value.{value, after, before, written_or, rune_at, runes_back, span_of, IsFault};
ghost use Rattle.sam_address.specs.Value.{IsInside, line_from};
ghost use Rattle.sam_address.specs.Lines.{line_starts, nth};

use crate::fault::AddrFault;
use crate::lines::{line_from, lines_back, lines_on, null_at};
use crate::search::{backward, forward};
use addr_syntax::Addr;
use am_text::{Letters, Range};
use std::alloc::Global;

// The null range so many runes after a place.
fn runes_on<T: Letters>(text: &T, place: usize, n: u64) -> Result<Range, AddrFault>
    requires { place ≤ length (T.letters text.now) }
    ensures value { result ≡ rune_at (T.letters text.now) (place + n) }
    ensures inside { IfOk result (IsInside (T.letters text.now)) }
{
    if n as usize <= text.len() - place {
        Ok(null_at(place + n as usize))
    } else {
        Err(AddrFault::Range)
    }
}

// The null range so many runes before a place.
fn runes_back(place: usize, n: u64) -> Result<Range, AddrFault>
    ensures value { result ≡ runes_back place n }
    ensures inside { IfOk result (λ r. (r.q0 ≡ r.q1) × (r.q1 ≤ place)) }
{
    if n as usize <= place {
        Ok(null_at(place - n as usize))
    } else {
        Err(AddrFault::Range)
    }
}

// The line n, counted from 1.
#[tactic(auto, using(crate::proofs::Starts::from_zero, crate::proofs::Starts::none_from_zero))]
fn nth_line<T: Letters>(text: &T, n: u64) -> Result<Range, AddrFault>
    ensures value { result ≡ line_from (T.letters text.now) (nth (line_starts (T.letters text.now)) n) }
    ensures inside { IfOk result (IsInside (T.letters text.now)) }
{
    if n == 0 {
        return Err(AddrFault::Range);
    }
    line_from(text, 0, n)
}

// From the start of the one range to the end of the other.
fn span_of(left: Range, right: Range) -> Result<Range, AddrFault>
    ensures { result ≡ span_of left right }
{
    if right.q1 < left.q0 {
        return Err(AddrFault::Order);
    }
    Ok(Range {
        q0: left.q0,
        q1: right.q1,
    })
}

// What stands right of `+`, from the end of what stands left of it.
#[cycle(address)]
fn after<T: Letters>(
    alloc: Global,
    addr: &Addr,
    text: &T,
    left: Range,
    limit: Range,
) -> Result<Range, AddrFault>
    requires left { IsInside (T.letters text.now) left }
    requires limit { IsInside (T.letters text.now) limit }
    ensures value { IfOk result (λ r. after (tree addr.now) (value (tree addr.now) (T.letters text.now) limit left)
        (T.letters text.now) limit left ≡ Ok r) }
    ensures fault { IfErr result (λ e. IsFault e (after (tree addr.now)
        (value (tree addr.now) (T.letters text.now) limit left) (T.letters text.now) limit left)) }
    ensures inside { IfOk result (IsInside (T.letters text.now)) }
{
    match addr {
        Addr::Char(n) => runes_on(text, left.q1, *n),
        Addr::Line(n) => lines_on(text, left.q1, *n),
        Addr::Fore(re) => forward(alloc, re, text, limit, left.q1),
        Addr::Back(re) => backward(alloc, re, text, limit, left.q1),
        _ => value(alloc, addr, text, left, limit),
    }
}

// What stands right of `-`, back from the start of what stands left of it.
#[cycle(address)]
fn before<T: Letters>(
    alloc: Global,
    addr: &Addr,
    text: &T,
    left: Range,
    limit: Range,
) -> Result<Range, AddrFault>
    requires left { IsInside (T.letters text.now) left }
    requires limit { IsInside (T.letters text.now) limit }
    ensures value { IfOk result (λ r. before (tree addr.now) (value (tree addr.now) (T.letters text.now) limit left)
        (T.letters text.now) limit left ≡ Ok r) }
    ensures fault { IfErr result (λ e. IsFault e (before (tree addr.now)
        (value (tree addr.now) (T.letters text.now) limit left) (T.letters text.now) limit left)) }
    ensures inside { IfOk result (IsInside (T.letters text.now)) }
{
    match addr {
        Addr::Char(n) => runes_back(left.q0, *n),
        Addr::Line(n) => lines_back(text, left.q0, *n),
        Addr::Fore(re) => backward(alloc, re, text, limit, left.q0),
        Addr::Back(re) => forward(alloc, re, text, limit, left.q0),
        _ => value(alloc, addr, text, left, limit),
    }
}

// The value of a side, or the range that stands for a side that isn't written.
#[cycle(address)]
#[tactic(auto, using(crate::proofs::Sides::written_tree))]
fn side<T: Letters>(
    alloc: Global,
    addr: &Option<Box<Addr>>,
    text: &T,
    missing: Range,
    dot: Range,
    limit: Range,
) -> Result<Range, AddrFault>
    requires missing { IsInside (T.letters text.now) missing }
    requires dot { IsInside (T.letters text.now) dot }
    requires limit { IsInside (T.letters text.now) limit }
    ensures value { IfOk result (λ r. written_or (side (back-Addr-Plus-0 addr.now)) (Ok missing)
        (value (side (back-Addr-Plus-0 addr.now)) (T.letters text.now) limit dot) ≡ Ok r) }
    ensures fault { IfErr result (λ e. IsFault e (written_or (side (back-Addr-Plus-0 addr.now)) (Ok missing)
        (value (side (back-Addr-Plus-0 addr.now)) (T.letters text.now) limit dot))) }
    ensures inside { IfOk result (IsInside (T.letters text.now)) }
{
    match addr {
        Some(addr) => value(alloc, addr, text, dot, limit),
        None => Ok(missing),
    }
}

/// The value of an address in a text, where dot is this range and searches stay inside the limit.
///
/// It is a range inside the text, or the first fault from left to right, as sam(1) has it.
#[cycle(address)]
#[tactic(auto, using(crate::proofs::Sides::written_dot))]
pub fn value<T: Letters>(
    alloc: Global,
    addr: &Addr,
    text: &T,
    dot: Range,
    limit: Range,
) -> Result<Range, AddrFault>
    requires dot { IsInside (T.letters text.now) dot }
    requires limit { IsInside (T.letters text.now) limit }
    ensures value { IfOk result (λ r. value (tree addr.now) (T.letters text.now) limit dot ≡ Ok r) }
    ensures fault { IfErr result (λ e. IsFault e (value (tree addr.now) (T.letters text.now) limit dot)) }
    ensures inside { IfOk result (IsInside (T.letters text.now)) }
{
    match addr {
        Addr::Here => Ok(dot),
        Addr::Zero => Ok(null_at(0)),
        Addr::Last => Ok(null_at(text.len())),
        Addr::Char(n) => runes_on(text, 0, *n),
        Addr::Line(n) => nth_line(text, *n),
        Addr::Fore(re) => forward(alloc, re, text, limit, dot.q1),
        Addr::Back(re) => backward(alloc, re, text, limit, dot.q0),
        Addr::Plus(a, b) => {
            let left = side(alloc, a, text, dot, dot, limit)?;
            match b {
                Some(b) => after(alloc, b, text, left, limit),
                None => lines_on(text, left.q1, 1),
            }
        }
        Addr::Minus(a, b) => {
            let left = side(alloc, a, text, dot, dot, limit)?;
            match b {
                Some(b) => before(alloc, b, text, left, limit),
                None => lines_back(text, left.q0, 1),
            }
        }
        Addr::Comma(a, b) => {
            let left = side(alloc, a, text, null_at(0), dot, limit)?;
            let right = side(alloc, b, text, null_at(text.len()), dot, limit)?;
            span_of(left, right)
        }
        Addr::Semi(a, b) => {
            let left = side(alloc, a, text, null_at(0), dot, limit)?;
            let right = side(alloc, b, text, null_at(text.len()), left, limit)?;
            span_of(left, right)
        }
    }
}
