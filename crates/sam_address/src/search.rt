//! Searches inside a limit.

ghost use Rattle.std.specs.Prelude.{◌≡◌, ◌<◌, ◌≤◌, length, IfOk, IfErr, Ok};
ghost use Rattle.re_syntax.specs.Tree.{tree};
ghost use Rattle.re_spans.specs.Search.{IsBetween};
ghost use Rattle.sam_address.specs.Search.{forward, backward, nearest};
ghost use Rattle.sam_address.specs.Value.{match_or_fault, IsFault, IsInside};

use crate::fault::AddrFault;
use am_text::{Letters, Range};
use re_machine::Machine;
use re_spans::Re;
use std::alloc::Global;

// The place, or the nearest one inside the limit.
fn nearest(limit: Range, place: usize) -> usize
    requires { limit.q0 ≤ limit.q1 }
    ensures value { result ≡ nearest limit place }
    ensures inside { (limit.q0 ≤ result) × (result ≤ limit.q1) }
{
    if place < limit.q0 {
        limit.q0
    } else if limit.q1 < place {
        limit.q1
    } else {
        place
    }
}

/// The first match from a place on; where there is none, the first from the start of the limit.
pub fn forward<T: Letters>(
    alloc: Global,
    re: &Re,
    text: &T,
    limit: Range,
    place: usize,
) -> Result<Range, AddrFault>
    requires { IsInside (T.letters text.now) limit }
    ensures value { IfOk result (λ r. match_or_fault (forward (tree re.now) (T.letters text.now) limit place) ≡ Ok r) }
    ensures fault { IfErr result (λ e. IsFault e (match_or_fault
        (forward (tree re.now) (T.letters text.now) limit place))) }
    ensures inside { IfOk result (IsBetween limit.q0 limit.q1) }
{
    let machine = Machine::build(alloc, re)?;
    let from = nearest(limit, place);
    if let Some(found) = machine.forward(alloc, text, from, limit.q1, Some(from))? {
        return Ok(found);
    }
    match machine.forward(alloc, text, limit.q0, limit.q1, None)? {
        Some(found) => Ok(found),
        None => Err(AddrFault::NoMatch),
    }
}

/// The last match up to a place; where there is none, the last up to the end of the limit.
pub fn backward<T: Letters>(
    alloc: Global,
    re: &Re,
    text: &T,
    limit: Range,
    place: usize,
) -> Result<Range, AddrFault>
    requires { IsInside (T.letters text.now) limit }
    ensures value { IfOk result (λ r. match_or_fault (backward (tree re.now) (T.letters text.now) limit place) ≡ Ok r) }
    ensures fault { IfErr result (λ e. IsFault e (match_or_fault
        (backward (tree re.now) (T.letters text.now) limit place))) }
    ensures inside { IfOk result (IsBetween limit.q0 limit.q1) }
{
    let machine = Machine::build(alloc, re)?;
    let to = nearest(limit, place);
    if let Some(found) = machine.backward(alloc, text, limit.q0, to, Some(to))? {
        return Ok(found);
    }
    match machine.backward(alloc, text, limit.q0, limit.q1, None)? {
        Some(found) => Ok(found),
        None => Err(AddrFault::NoMatch),
    }
}
