//! Reads an address.

ghost use Rattle.std.specs.Prelude.{◌≡◌, ◌≤◌, ◌<◌, length, IfOk, IfErr};
ghost use Rattle.addr_syntax.specs.Tree.{tree};
ghost use Rattle.addr_syntax.specs.Joined.{Reading, whole};
ghost use Rattle.addr_syntax.specs.Grammar.{IsAddress};
ghost use Rattle.addr_syntax.specs.Answer.{IsInLimits, Refuses, IsStep, StepFails, LimitedFails, IsLimited, IsReadAt};
ghost use Rattle.addr_syntax.specs.Answer.{FailsFrom};
ghost use Rattle.addr_syntax.specs.Read.{Follows, FinishFails};

use crate::address::{Addr, Limited, SynFault};
use crate::mark::begins_piece;
use crate::reading::{self, Built, Progress};
use crate::token::token;
use am_text::Rune;
use std::alloc::Global;

// What is read with the token that begins at a place, and the place behind it.
fn step(
    alloc: Global,
    text: &[Rune],
    at: usize,
    progress: Progress,
) -> Result<(Progress, usize), SynFault>
    requires { at < length text.now }
    ensures on { IfOk result (λ a. at < a.1) }
    ensures ok { IfOk result (λ a. (r : Reading) → Follows progress r → IsStep text.now at r a.0 a.1) }
    ensures err { IfErr result (λ e. (r : Reading) → Follows progress r → StepFails text.now at r e) }
{
    let (piece, end) = token(alloc, text, at)?;
    match reading::join(alloc, progress, piece)? {
        Some(next) => Ok((next, end)),
        None => Err(SynFault::Bad(at)),
    }
}

// The tree of all that is read.
fn finish(alloc: Global, progress: Progress, end: usize) -> Result<Addr, SynFault>
    ensures ok { IfOk result (λ a. (r : Reading) → Follows progress r → (tree a ≡ whole r) × IsInLimits (whole r)) }
    ensures err { IfErr result (λ e. (r : Reading) → Follows progress r → FinishFails end r e) }
{
    match progress.built {
        Built::Whole(sides, _) => match reading::whole(alloc, sides)? {
            Some(a) => Ok(a),
            None => Err(SynFault::Bad(end)),
        },
        Built::Deep => Err(SynFault::Deep),
        Built::Large => Err(SynFault::Nodes),
    }
}

/// Reads an address, all of the text. The grammar is that of sam(1), without blanks.
///
/// `Bad` tells the first place at which no address goes on, or the end of a text that only stops short of one.
/// `Nodes` comes exactly where a text in the grammar has an expression of more than 2,048 nodes, and `Deep` exactly
/// where it has none and more than 1,024 of `+`, `-`, `,` and `;`, each `+` that isn't written included.
pub fn parse_addr(alloc: Global, text: &[Rune]) -> Result<Addr, SynFault>
    ensures read { IfOk result (λ a. IsAddress text.now (tree a)) }
    ensures small { IfOk result (λ a. IsInLimits (tree a)) }
    ensures refused { IfErr result (Refuses text.now) }
{
    let mut progress = reading::begin();
    let mut at = 0;
    while at < text.len() {
        let (next, end) = step(alloc, text, at, progress)?;
        progress = next;
        at = end;
    }
    finish(alloc, progress, at)
}

// What is built of all that is read.
fn in_limits(alloc: Global, progress: Progress, place: usize) -> Result<Limited<Addr>, SynFault>
    ensures ok { IfOk result (λ a. (r : Reading) → Follows progress r → IsLimited a (whole r)) }
    ensures err { IfErr result (λ e. (r : Reading) → Follows progress r → LimitedFails place r e) }
{
    match progress.built {
        Built::Whole(sides, _) => match reading::whole(alloc, sides)? {
            Some(a) => Ok(Limited::Whole(a)),
            None => Err(SynFault::Bad(place)),
        },
        Built::Deep => Ok(Limited::Deep),
        Built::Large => Ok(Limited::Large),
    }
}

/// Reads the address that begins at a place of a text and is as long as it can be, and answers what is built of it and
/// the place behind it.
///
/// `Bad` tells the first place at which no address that begins at the place goes on; that is the place itself where
/// none begins. `Nodes` and `Deep` are never answered.
pub fn addr_at(
    alloc: Global,
    text: &[Rune],
    from: usize,
) -> Result<(Limited<Addr>, usize), SynFault>
    requires { from ≤ length text.now }
    ensures read { IfOk result (λ a. IsReadAt text.now from a.0 a.1) }
    ensures refused { IfErr result (FailsFrom text.now from) }
{
    let mut progress = reading::begin();
    let mut at = from;
    while at < text.len() && begins_piece(text[at]) {
        let (next, end) = step(alloc, text, at, progress)?;
        progress = next;
        at = end;
    }
    Ok((in_limits(alloc, progress, at)?, at))
}
