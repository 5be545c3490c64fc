//! Reads a command.

ghost use Rattle.std.specs.Prelude.{◌≡◌, ◌<◌, length, IfOk, IfErr};
ghost use Rattle.edit_parts.specs.Tree.{command};
ghost use Rattle.sam_syntax.specs.Joined.{Reading};
ghost use Rattle.sam_syntax.specs.Grammar.{IsEdit};
ghost use Rattle.sam_syntax.specs.Answer.{IsInLimits, Refuses, Reaches};
ghost use Rattle.sam_syntax.specs.Read.{Follows};

use crate::position::after_kind;
use crate::progress::{self, Progress, join, position_of};
use am_text::Rune;
use edit_parts::{Cmd, SynFault, kind_of, token_at};
use std::alloc::Global;

// What is read with the token that begins at a place, and the place behind it.
fn step(
    alloc: Global,
    text: &[Rune],
    at: usize,
    progress: Progress,
) -> Result<(Progress, usize), SynFault>
    requires { at < length text.now }
    ensures on { IfOk result (λ a. at < a.1) }
    ensures ok { IfOk result (λ a. (r : Reading) → Reaches text.now at r → Follows progress r → (s : Reading)
        × Reaches text.now a.1 s × Follows a.0 s) }
    ensures err { IfErr result (λ e. (r : Reading) → Reaches text.now at r → Follows progress r → Refuses text.now e) }
{
    let Some(next) = after_kind(position_of(&progress), kind_of(text[at])) else {
        drop(progress);
        return Err(SynFault::Bad(at));
    };
    let (token, end) = match token_at(alloc, text, at) {
        Ok(read) => read,
        Err(fault) => {
            drop(progress);
            return Err(fault);
        }
    };
    match join(alloc, progress, token, next)? {
        Some(more) => Ok((more, end)),
        // never reached: `after_kind` has refused each piece that can't be joined
        None => Err(SynFault::Bad(at)),
    }
}

/// Reads a command of the Edit language, all of the text, as sam(1) has them; the delimiter is `/`.
///
/// `Bad` tells the first place at which no command goes on, or the end of a text that only stops short of one.
/// `Nodes` comes exactly where a text in the grammar has an expression of more than 2,048 nodes, and `Deep` exactly
/// where it has none and more than 32 levels (a block and each of `x y g v` is one) or an address of more than 1,024
/// operators.
pub fn parse_edit(alloc: Global, text: &[Rune]) -> Result<Cmd, SynFault>
    ensures read { IfOk result (λ c. IsEdit text.now (command c)) }
    ensures small { IfOk result (λ c. IsInLimits (command c)) }
    ensures refused { IfErr result (Refuses text.now) }
{
    let mut progress = progress::begin(alloc);
    let mut at = 0;
    while at < text.len() {
        let (next, end) = step(alloc, text, at, progress)?;
        progress = next;
        at = end;
    }
    progress::finish(alloc, progress, at)
}
