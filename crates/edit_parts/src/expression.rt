//! Reads the expressions of commands.

ghost use Rattle.std.specs.Prelude.{◌≡◌, ◌≤◌, ◌<◌, ◌+◌, length, IfOk, IfErr};
ghost use Rattle.re_syntax.specs.Tree.{tree};
ghost use Rattle.edit_parts.specs.Texts.{Quoted};
ghost use Rattle.edit_parts.specs.Pieces.{whole_lines, LoopsOver};
ghost use Rattle.edit_parts.specs.Read.{IsExpressionBy, QuotedFails, LoopFails, is_for_each};

use crate::kind::Loop;
use crate::scan::is_at;
use addr_syntax::{SynFault, expression};
use am_text::{NEWLINE, NoMemory, Rune, SLASH};
use re_syntax::Re;
use std::alloc::Global;

/// The expression `/re/`; `None` stands for one of more than 2,048 nodes.
pub fn quoted_expression(
    alloc: Global,
    text: &[Rune],
    from: usize,
) -> Result<(Option<Re>, usize), SynFault>
    requires { from ≤ length text.now }
    ensures ok { IfOk result (λ a. IsExpressionBy Quoted text.now from a.0 a.1) }
    ensures err { IfErr result (QuotedFails text.now from) }
{
    if !is_at(text, from, SLASH) {
        return Err(SynFault::Bad(from));
    }
    let (re, end) = expression(alloc, text, from + 1, SLASH)?;
    if end < text.len() {
        Ok((re, end + 1))
    } else {
        Err(SynFault::Bad(end))
    }
}

// The expression of whole lines, `.*` and a newline.
fn whole_lines(alloc: Global) -> Result<Re, NoMemory>
    ensures { IfOk result (λ re. tree re ≡ whole_lines) }
{
    let runes = Re::Star(Box::new(alloc, Re::Any)?);
    Ok(Re::Cat(Box::new(alloc, runes)?, Box::new(alloc, Re::Lit(NEWLINE))?))
}

// The loop over the matches, whose expression may be missing.
fn is_for_each(kind: Loop) -> bool
    ensures { result ≡ is_for_each kind }
{
    matches!(kind, Loop::ForEach)
}

/// The expression of a loop, behind its letter and blanks.
pub fn loop_expression(
    alloc: Global,
    text: &[Rune],
    from: usize,
    kind: Loop,
) -> Result<(Option<Re>, usize), SynFault>
    requires { from ≤ length text.now }
    ensures ok { IfOk result (λ a. IsExpressionBy (LoopsOver kind) text.now from a.0 a.1) }
    ensures err { IfErr result (LoopFails kind text.now from) }
{
    if is_for_each(kind) && !is_at(text, from, SLASH) {
        return Ok((Some(whole_lines(alloc)?), from));
    }
    quoted_expression(alloc, text, from)
}
