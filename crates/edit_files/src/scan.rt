//! Blanks, and expressions between `/`.

ghost use Rattle.std.specs.Prelude.{◌≡◌, ◌≤◌, ◌<◌, ◌+◌, length, drop, IfOk, IfErr};
ghost use Rattle.addr_syntax.specs.Marks.{next_of};
ghost use Rattle.edit_parts.specs.Kinds.{is_next};
ghost use Rattle.edit_parts.specs.Texts.{after_blanks, Quoted};
ghost use Rattle.edit_parts.specs.Read.{IsExpressionBy, QuotedFails};

use addr_syntax::expression;
use am_text::{Rune, SLASH, SPACE};
use edit_parts::SynFault;
use re_spans::Re;
use std::alloc::Global;

/// The place behind the blanks that begin at a place.
pub fn after_blanks(text: &[Rune], from: usize) -> usize
    requires { from ≤ length text.now }
    ensures order { from ≤ result }
    ensures within { result ≤ length text.now }
    ensures behind { drop result text.now ≡ after_blanks (drop from text.now) }
{
    for at in from..text.len() {
        if text[at] != SPACE {
            return at;
        }
    }
    text.len()
}

// Whether a rune stands at a place.
fn is_at(text: &[Rune], at: usize, c: Rune) -> bool
    requires { at ≤ length text.now }
    ensures { result ≡ is_next c (next_of (drop at text.now)) }
{
    at < text.len() && text[at] == c
}

/// The expression `/re/`; `None` stands for one of more than 2,048 nodes.
pub fn quoted_expression(
    alloc: Global,
    text: &[Rune],
    from: usize,
) -> Result<(Option<Re>, usize), SynFault>
    requires { from ≤ length text.now }
    ensures ok { IfOk result (λ a. IsExpressionBy Quoted text.now from a.0 a.1) }
    ensures err { IfErr result (QuotedFails text.now from) }
{
    if !is_at(text, from, SLASH) {
        return Err(SynFault::Bad(from));
    }
    let (re, end) = expression(alloc, text, from + 1, SLASH)?;
    if end < text.len() {
        Ok((re, end + 1))
    } else {
        Err(SynFault::Bad(end))
    }
}
