//! Matches of expressions: of a whole text, and at a click.

ghost use Rattle.std.specs.Prelude.{◌≡◌, length, IfOk, IfSome, IsTrue};
ghost use Rattle.re_spans.specs.Groups.{span};
ghost use Rattle.re_syntax.specs.Tree.{tree};
ghost use Rattle.plumb_rules.specs.Patterns.{is_whole, click_span, IsMatchIn};

use crate::whole::matches_all;
use am_text::{NoMemory, Range, Runes};
use re_spans::match_over;
use re_syntax::Re;
use std::alloc::Global;

/// Whether an expression matches a whole text.
pub fn is_whole(alloc: Global, re: &Re, text: &Runes) -> Result<bool, NoMemory>
    ensures value { IfOk result (λ yes. yes ≡ is_whole (tree re.now) text.now) }
    ensures inside { IfOk result (λ yes. IsTrue yes → IsMatchIn (tree re.now) text.now (span 0 (length text.now))) }
{
    let yes = matches_all(alloc, re, text)?;
    Ok(yes)
}

/// The match at a click: not null, from at most a place up to at least the place; of these the one that begins first,
/// and of those that begin there the longest. There is none past the text's end.
pub fn click_span(alloc: Global, re: &Re, text: &Runes, at: u64) -> Result<Option<Range>, NoMemory>
    ensures value { IfOk result (λ found. found ≡ click_span (tree re.now) text.now at) }
    ensures inside { IfOk result (λ found. IfSome found (IsMatchIn (tree re.now) text.now)) }
{
    let place = at as usize;
    if place > text.len() {
        return Ok(None);
    }
    let found = match_over(alloc, re, text, place)?;
    Ok(found)
}
