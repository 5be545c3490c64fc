//! Matches of whole texts.

ghost use Rattle.std.specs.Prelude.{◌≡◌, ◌↔◌, length, IfOk, IsTrue};
ghost use Rattle.re_syntax.specs.Match.{Matches};
ghost use Rattle.re_syntax.specs.Tree.{tree};
ghost use Rattle.plumb_rules.specs.Whole.{is_all};

use am_text::{NoMemory, Range, Runes};
use re_machine::Machine;
use re_spans::matches_span;
use re_syntax::Re;
use std::alloc::Global;

// In so short a text the places are told before a machine is made.
const SHORT: usize = 64;

// Whether the match is there and takes the text up to its end.
fn is_all(found: Option<Range>, end: usize) -> bool
    ensures { result ≡ is_all found end }
{
    match found {
        Some(range) => range.q0 == 0 && range.q1 == end,
        None => false,
    }
}

// The first match is the longest of those that begin with the text.
fn by_machine(alloc: Global, re: &Re, text: &Runes) -> Result<bool, NoMemory>
    ensures { IfOk result (λ yes. IsTrue yes ↔ Matches (tree re.now) text.now 0 (length text.now)) }
{
    let machine = Machine::build(alloc, re)?;
    let end = text.len();
    let found = machine.forward(alloc, text, 0, end, None)?;
    Ok(is_all(found, end))
}

fn by_places(alloc: Global, re: &Re, text: &Runes) -> Result<bool, NoMemory>
    ensures { IfOk result (λ yes. IsTrue yes ↔ Matches (tree re.now) text.now 0 (length text.now)) }
{
    let end = text.len();
    let yes = matches_span(alloc, re, text, 0, end)?;
    Ok(yes)
}

/// Whether an expression matches a whole text.
pub fn matches_all(alloc: Global, re: &Re, text: &Runes) -> Result<bool, NoMemory>
    ensures { IfOk result (λ yes. IsTrue yes ↔ Matches (tree re.now) text.now 0 (length text.now)) }
{
    if text.len() <= SHORT {
        by_places(alloc, re, text)
    } else {
        by_machine(alloc, re, text)
    }
}
