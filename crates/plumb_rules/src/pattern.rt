//! Patterns: the expression that a text is.

ghost use Rattle.std.specs.Prelude.{◌≡◌, IfOk};
ghost use Rattle.plumb_rules.specs.Patterns.{pattern_of, tree_in};

use am_text::{NoMemory, Rune};
use re_syntax::{Re, ReFault, parse_re};
use std::alloc::Global;

/// The pattern that a text is: an expression of at most 2,048 nodes.
pub fn pattern_of(alloc: Global, text: &[Rune]) -> Result<Option<Re>, NoMemory>
    ensures { IfOk result (λ found. tree_in found ≡ pattern_of text.now) }
{
    match parse_re(alloc, text, 0, None) {
        Ok((re, _)) => Ok(Some(re)),
        Err(ReFault::Bad(_)) => Ok(None),
        Err(ReFault::Nodes) => Ok(None),
        Err(ReFault::NoMemory) => Err(NoMemory),
    }
}
