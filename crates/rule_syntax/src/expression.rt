//! Which texts are expressions.

ghost use Rattle.std.specs.Prelude.{◌≡◌, IfOk, IfSome};
ghost use Rattle.rule_syntax.specs.Edged.{AreEdges};
ghost use Rattle.rule_syntax.specs.Expressions.{parsed_fit, parsed_edges, size_fit, size_of};

use crate::fit::Fit;
use am_text::{NoMemory, Rune};
use re_edges::Edges;
use re_syntax::{Re, ReFault, parse_re};
use std::alloc::Global;

/// How an argument fits its verb, and the edges of the expression that it is, where it is one without variables.
#[derive(Drop)]
pub struct Judged {
    pub fit: Fit,
    pub edges: Option<Edges>,
}

// How a text fits by what parsing answers.
fn parsed_fit(parsed: &Result<(Re, usize), ReFault>) -> Result<Fit, NoMemory>
    ensures { result ≡ parsed_fit parsed.now }
{
    match parsed {
        Ok(_) => Ok(Fit::Fits),
        Err(ReFault::Nodes) => Ok(Fit::TooLarge),
        Err(ReFault::Bad(_)) => Ok(Fit::Unfit),
        Err(ReFault::NoMemory) => Err(NoMemory),
    }
}

// The edges of the expression that was parsed.
fn parsed_edges(
    alloc: Global,
    parsed: &Result<(Re, usize), ReFault>,
) -> Result<Option<Edges>, NoMemory>
    ensures { IfOk result (λ edges. edges ≡ parsed_edges parsed.now) }
{
    match parsed {
        Ok((re, _)) => Ok(Some(Edges::build(alloc, re)?)),
        Err(_) => Ok(None),
    }
}

/// How a text fits as an expression, and the edges of that.
pub(crate) fn expression_judged(alloc: Global, text: &[Rune]) -> Result<Judged, NoMemory>
    ensures fit { IfOk result (λ judged. judged.fit ≡ size_fit (size_of text.now)) }
    ensures edges { IfOk result (λ judged. IfSome judged.edges (AreEdges text.now)) }
{
    let parsed = parse_re(alloc, text, 0, None);
    let fit = parsed_fit(&parsed)?;
    let edges = parsed_edges(alloc, &parsed)?;
    Ok(Judged { fit, edges })
}
