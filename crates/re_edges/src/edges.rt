//! The edges of an expression.

ghost use Rattle.std.specs.Prelude.{◌≡◌, IfOk};
ghost use Rattle.re_syntax.specs.Tree.{tree};
ghost use Rattle.re_edges.specs.Edges.{edges_of, may_be_whole};

use crate::runes::RuneSet;
use crate::steps::{Side, put_runes};
use am_text::{NoMemory, Rune};
use re_syntax::Re;
use std::alloc::Global;

/// What the matches of an expression look like at their edges.
pub struct Edges {
    /// Whether the null text may be a match.
    pub null: bool,
    /// The runes with which a match may begin.
    pub first: RuneSet,
    /// The runes with which a match may end.
    pub last: RuneSet,
}

// By hand, so that a crate that drops edges goes by this drop, and has not to prove those of all that is in them.
impl Drop for Edges {
    fn drop(self) {
        let Edges {
            null: _,
            first: _,
            last: _,
        } = self;
    }
}

impl Edges {
    /// The edges of an expression.
    pub fn build(alloc: Global, re: &Re) -> Result<Edges, NoMemory>
        ensures { IfOk result (λ edges. edges ≡ edges_of (tree re.now)) }
    {
        let mut first = RuneSet::new(alloc);
        let mut last = RuneSet::new(alloc);
        put_runes(alloc, &mut first, re, Side::First)?;
        let null = put_runes(alloc, &mut last, re, Side::Last)?;
        Ok(Edges { null, first, last })
    }

    /// Whether a whole text may be a match, by its first and its last rune.
    pub fn may_be_whole(&self, text: &[Rune]) -> bool
        ensures { result ≡ may_be_whole self.now text.now }
    {
        match text {
            [] => self.null,
            [first, rest @ ..] => self.first.has(*first) && self.last.has(text[rest.len()]),
        }
    }
}
