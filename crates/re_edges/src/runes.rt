//! Sets of runes.

ghost use Rattle.std.specs.Prelude.{◌≡◌, IfOk, OnOk};
ghost use Rattle.re_syntax.specs.Match.{is_in};
ghost use Rattle.re_edges.specs.Runes.{no_runes, has_rune, with_spans, with_every, with_class};

use am_text::{NoMemory, Rune};
use re_syntax::RuneSpans;
use std::alloc::Global;

/// A set of runes: those of some ranges, or every rune.
#[derive(Drop)]
pub struct RuneSet {
    /// Whether it has every rune.
    pub every: bool,
    /// Ranges of runes that it has.
    pub spans: RuneSpans,
}

fn is_in(spans: &[(Rune, Rune)], c: Rune) -> bool
    ensures { result ≡ is_in spans.now c }
{
    spans.iter().any(|s| s.0 <= c && c <= s.1)
}

impl RuneSet {
    /// No runes. It takes no memory.
    pub(crate) fn new(alloc: Global) -> RuneSet
        ensures { result ≡ no_runes }
    {
        RuneSet {
            every: false,
            spans: RuneSpans::new(alloc),
        }
    }

    /// Whether it has a rune.
    pub(crate) fn has(&self, c: Rune) -> bool
        ensures { result ≡ has_rune self.now c }
    {
        self.every || is_in(self.spans.as_slice(), c)
    }

    /// Puts the runes of some ranges.
    pub(crate) fn put_spans(&mut self, spans: &[(Rune, Rune)]) -> Result<(), NoMemory>
        ensures { OnOk result (self.new ≡ with_spans self.old spans.now) }
    {
        self.spans.append(spans)?;
        Ok(())
    }

    /// Puts every rune.
    pub(crate) fn put_every(&mut self)
        ensures { self.new ≡ with_every self.old }
    {
        self.every = true;
    }

    /// Puts the runes of a class. For those of the negation of one it puts every rune.
    pub(crate) fn put_class(&mut self, not: bool, spans: &RuneSpans) -> Result<(), NoMemory>
        ensures { OnOk result (self.new ≡ with_class not spans.now self.old) }
    {
        if not {
            self.put_every();
            return Ok(());
        }
        self.put_spans(spans.as_slice())
    }
}
