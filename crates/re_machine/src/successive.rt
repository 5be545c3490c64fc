//! The matches of a range one after another.

ghost use Rattle.std.specs.Prelude.{◌≡◌, ◌≤◌, ◌+◌, ◌-◌, length, IfOk};
ghost use Rattle.re_syntax.specs.Tree.{tree};
ghost use Rattle.re_spans.specs.Successive.{successive, AreInOrder};

use crate::machine::Machine;
use am_text::{Items, Letters, NoMemory, Spans};
use std::alloc::Global;

// How many places these are, the lowest and the highest among them.
fn count_of(low: usize, high: usize) -> Result<usize, NoMemory>
    requires { low ≤ high }
    ensures { IfOk result (λ count. count ≡ high + 1 - low) }
{
    match (high - low).checked_add(1) {
        Some(count) => Ok(count),
        None => Err(NoMemory),
    }
}

impl Machine {
    /// The matches from one place to another: the first of all, and then each the first from the end of the one
    /// before, but not the null one there, until there is none.
    pub fn successive<T: Letters>(
        &self,
        alloc: Global,
        text: &T,
        from: usize,
        end: usize,
    ) -> Result<Spans, NoMemory>
        requires order { from ≤ end }
        requires within { end ≤ length (T.letters text.now) }
        ensures value { IfOk result (λ all. all ≡ successive (tree self.now) (T.letters text.now) from end) }
        ensures ordered { IfOk result (AreInOrder from end) }
    {
        let mut all = Items::new(alloc);
        let mut at = from;
        let mut no_null = None;
        for turn in 0..count_of(from, end)? {
            let Some(found) = self.forward(alloc, text, at, end, no_null)? else {
                return Ok(all);
            };
            all.push(found)?;
            at = found.q1;
            no_null = Some(at);
        }
        Ok(all)
    }
}
