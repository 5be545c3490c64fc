//! The matches of a range one after another.

ghost use Rattle.std.specs.Prelude.{◌≡◌, ◌≤◌, length, IfOk};
ghost use Rattle.re_syntax.specs.Tree.{tree};
ghost use Rattle.re_spans.specs.Successive.{successive, AreInOrder};

use crate::choice::{Bounds, first_among, starts};
use crate::places::count_of;
use am_text::{Items, Letters, NoMemory, Range, Spans};
use re_syntax::Re;
use std::alloc::Global;

/// The matches from one place to another: the first of all, and then each the first from the end of the one before,
/// but not the null one there, until there is none.
///
/// One pass over the range says where matches begin, and serves all of them.
pub fn successive_matches<T: Letters>(
    alloc: Global,
    re: &Re,
    text: &T,
    from: usize,
    end: usize,
) -> Result<Spans, NoMemory>
    requires order { from ≤ end }
    requires within { end ≤ length (T.letters text.now) }
    ensures value { IfOk result (λ all. all ≡ successive (tree re.now) (T.letters text.now) from end) }
    ensures ordered { IfOk result (AreInOrder from end) }
{
    let starts = starts(alloc, re, text, from, end)?;
    let mut all = Items::new(alloc);
    let mut at = from;
    let mut no_null = None;
    for turn in 0..count_of(from, end)? {
        let bounds = Bounds {
            low: at,
            high: end,
            no_null,
        };
        let Some(found) = first_among(alloc, re, text, &starts, bounds)? else {
            return Ok(all);
        };
        all.push(found)?;
        at = found.q1;
        no_null = Some(at);
    }
    Ok(all)
}
