//! What a search by rows finds, forward and backward.

ghost use Rattle.std.specs.Prelude.{◌≡◌, ◌≤◌, length, IfOk};
ghost use Rattle.re_syntax.specs.Tree.{Tree};
ghost use Rattle.re_sets.specs.Readings.{mirrored};
ghost use Rattle.re_sets.specs.Tables.{IsTable};
ghost use Rattle.re_sets.specs.Searches.{from_end, found_from_end};
ghost use Rattle.re_machine.specs.Whole.{table_of, IsWhole};
ghost use Rattle.re_machine.specs.Found.{FindsFirst, FindsLast};

use crate::bounds::Bounds;
use crate::search::search;
use crate::set::LetterSet;
use crate::tables::Tables;
use crate::way::Way;
use am_text::{Letters, NoMemory, Range};
use std::alloc::Global;

// A place counted from the end of a text of so many runes. None stays none, and so does one that isn't in the text.
fn from_end(count: usize, place: Option<usize>) -> Option<usize>
    ensures { result ≡ from_end count place }
{
    match place {
        Some(p) => { if p <= count { Some(count - p) } else { None } }
        None => None,
    }
}

// A range counted from the end of a text of so many runes.
fn found_from_end(count: usize, found: Option<Range>) -> Option<Range>
    ensures { result ≡ found_from_end count found }
{
    match found {
        Some(b) => Some(Range {
            q0: count.saturating_sub(b.q1),
            q1: count.saturating_sub(b.q0),
        }),
        None => None,
    }
}

/// The match that begins first, and of those the longest.
pub fn search_on<T: Letters, S: LetterSet>(
    alloc: Global,
    tables: &Tables<S>,
    text: &T,
    from: usize,
    end: usize,
    no_null: Option<usize>,
) -> Result<Option<Range>, NoMemory>
    requires whole { IsWhole S.bits S.SIZE tables.now }
    requires order { from ≤ end }
    requires within { end ≤ length (T.letters text.now) }
    ensures { IfOk result (λ answer. (r : Tree) → IsTable r (table_of S.bits S.SIZE tables.now)
        → FindsFirst r (T.letters text.now) from end no_null answer) }
{
    let bounds = Bounds {
        low: from,
        high: end,
        no_null,
    };
    let found = search(alloc, tables, text, Way::On, bounds)?;
    Ok(found)
}

/// The match that ends last, and of those the longest, by the tables of the mirrored tree.
pub fn search_back<T: Letters, S: LetterSet>(
    alloc: Global,
    tables: &Tables<S>,
    text: &T,
    start: usize,
    to: usize,
    no_null: Option<usize>,
) -> Result<Option<Range>, NoMemory>
    requires whole { IsWhole S.bits S.SIZE tables.now }
    requires order { start ≤ to }
    requires within { to ≤ length (T.letters text.now) }
    ensures { IfOk result (λ answer. (r : Tree) → IsTable (mirrored r) (table_of S.bits S.SIZE tables.now)
        → FindsLast r (T.letters text.now) start to no_null answer) }
{
    let count = text.len();
    let bounds = Bounds {
        low: count - to,
        high: count - start,
        no_null: from_end(count, no_null),
    };
    let found = search(alloc, tables, text, Way::Back, bounds)?;
    Ok(found_from_end(count, found))
}
