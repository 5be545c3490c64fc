//! The search by rows.

ghost use Rattle.std.specs.Prelude.{◌≡◌, ◌<◌, ◌≤◌, ◌==◌, ◌&&◌, ℕ, not, length, IfOk};
ghost use Rattle.re_syntax.specs.Tree.{Tree};
ghost use Rattle.re_spans.specs.Choice.{is_at};
ghost use Rattle.re_sets.specs.Tables.{IsTable};
ghost use Rattle.re_sets.specs.Searches.{FindsIn, Known};
ghost use Rattle.re_machine.specs.Ways.{reading};
ghost use Rattle.re_machine.specs.Contexts.{NoneBegins};
ghost use Rattle.re_machine.specs.Whole.{table_of, IsWhole};
ghost use Rattle.re_machine.specs.Threads.{rows_of};

use crate::alone::{glide, lead};
use crate::bounds::{Bounds, Cursor};
use crate::rows::Threads;
use crate::set::LetterSet;
use crate::tables::Tables;
use crate::way::{Way, rune_at};
use am_text::{Letters, NoMemory, Range};
use std::alloc::Global;

// The place, if there is one, is this.
fn is_at(place: Option<usize>, at: usize) -> bool
    ensures { result ≡ is_at place at }
{
    match place {
        Some(p) => p == at,
        None => false,
    }
}

// Whether a null match at a place counts.
fn counts(null: bool, no_null: Option<usize>, k: usize) -> bool
    ensures { result ≡ (null && not (is_at no_null k)) }
{
    null && !is_at(no_null, k)
}

// The next place with whose rune a match may begin.
fn next_begin<T: Letters, S: LetterSet>(
    tables: &Tables<S>,
    text: &T,
    way: Way,
    k: usize,
    high: usize,
) -> usize
    requires whole { IsWhole S.bits S.SIZE tables.now }
    requires order { k ≤ high }
    requires within { high ≤ length (T.letters text.now) }
    ensures above { k ≤ result }
    ensures below { result ≤ high }
    ensures over { (m : ℕ) → k ≤ m → m < result → NoneBegins (table_of S.bits S.SIZE tables.now)
        ((reading way (T.letters text.now)).rune m) }
{
    for at in k..high {
        if tables.may_begin(rune_at(text, way, at)) {
            return at;
        }
    }
    high
}

// Over the places at which no match begins, as long as nothing is known.
fn skip<T: Letters, S: LetterSet>(
    tables: &Tables<S>,
    text: &T,
    threads: &Threads<S>,
    cursor: Cursor,
    bounds: Bounds,
) -> usize
    requires whole { IsWhole S.bits S.SIZE tables.now }
    requires low { bounds.low ≤ cursor.at }
    requires order { cursor.at ≤ bounds.high }
    requires within { bounds.high ≤ length (T.letters text.now) }
    ensures above { cursor.at ≤ result }
    ensures below { result ≤ bounds.high }
    ensures known { (r : Tree) → IsTable r (table_of S.bits S.SIZE tables.now)
        → Known r (reading cursor.way (T.letters text.now)) bounds.no_null bounds.low cursor.at
        (rows_of S.bits threads.now.rows.items) threads.now.best → Known r (reading cursor.way (T.letters text.now))
        bounds.no_null bounds.low result (rows_of S.bits threads.now.rows.items) threads.now.best }
{
    if threads.is_idle() && !tables.is_ever_null() {
        return next_begin(tables, text, cursor.way, cursor.at, bounds.high);
    }
    cursor.at
}

/// The match that the tree of the tables has between two places: the one that begins first, as the text is read, and
/// of those the longest.
pub fn search<T: Letters, S: LetterSet>(
    alloc: Global,
    tables: &Tables<S>,
    text: &T,
    way: Way,
    bounds: Bounds,
) -> Result<Option<Range>, NoMemory>
    requires whole { IsWhole S.bits S.SIZE tables.now }
    requires order { bounds.low ≤ bounds.high }
    requires within { bounds.high ≤ length (T.letters text.now) }
    ensures { IfOk result (λ found. (r : Tree) → IsTable r (table_of S.bits S.SIZE tables.now)
        → FindsIn r (reading way (T.letters text.now)) bounds.no_null bounds.low bounds.high found) }
{
    let mut threads = Threads::new(alloc);
    let mut from = bounds.low;
    'places: loop {
        let begun = skip(tables, text, &threads, Cursor { way, at: from }, bounds);
        let at = glide(
            tables,
            text,
            &mut threads,
            Cursor { way, at: begun },
            bounds,
        );
        let k = lead(tables, text, &mut threads, Cursor { way, at }, bounds);
        let context = tables.context(text, way, k);
        let null = counts(context.null, bounds.no_null, k);
        let enters = threads.see(k, null, context.last);
        if k == bounds.high {
            return Ok(threads.best);
        }
        let takes = tables.takes(rune_at(text, way, k));
        threads.step(context, takes, k, enters)?;
        if threads.is_over() {
            return Ok(threads.best);
        }
        from = k + 1;
    }
}
