//! A search that has one row.

ghost use Rattle.std.specs.Prelude.{◌≡◌, ◌<◌, ◌≤◌, ◌==◌, ◌&&◌, ◌||◌, ℕ, Option, None, not, true, length, IfSome};
ghost use Rattle.std.specs.Option.{is_none};
ghost use Rattle.am_text.specs.declared.range.Range.{Range};
ghost use Rattle.re_syntax.specs.Tree.{Tree};
ghost use Rattle.re_sets.specs.Tables.{IsTable, meet, take_away};
ghost use Rattle.re_sets.specs.Searches.{Known, Followed, Reached};
ghost use Rattle.re_machine.specs.Ways.{reading};
ghost use Rattle.re_machine.specs.Whole.{table_of, IsWhole};
ghost use Rattle.re_machine.specs.Threads.{rows_of, one_row, begin_by, IsAlone};

use crate::bounds::{Bounds, Cursor};
use crate::contexts::Context;
use crate::fill::join;
use crate::rows::Threads;
use crate::set::{LetterSet, meets};
use crate::tables::Tables;
use crate::way::{Way, rune_at};
use am_text::{Letters, Range};

/// The letters of the one row, and whether no match was found yet.
#[derive(Clone, Copy)]
pub struct Lone<S> {
    pub set: S,
    pub is_idle: bool,
}

// Whether a match ends here: one of the row, or the null one.
fn ends<S: LetterSet>(context: &Context<S>, lone: Lone<S>) -> bool
    ensures { result ≡ (meet S.SIZE (S.bits lone.set) (S.bits context.now.last) || (lone.is_idle && context.now.null)) }
{
    meets(lone.set, context.last) || (lone.is_idle && context.null)
}

// Whether another row begins here.
fn begins<S: LetterSet>(context: &Context<S>, takes: S, next: S, is_idle: bool) -> bool
    ensures { result ≡ (is_idle && not (take_away (begin_by S.bits context.now (S.bits takes)) (S.bits next) == 0)) }
{
    is_idle && !context.first.both(takes).minus(next).is_none()
}

// The letters to which the row comes over a rune, where nothing ends or begins here and it comes to some.
fn alone<S: LetterSet>(context: &Context<S>, takes: S, lone: Lone<S>) -> Option<S>
    ensures { IfSome result (λ next. IsAlone S.bits S.SIZE context.now (S.bits takes) (S.bits lone.set) lone.is_idle
        (S.bits next)) }
{
    if ends(context, lone) {
        return None;
    }
    let next = join(context.follow.as_slice(), lone.set).both(takes);
    if next.is_none() {
        return None;
    }
    if begins(context, takes, next, lone.is_idle) {
        return None;
    }
    Some(next)
}

// Over the runes of a range as long as the row stays alone: the place to which it comes, and its letters there.
fn stay_alone<T: Letters, S: LetterSet>(
    tables: &Tables<S>,
    text: &T,
    way: Way,
    lone: Lone<S>,
    range: Range,
) -> (usize, S)
    requires whole { IsWhole S.bits S.SIZE tables.now }
    requires order { range.q0 ≤ range.q1 }
    requires within { range.q1 ≤ length (T.letters text.now) }
    ensures above { range.q0 ≤ result.0 }
    ensures below { result.0 ≤ range.q1 }
    ensures known { (r : Tree) (no_null : Option ℕ) (low start : ℕ) (best : Option Range)
        → IsTable r (table_of S.bits S.SIZE tables.now) → low ≤ range.q0 → lone.is_idle ≡ is_none best
        → Known r (reading way (T.letters text.now)) no_null low range.q0 (one_row start (S.bits lone.set)) best
        → Known r (reading way (T.letters text.now)) no_null low result.0 (one_row start (S.bits result.1)) best }
{
    let is_idle = lone.is_idle;
    let mut set = lone.set;
    for at in range.q0..range.q1 {
        let context = tables.context(text, way, at);
        let takes = tables.takes(rune_at(text, way, at));
        let Some(next) = alone(context, takes, Lone { set, is_idle }) else {
            return (at, set);
        };
        set = next;
    }
    (range.q1, set)
}

/// Over the runes at which there is one row and nothing ends or begins.
pub fn glide<T: Letters, S: LetterSet>(
    tables: &Tables<S>,
    text: &T,
    threads: &mut Threads<S>,
    cursor: Cursor,
    bounds: Bounds,
) -> usize
    requires whole { IsWhole S.bits S.SIZE tables.now }
    requires low { bounds.low ≤ cursor.at }
    requires order { cursor.at ≤ bounds.high }
    requires within { bounds.high ≤ length (T.letters text.now) }
    ensures above { cursor.at ≤ result }
    ensures below { result ≤ bounds.high }
    ensures known { (r : Tree) → IsTable r (table_of S.bits S.SIZE tables.now)
        → Known r (reading cursor.way (T.letters text.now)) bounds.no_null bounds.low cursor.at
        (rows_of S.bits threads.old.rows.items) threads.old.best → Known r (reading cursor.way (T.letters text.now))
        bounds.no_null bounds.low result (rows_of S.bits threads.new.rows.items) threads.new.best }
{
    if threads.rows.len() != 1 {
        return cursor.at;
    }
    let range = Range {
        q0: cursor.at,
        q1: bounds.high,
    };
    let lone = Lone {
        set: threads.rows[0].set,
        is_idle: threads.best.is_none(),
    };
    let (at, set) = stay_alone(tables, text, cursor.way, lone, range);
    let row = &mut threads.rows[0];
    row.set = set;
    at
}

// Over the runes of a range by one row alone, whatever begins beside it: the place where it has no letters left or a
// match of it ends, and where one ends its letters there.
fn follow_alone<T: Letters, S: LetterSet>(
    tables: &Tables<S>,
    text: &T,
    way: Way,
    first: S,
    range: Range,
) -> (usize, Option<S>)
    requires whole { IsWhole S.bits S.SIZE tables.now }
    requires order { range.q0 ≤ range.q1 }
    requires within { range.q1 ≤ length (T.letters text.now) }
    ensures above { range.q0 ≤ result.0 }
    ensures below { result.0 ≤ range.q1 }
    ensures ends { IfSome result.1 (λ set. meet S.SIZE (S.bits set)
        ((table_of S.bits S.SIZE tables.now).last ((reading way (T.letters text.now)).here result.0)) ≡ true) }
    ensures known { IfSome result.1 (λ set. (r : Tree) (no_null : Option ℕ) (low start : ℕ)
        → IsTable r (table_of S.bits S.SIZE tables.now) → Followed r (reading way (T.letters text.now)) no_null low
        range.q0 start (S.bits first) → Followed r (reading way (T.letters text.now)) no_null low result.0 start
        (S.bits set)) }
{
    let mut set = first;
    for at in range.q0..range.q1 {
        let context = tables.context(text, way, at);
        if meets(set, context.last) {
            return (at, Some(set));
        }
        let takes = tables.takes(rune_at(text, way, at));
        set = join(context.follow.as_slice(), set).both(takes);
        if set.is_none() {
            return (at, None);
        }
    }
    let context = tables.context(text, way, range.q1);
    if meets(set, context.last) {
        return (range.q1, Some(set));
    }
    (range.q1, None)
}

// Whether there is one row and no match, and its row wasn't followed alone beyond this place yet.
fn may_lead<S: LetterSet>(threads: &Threads<S>, k: usize) -> bool
    ensures one { result ≡ true → length threads.now.rows.items ≡ 1 }
    ensures none { result ≡ true → threads.now.best ≡ None }
{
    threads.rows.len() == 1 && threads.best.is_none() && k > threads.led
}

/// Over the runes up to the end of a match of the one row, where others begin at this place: its match goes before
/// theirs, so they needn't be kept unless it has none. No place is so passed twice.
pub fn lead<T: Letters, S: LetterSet>(
    tables: &Tables<S>,
    text: &T,
    threads: &mut Threads<S>,
    cursor: Cursor,
    bounds: Bounds,
) -> usize
    requires whole { IsWhole S.bits S.SIZE tables.now }
    requires order { cursor.at ≤ bounds.high }
    requires within { bounds.high ≤ length (T.letters text.now) }
    ensures above { cursor.at ≤ result }
    ensures below { result ≤ bounds.high }
    ensures reached { (r : Tree) → IsTable r (table_of S.bits S.SIZE tables.now)
        → Known r (reading cursor.way (T.letters text.now)) bounds.no_null bounds.low cursor.at
        (rows_of S.bits threads.old.rows.items) threads.old.best → Reached r (table_of S.bits S.SIZE tables.now)
        (reading cursor.way (T.letters text.now)) bounds.no_null bounds.low result
        (rows_of S.bits threads.new.rows.items) threads.new.best }
{
    if cursor.at == bounds.high {
        return cursor.at;
    }
    if !may_lead(threads, cursor.at) {
        return cursor.at;
    }
    if !tables.may_begin(rune_at(text, cursor.way, cursor.at)) {
        return cursor.at;
    }
    let range = Range {
        q0: cursor.at,
        q1: bounds.high,
    };
    let (at, ends) = follow_alone(tables, text, cursor.way, threads.rows[0].set, range);
    threads.led = at;
    let Some(set) = ends else {
        return cursor.at;
    };
    let row = &mut threads.rows[0];
    row.set = set;
    at
}
