//! The rows of a search, and how they go over a rune.

ghost use Rattle.std.specs.Prelude.{◌≡◌, ◌++◌, [], List, length, map, bit_and, bit_or, slice_index, true, IfOk, OnOk};
ghost use Rattle.std.specs.Prelude.{IsSome};
ghost use Rattle.re_sets.specs.Rows.{Row, seen_at, ended, solid, parted, move_rows, new_row};
ghost use Rattle.re_sets.specs.Tables.{meet, join_rows, take_away};
ghost use Rattle.re_machine.specs.Threads.{EndsAt, rows_of, one_row, seen_of, move_by, begin_by};

use crate::contexts::Context;
use crate::fill::join;
use crate::set::{LetterSet, meets};
use am_text::{NoMemory, Range};
use std::alloc::Global;

/// A place where matches may begin, and the letters by which they came here.
#[derive(Clone, Copy)]
pub struct Thread<S> {
    pub start: usize,
    pub set: S,
}

/// What a search knows at a place: its rows, those that begin first before the others, and the best match so far.
#[derive(Drop)]
pub struct Threads<S> {
    pub rows: Vec<Thread<S>>,
    pub spare: Vec<Thread<S>>,
    pub best: Option<Range>,
    /// Up to this place the first row was followed alone.
    pub led: usize,
}

// The number of the first row at whose letters a match may end.
fn ended<S: LetterSet>(rows: &[Thread<S>], last: S) -> Option<usize>
    ensures { EndsAt S.bits (λ x. meet S.SIZE x (S.bits last)) rows.now result }
{
    for n in 0..rows.len() {
        if meets(rows[n].set, last) {
            return Some(n);
        }
    }
    None
}

// Puts a row at the end where it has a letter.
fn put<S: LetterSet>(rows: &mut Vec<Thread<S>>, start: usize, set: S) -> Result<(), NoMemory>
    ensures { OnOk result (rows_of S.bits rows.new.items ≡ rows_of S.bits rows.old.items
        ++ solid (one_row start (S.bits set))) }
{
    if !set.is_none() {
        rows.push(Thread { start, set })?;
    }
    Ok(())
}

// The rows after one rune more, where each letter stays in the first row that has it. Answers all letters of the rows.
fn advance<S: LetterSet>(
    context: &Context<S>,
    takes: S,
    rows: &[Thread<S>],
    next: &mut Vec<Thread<S>>,
) -> Result<S, NoMemory>
    requires { next.old.items ≡ [] }
    ensures { IfOk result (λ seen. (more : List Row) → rows_of S.bits next.new.items
        ++ solid (parted take_away bit_or more (S.bits seen)) ≡ solid
        (parted take_away bit_or (move_rows (move_by S.bits S.SIZE context.now (S.bits takes)) (rows_of S.bits rows.now)
        ++ more) 0)) }
{
    let mut seen = S::none();
    for row in rows {
        let set = join(context.follow.as_slice(), row.set).both(takes);
        put(next, row.start, set.minus(seen))?;
        seen = seen.union(set);
    }
    Ok(seen)
}

impl<S: LetterSet> Threads<S> {
    /// Nothing is known yet.
    pub fn new(alloc: Global) -> Threads<S>
        ensures rows { rows_of S.bits result.rows.items ≡ [] }
        ensures best { result.best ≡ None }
    {
        Threads {
            rows: Vec::new(alloc),
            spare: Vec::new(alloc),
            best: None,
            led: 0,
        }
    }

    /// Takes the matches that end at a place into account, also the null one where it counts. Answers whether a row
    /// may begin there.
    pub fn see(&mut self, k: usize, null: bool, last: S) -> bool
        ensures { seen_of S.bits self.new result ≡ seen_at k null (rows_of S.bits self.old.rows.items) self.old.best
            (ended (λ x. meet S.SIZE x (S.bits last)) (rows_of S.bits self.old.rows.items)) }
    {
        if let Some(n) = ended(self.rows.as_slice(), last) {
            self.best = Some(Range {
                q0: self.rows[n].start,
                q1: k,
            });
            self.rows.truncate(n + 1);
            return false;
        }
        if self.best.is_some() {
            return false;
        }
        if null {
            self.best = Some(Range { q0: k, q1: k });
        }
        true
    }

    /// Goes over a rune, which these letters take. A row begins at the place where it is said to.
    pub fn step(
        &mut self,
        context: &Context<S>,
        takes: S,
        k: usize,
        enters: bool,
    ) -> Result<(), NoMemory>
        ensures rows { OnOk result (rows_of S.bits self.new.rows.items
            ≡ solid (parted take_away bit_or (move_rows (move_by S.bits S.SIZE context.now (S.bits takes))
            (rows_of S.bits self.old.rows.items) ++ new_row enters k (begin_by S.bits context.now (S.bits takes))) 0)) }
        ensures best { OnOk result (self.new.best ≡ self.old.best) }
    {
        self.spare.clear();
        let seen = advance(context, takes, self.rows.as_slice(), &mut self.spare)?;
        if enters {
            put(&mut self.spare, k, context.first.both(takes).minus(seen))?;
        }
        std::mem::swap(&mut self.rows, &mut self.spare);
        Ok(())
    }

    /// Whether the best match is the answer: no row is left that could find another one.
    pub fn is_over(&self) -> bool
        ensures over { result ≡ true → rows_of S.bits self.now.rows.items ≡ [] }
        ensures found { result ≡ true → IsSome self.now.best }
    {
        self.rows.is_empty() && self.best.is_some()
    }

    /// Whether nothing is known: there are no rows and no match.
    pub fn is_idle(&self) -> bool
        ensures rows { result ≡ true → rows_of S.bits self.now.rows.items ≡ [] }
        ensures best { result ≡ true → self.now.best ≡ None }
    {
        self.rows.is_empty() && self.best.is_none()
    }
}
