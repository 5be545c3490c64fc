//! The groups of a match.

ghost use Rattle.std.specs.Prelude.{◌≡◌, ◌<◌, ◌≤◌, ◌+◌, ◌*◌, ◌⊎◌, ◌∷◌, ℕ, [], length, IfOk, OnOk, IfSome, IfNone, None};
ghost use Rattle.std.specs.Prelude.{Some, List, Option, slice_set, IsTrue};
ghost use Rattle.re_syntax.specs.Tree.{tree, nodes};
ghost use Rattle.re_syntax.specs.Match.{Matches, Repeats, Joins};
ghost use Rattle.re_syntax.specs.Groups.{Sets, AreGroups, IsLongest, AheadBy, Walk, PlusWalk};
ghost use Rattle.am_text.specs.declared.range.Range.{Range};
ghost use Rattle.re_spans.specs.Places.{past};
ghost use Rattle.re_spans.specs.Pieces.{IsPiece, Past, AreStartsOf};
ghost use Rattle.re_spans.specs.Groups.{groups_of, span};
ghost use Rattle.re_spans.specs.Tasks.{IsMatchIn, AreSet, AreMatches, weight};
ghost use Rattle.re_spans.specs.declared.filling.Task.TheVariants.{Part};

use crate::choice::matches_span;
use crate::places::Places;
use crate::reach::{many, reach};
use crate::shapes::{is_repeated, leaf_length};
use crate::walk::farthest_among;
use crate::way::Way;
use am_text::{Items, Letters, NoMemory, Range};
use re_syntax::{Groups, Re};
use std::alloc::Global;
use std::collections::VecDeque;

// How many ranges a match has: its own, and those of nine groups.
const RANGES: usize = 10;

// Where the first of two parts ends, where it is as long as it can be.
fn first_part<T: Letters>(
    alloc: Global,
    a: &Re,
    b: &Re,
    text: &T,
    i: usize,
    j: usize,
) -> Result<usize, NoMemory>
    requires order { i ≤ j }
    requires within { j ≤ length (T.letters text.now) }
    requires joins { Joins (Matches (tree a.now) (T.letters text.now)) (Matches (tree b.now) (T.letters text.now)) i j }
    ensures { IfOk result (λ k. (i ≤ k) × (k ≤ j) × IsLongest (AheadBy 0 (Matches (tree a.now) (T.letters text.now)))
        (Matches (tree b.now) (T.letters text.now)) i j k) }
{
    let end = Places::one(alloc, i, j, j)?;
    let starts = reach(alloc, b, text, Way::Back, &end)?;
    let found = farthest_among(alloc, a, text, i, j, &starts, i)?;
    match found {
        Some(turns) => Ok(i + turns),
        None => unreachable!(),
    }
}

// The same, where one of the parts that is a leaf tells it.
fn seam<T: Letters>(
    alloc: Global,
    a: &Re,
    b: &Re,
    text: &T,
    i: usize,
    j: usize,
) -> Result<usize, NoMemory>
    requires order { i ≤ j }
    requires within { j ≤ length (T.letters text.now) }
    requires joins { Joins (Matches (tree a.now) (T.letters text.now)) (Matches (tree b.now) (T.letters text.now)) i j }
    ensures { IfOk result (λ k. (i ≤ k) × (k ≤ j) × IsLongest (AheadBy 0 (Matches (tree a.now) (T.letters text.now)))
        (Matches (tree b.now) (T.letters text.now)) i j k) }
{
    if let Some(count) = leaf_length(a) {
        return Ok(i + count);
    }
    if let Some(count) = leaf_length(b) {
        return Ok(j - count);
    }
    first_part(alloc, a, b, text, i, j)
}

// From which of the places from i to j any number of pieces lead to j.
fn rests<T: Letters>(
    alloc: Global,
    a: &Re,
    text: &T,
    i: usize,
    j: usize,
) -> Result<Places, NoMemory>
    requires order { i ≤ j }
    requires within { j ≤ length (T.letters text.now) }
    ensures low { IfOk result (λ set. set.low ≡ i) }
    ensures past { IfOk result (λ set. past set ≡ j + 1) }
    ensures starts { IfOk result (AreStartsOf (Repeats (Matches (tree a.now) (T.letters text.now))) i j) }
{
    let end = Places::one(alloc, i, j, j)?;
    let set = many(alloc, a, text, Way::Back, &end)?;
    Ok(set)
}

// Where the first of the pieces of a span ends, which is not below low, and is as long as it can be.
fn first_piece<T: Letters>(
    alloc: Global,
    a: &Re,
    text: &T,
    i: usize,
    j: usize,
    rests: &Places,
    low: usize,
) -> Result<usize, NoMemory>
    requires order { i ≤ j }
    requires within { j ≤ length (T.letters text.now) }
    requires low { rests.now.low ≤ i }
    requires past { j < past rests.now }
    requires rests { AreStartsOf (Repeats (Matches (tree a.now) (T.letters text.now))) i j rests.now }
    requires joins { Joins (Past low (Matches (tree a.now) (T.letters text.now)))
        (Repeats (Matches (tree a.now) (T.letters text.now))) i j }
    ensures { IfOk result (λ k. (i ≤ k) × (k ≤ j) × IsLongest (Past low (Matches (tree a.now) (T.letters text.now)))
        (Repeats (Matches (tree a.now) (T.letters text.now))) i j k) }
{
    let found = farthest_among(alloc, a, text, i, j, rests, low)?;
    match found {
        Some(turns) => Ok(i + turns),
        None => unreachable!(),
    }
}

// The last of the pieces that lead from i to j, each as long as it can be; `before` where there are none.
fn last_piece<T: Letters>(
    alloc: Global,
    a: &Re,
    text: &T,
    i: usize,
    j: usize,
    rests: &Places,
    before: Option<Range>,
) -> Result<Option<Range>, NoMemory>
    requires order { i ≤ j }
    requires within { j ≤ length (T.letters text.now) }
    requires low { rests.now.low ≤ i }
    requires past { j < past rests.now }
    requires rests { AreStartsOf (Repeats (Matches (tree a.now) (T.letters text.now))) i j rests.now }
    requires repeats { Repeats (Matches (tree a.now) (T.letters text.now)) i j }
    ensures walk { IfOk result (λ last. (n : ℕ) × Walk (Matches (tree a.now) (T.letters text.now)) n i j before last) }
    ensures piece { IfOk result (λ last. (last ≡ before) ⊎ IfSome last
        (IsPiece (Matches (tree a.now) (T.letters text.now)) j)) }
{
    let mut last = before;
    let mut at = i;
    while at < j {
        let k = first_piece(alloc, a, text, at, j, rests, at + 1)?;
        last = Some(Range { q0: at, q1: k });
        at = k;
    }
    Ok(last)
}

// The last piece of a star.
fn star_piece<T: Letters>(
    alloc: Global,
    a: &Re,
    text: &T,
    i: usize,
    j: usize,
) -> Result<Option<Range>, NoMemory>
    requires order { i ≤ j }
    requires within { j ≤ length (T.letters text.now) }
    requires repeats { Repeats (Matches (tree a.now) (T.letters text.now)) i j }
    ensures walk { IfOk result (λ last. (n : ℕ) × Walk (Matches (tree a.now) (T.letters text.now)) n i j None last) }
    ensures piece { IfOk result (λ last. IfSome last (IsPiece (Matches (tree a.now) (T.letters text.now)) j)) }
{
    if i < j && is_repeated(a) {
        return Ok(Some(Range { q0: i, q1: j }));
    }
    let rests = rests(alloc, a, text, i, j)?;
    last_piece(alloc, a, text, i, j, &rests, None)
}

// The last piece of a plus.
fn plus_piece<T: Letters>(
    alloc: Global,
    a: &Re,
    text: &T,
    i: usize,
    j: usize,
) -> Result<Range, NoMemory>
    requires order { i ≤ j }
    requires within { j ≤ length (T.letters text.now) }
    requires joins { Joins (Matches (tree a.now) (T.letters text.now))
        (Repeats (Matches (tree a.now) (T.letters text.now))) i j }
    ensures walk { IfOk result (λ last. PlusWalk (Matches (tree a.now) (T.letters text.now)) i j last) }
    ensures piece { IfOk result (IsPiece (Matches (tree a.now) (T.letters text.now)) j) }
{
    if i < j && is_repeated(a) {
        return Ok(Range { q0: i, q1: j });
    }
    let rests = rests(alloc, a, text, i, j)?;
    let k = first_piece(alloc, a, text, i, j, &rests, i)?;
    let first = Range { q0: i, q1: k };
    match last_piece(alloc, a, text, k, j, &rests, Some(first))? {
        Some(last) => Ok(last),
        None => unreachable!(),
    }
}

/// What is left to be done for the groups of a match.
#[derive(Clone, Copy)]
pub enum Task<'a> {
    /// A part sets its groups in its match.
    Part(&'a Re, Range),
    /// A group has its range.
    Own(u32, Range),
}

// A part in its match.
fn put_part<'a>(
    re: &'a Re,
    i: usize,
    j: usize,
    rest: &mut VecDeque<Task<'a>>,
) -> Result<(), NoMemory>
    ensures { OnOk result (rest.new.items ≡ Part re.entry (span i j) ∷ rest.old.items) }
{
    rest.push_front(Task::Part(re, Range { q0: i, q1: j }))?;
    Ok(())
}

// The parts of a part, each in its match.
fn put_parts<'a, T: Letters>(
    alloc: Global,
    re: &'a Re,
    text: &T,
    found: Range,
    rest: &mut VecDeque<Task<'a>>,
) -> Result<(), NoMemory>
    requires { IsMatchIn (tree re.now) (T.letters text.now) found }
    ensures sets { OnOk result ((old new : List (Option Range)) → AreSet (T.letters text.now) rest.new.items old new
        → AreSet (T.letters text.now) (Part re.entry found ∷ rest.old.items) old new) }
    ensures matches { OnOk result (AreMatches (T.letters text.now) rest.old.items
        → AreMatches (T.letters text.now) rest.new.items) }
    ensures fewer { OnOk result (weight rest.new.items < weight rest.old.items + 2 * nodes (tree re.now)) }
{
    let (i, j) = (found.q0, found.q1);
    match re {
        Re::Lit(_) => Ok(()),
        Re::Any => Ok(()),
        Re::Class { .. } => Ok(()),
        Re::Start => Ok(()),
        Re::End => Ok(()),
        Re::Cat(a, b) => {
            let k = seam(alloc, a, b, text, i, j)?;
            put_part(b, k, j, rest)?;
            put_part(a, i, k, rest)
        }
        Re::Alt(a, b) => {
            if matches_span(alloc, a, text, i, j)? {
                put_part(a, i, j, rest)
            } else {
                put_part(b, i, j, rest)
            }
        }
        Re::Star(a) => match star_piece(alloc, a, text, i, j)? {
            Some(last) => put_part(a, last.q0, last.q1, rest),
            None => Ok(()),
        },
        Re::Plus(a) => {
            let last = plus_piece(alloc, a, text, i, j)?;
            put_part(a, last.q0, last.q1, rest)?;
            Ok(())
        }
        Re::Opt(a) => {
            if i < j || matches_span(alloc, a, text, i, j)? {
                put_part(a, i, j, rest)
            } else {
                Ok(())
            }
        }
        Re::Group(n, a) => {
            rest.push_front(Task::Own(*n, found))?;
            put_part(a, i, j, rest)
        }
    }
}

// A group has its range.
fn put_own(groups: &mut [Option<Range>], n: u32, found: Range)
    ensures { groups.new ≡ slice_set groups.old n (Some found) }
{
    let n = n as usize;
    if n < groups.len() {
        groups[n] = Some(found);
    }
}

// Does what is next.
fn do_task<'a, T: Letters>(
    alloc: Global,
    text: &T,
    task: Task<'a>,
    rest: &mut VecDeque<Task<'a>>,
    groups: &mut [Option<Range>],
) -> Result<(), NoMemory>
    requires { AreMatches (T.letters text.now) (task ∷ rest.old.items) }
    ensures sets { OnOk result ((new : List (Option Range)) → AreSet (T.letters text.now) rest.new.items groups.new new
        → AreSet (T.letters text.now) (task.entry ∷ rest.old.items) groups.old new) }
    ensures matches { OnOk result (AreMatches (T.letters text.now) rest.new.items) }
    ensures fewer { OnOk result (weight rest.new.items < weight (task.entry ∷ rest.old.items)) }
{
    match task {
        Task::Part(re, found) => put_parts(alloc, re, text, found, rest),
        Task::Own(n, found) => {
            put_own(groups, n, found);
            Ok(())
        }
    }
}

// Sets the groups of a match.
fn fill<T: Letters>(
    alloc: Global,
    re: &Re,
    text: &T,
    found: Range,
    groups: &mut [Option<Range>],
) -> Result<(), NoMemory>
    requires { IsMatchIn (tree re.now) (T.letters text.now) found }
    ensures { OnOk result (Sets (tree re.now) (T.letters text.now) found.q0 found.q1 groups.old groups.new) }
{
    let mut rest = VecDeque::new(alloc);
    rest.push_front(Task::Part(re, found))?;
    'tasks: while let Some(task) = rest.pop_front() {
        do_task(alloc, text, task, &mut rest, groups)?;
    }
    Ok(())
}

// The ranges of a match, all at once.
fn ten_ranges<T: Letters>(alloc: Global, re: &Re, text: &T, span: Range) -> Result<Groups, NoMemory>
    requires order { span.q0 ≤ span.q1 }
    requires within { span.q1 ≤ length (T.letters text.now) }
    requires matches { Matches (tree re.now) (T.letters text.now) span.q0 span.q1 }
    ensures { IfOk result (AreGroups (tree re.now) (T.letters text.now) span) }
{
    let mut all = vec![in alloc; None; RANGES]?;
    fill(alloc, re, text, span, all.as_mut_slice())?;
    all[0] = Some(span);
    Ok(Items::from_vec(all))
}

/// The ten ranges of a match: the span itself, and those of the groups from 1 to 9. A group that took no part has none.
pub fn groups<T: Letters>(alloc: Global, re: &Re, text: &T, span: Range) -> Result<Groups, NoMemory>
    requires order { span.q0 ≤ span.q1 }
    requires within { span.q1 ≤ length (T.letters text.now) }
    requires matches { Matches (tree re.now) (T.letters text.now) span.q0 span.q1 }
    ensures groups { IfOk result (AreGroups (tree re.now) (T.letters text.now) span) }
    // A match has one answer.
    ensures value { IfOk result (λ all. all ≡ groups_of (tree re.now) (T.letters text.now) span) }
{
    let all = ten_ranges(alloc, re, text, span)?;
    Ok(all)
}
