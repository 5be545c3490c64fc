//! The places that the matches of a tree lead to from others.

ghost use Rattle.std.specs.Prelude.{◌≡◌, ◌<◌, ◌≤◌, ◌+◌, length, IfOk};
ghost use Rattle.re_syntax.specs.Tree.{tree};
ghost use Rattle.re_syntax.specs.Match.{Matches, Repeats};
ghost use Rattle.re_spans.specs.Places.{past};
ghost use Rattle.re_spans.specs.Turns.{place_at, first};
ghost use Rattle.re_spans.specs.Leaves.{read_at};
ghost use Rattle.re_spans.specs.Marks.{marks_of, step};
ghost use Rattle.re_spans.specs.Reached.{AreReached, so_many, enters, leaves};

use crate::leaf::here_at;
use crate::marks::{Mark, Marks, fresh, passes};
use crate::places::Places;
use crate::walk::{Stretch, advance};
use crate::way::{Way, place_at};
use am_text::{Letters, NoMemory};
use re_syntax::Re;
use std::alloc::Global;

// Whether one match is taken, or any number of matches one after another.
#[derive(Clone, Copy)]
enum Times {
    Once,
    Often,
}

// Whether the tree is entered here, where the search begins here or not.
fn enters(times: Times, begun: bool, mark: Mark) -> bool
    ensures { result ≡ enters times begun mark }
{
    match times {
        Times::Once => begun,
        Times::Often => begun || mark.led,
    }
}

// Whether this place is reached.
fn leaves(times: Times, mark: Mark, entered: bool) -> bool
    ensures { result ≡ leaves times mark entered }
{
    match times {
        Times::Once => passes(mark, entered),
        Times::Often => entered,
    }
}

// Goes on to the place of the next turn, if there is one.
fn go_on<T: Letters>(
    re: &Re,
    marks: &mut Marks,
    text: &T,
    way: Way,
    from: &Places,
    turn: usize,
    entered: bool,
)
    requires turn { turn < length from.now.cells }
    requires within { past from.now ≤ length (T.letters text.now) + 1 }
    ensures { turn + 1 < length from.now.cells → marks_of marks.new ≡ step way (tree re.now)
        (read_at way (T.letters text.now) (place_at way (first way from.now) turn)
        (place_at way (first way from.now) (turn + 1))) entered (marks_of marks.old) }
{
    let _len = text.len();
    let count = from.count();
    if turn + 1 < count {
        let first = from.first(way);
        let so_far = Stretch {
            way,
            at: first,
            turns: turn,
        };
        advance(re, marks, text, so_far, entered);
    }
}

// The places that so many matches of the tree lead to. Each place is come to once, with the marks of all parts.
fn search<T: Letters>(
    alloc: Global,
    re: &Re,
    text: &T,
    way: Way,
    times: Times,
    from: &Places,
) -> Result<Places, NoMemory>
    requires some { 0 < length from.now.cells }
    requires within { past from.now ≤ length (T.letters text.now) + 1 }
    ensures low { IfOk result (λ out. out.low ≡ from.now.low) }
    ensures count { IfOk result (λ out. length out.cells ≡ length from.now.cells) }
    ensures places { IfOk result (λ out. AreReached way (so_many times (Matches (tree re.now) (T.letters text.now)))
        from.now out) }
{
    let _len = text.len();
    let first = from.first(way);
    let mut out = Places::none_of(alloc, from)?;
    let mut marks = fresh(alloc, re, way, here_at(text, first))?;
    for turn in 0..from.count() {
        let i = place_at(way, first, turn);
        let entered = enters(times, from.has(i), marks.mark());
        out.put_if(i, leaves(times, marks.mark(), entered));
        go_on(re, &mut marks, text, way, from, turn, entered);
    }
    Ok(out)
}

/// The places that matches of the tree lead to.
pub fn reach<T: Letters>(
    alloc: Global,
    re: &Re,
    text: &T,
    way: Way,
    from: &Places,
) -> Result<Places, NoMemory>
    requires some { 0 < length from.now.cells }
    requires within { past from.now ≤ length (T.letters text.now) + 1 }
    ensures low { IfOk result (λ out. out.low ≡ from.now.low) }
    ensures count { IfOk result (λ out. length out.cells ≡ length from.now.cells) }
    ensures places { IfOk result (λ out. AreReached way (Matches (tree re.now) (T.letters text.now)) from.now out) }
{
    search(alloc, re, text, way, Times::Once, from)
}

/// The places that any number of matches of the tree lead to.
pub fn many<T: Letters>(
    alloc: Global,
    re: &Re,
    text: &T,
    way: Way,
    from: &Places,
) -> Result<Places, NoMemory>
    requires some { 0 < length from.now.cells }
    requires within { past from.now ≤ length (T.letters text.now) + 1 }
    ensures low { IfOk result (λ out. out.low ≡ from.now.low) }
    ensures count { IfOk result (λ out. length out.cells ≡ length from.now.cells) }
    ensures places { IfOk result (λ out. AreReached way (Repeats (Matches (tree re.now) (T.letters text.now))) from.now
        out) }
{
    search(alloc, re, text, way, Times::Often, from)
}
