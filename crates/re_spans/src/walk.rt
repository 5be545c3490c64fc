//! How far the matches lead that begin or end at one place.

ghost use Rattle.std.specs.Prelude.{◌≡◌, ◌<◌, ◌≤◌, ◌+◌, ◌^◌, ℕ, length, IfOk, IfSome, IfNone, None, ◌&&◌, nat_le, ◌-◌};
ghost use Rattle.re_syntax.specs.Tree.{tree};
ghost use Rattle.re_syntax.specs.Match.{Matches};
ghost use Rattle.re_spans.specs.Turns.{place_at, StaysInside};
ghost use Rattle.re_spans.specs.Leaves.{read_at};
ghost use Rattle.re_spans.specs.Marks.{marks_of, step};
ghost use Rattle.re_spans.specs.Choice.{LeadsTo, UnlessNull, AmongThose, IsGreatestOf, HasNone, set_if};
ghost use Rattle.re_spans.specs.Places.{past, has};
ghost use Rattle.re_spans.specs.declared.way.Way.TheVariants.{On};

use crate::leaf::{here_at, read_at};
use crate::marks::{Mark, Marks, fresh};
use crate::places::Places;
use crate::way::{Way, place_at};
use am_text::{Letters, NoMemory};
use re_syntax::Re;
use std::alloc::Global;

/// So many places from one on, in the order of a search.
#[derive(Clone, Copy)]
pub struct Stretch {
    pub way: Way,
    pub at: usize,
    pub turns: usize,
}

/// Goes on from the end of a stretch to the next place, where the tree is entered at that end or not.
pub fn advance<T: Letters>(re: &Re, marks: &mut Marks, text: &T, so_far: Stretch, entered: bool)
    requires turn { so_far.turns + 1 < 2 ^ 64 }
    requires within { StaysInside so_far.way so_far.at (so_far.turns + 1) (length (T.letters text.now)) }
    ensures { marks_of marks.new ≡ step so_far.way (tree re.now) (read_at so_far.way (T.letters text.now)
        (place_at so_far.way so_far.at so_far.turns) (place_at so_far.way so_far.at (so_far.turns + 1))) entered
        (marks_of marks.old) }
{
    let _len = text.len();
    let here = place_at(so_far.way, so_far.at, so_far.turns);
    let next = place_at(so_far.way, so_far.at, so_far.turns + 1);
    let read = read_at(text, so_far.way, here, next);
    marks.step(re, so_far.way, read, entered);
}

fn set_if(best: Option<usize>, on: bool, d: usize) -> Option<usize>
    ensures { result ≡ set_if best on d }
{
    if on { Some(d) } else { best }
}

// The null match, where there is one and it counts.
fn null_match(mark: Mark, counts: bool) -> Option<usize>
    ensures { result ≡ set_if None (mark.null && counts) 0 }
{
    if mark.null && counts { Some(0) } else { None }
}

// The place is in the set, and isn't below low.
fn is_among(set: &Places, low: usize, place: usize) -> bool
    requires above { set.now.low ≤ place }
    requires below { place < past set.now }
    ensures { result ≡ (nat_le low place && has set.now place) }
{
    low <= place && set.has(place)
}

fn led_among(mark: Mark, set: &Places, low: usize, place: usize) -> bool
    requires above { set.now.low ≤ place }
    requires below { place < past set.now }
    ensures { result ≡ (mark.led && (nat_le low place && has set.now place)) }
{
    mark.led && is_among(set, low, place)
}

/// How many places the longest match leads, of those that begin where the stretch does and lead no further than it;
/// where skip holds, the null match doesn't count.
///
/// It comes to no place further than one to which some match can go on.
pub fn farthest<T: Letters>(
    alloc: Global,
    re: &Re,
    text: &T,
    stretch: Stretch,
    skip: bool,
) -> Result<Option<usize>, NoMemory>
    requires place { stretch.at ≤ length (T.letters text.now) }
    requires within { StaysInside stretch.way stretch.at stretch.turns (length (T.letters text.now)) }
    ensures some { IfOk result (λ found. IfSome found (IsGreatestOf
        (LeadsTo stretch.way (Matches (tree re.now) (T.letters text.now)) stretch.at (UnlessNull skip)) stretch.turns)) }
    ensures none { IfOk result (λ found. IfNone found (HasNone (LeadsTo stretch.way
        (Matches (tree re.now) (T.letters text.now)) stretch.at (UnlessNull skip)) stretch.turns)) }
{
    let mut marks = fresh(alloc, re, stretch.way, here_at(text, stretch.at))?;
    let mut best = null_match(marks.mark(), !skip);
    for turn in 0..stretch.turns {
        let so_far = Stretch {
            turns: turn,
            ..stretch
        };
        advance(re, &mut marks, text, so_far, turn == 0);
        if !marks.is_alive() {
            return Ok(best);
        }
        best = set_if(best, marks.mark().led, turn + 1);
    }
    Ok(best)
}

/// How many places the longest match leads from a place, of those that lead to a place of the set from low to high.
pub fn farthest_among<T: Letters>(
    alloc: Global,
    re: &Re,
    text: &T,
    at: usize,
    high: usize,
    set: &Places,
    low: usize,
) -> Result<Option<usize>, NoMemory>
    requires order { at ≤ high }
    requires within { high ≤ length (T.letters text.now) }
    requires above { set.now.low ≤ at }
    requires below { high < past set.now }
    ensures some { IfOk result (λ found. IfSome found (IsGreatestOf
        (LeadsTo On (Matches (tree re.now) (T.letters text.now)) at (AmongThose set.now low at)) (high - at))) }
    ensures none { IfOk result (λ found. IfNone found (HasNone (LeadsTo On (Matches (tree re.now) (T.letters text.now))
        at (AmongThose set.now low at)) (high - at))) }
{
    let mut marks = fresh(alloc, re, Way::On, here_at(text, at))?;
    let mut best = null_match(marks.mark(), is_among(set, low, at));
    for turn in 0..high - at {
        let stretch = Stretch {
            way: Way::On,
            at,
            turns: turn,
        };
        advance(re, &mut marks, text, stretch, turn == 0);
        if !marks.is_alive() {
            return Ok(best);
        }
        let ends = led_among(marks.mark(), set, low, at + (turn + 1));
        best = set_if(best, ends, turn + 1);
    }
    Ok(best)
}
