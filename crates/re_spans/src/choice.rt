//! Which of the matches is taken.

ghost use Rattle.std.specs.Prelude.{◌≡◌, ◌<◌, ◌≤◌, ◌+◌, ℕ, length, IfOk, IfSome, IfNone, IsTrue, ◌↔◌};
ghost use Rattle.re_syntax.specs.Tree.{tree};
ghost use Rattle.re_syntax.specs.Match.{Matches, IsFirst, IsLast, HasNoSpan};
ghost use Rattle.re_spans.specs.Places.{past};
ghost use Rattle.re_spans.specs.Choice.{is_at, IsAllowed, IsLongestFrom, IsLongestTo, HasStarts, HasEnds};
ghost use Rattle.re_spans.specs.Search.{first_span, last_span, IsBetween};

use crate::places::{Places, count_of};
use crate::reach::reach;
use crate::walk::{Stretch, farthest};
use crate::way::Way;
use am_text::{Letters, NoMemory, Range};
use re_syntax::Re;
use std::alloc::Global;

/// Where a match may lie: between two places, and it isn't the null one at a third.
#[derive(Clone, Copy)]
pub struct Bounds {
    pub low: usize,
    pub high: usize,
    pub no_null: Option<usize>,
}

fn is_at(place: Option<usize>, at: usize) -> bool
    ensures { result ≡ is_at place at }
{
    match place {
        Some(p) => p == at,
        None => false,
    }
}

/// The end of the longest match from i on that ends at high or before, but not the null one at no_null.
pub fn longest_from<T: Letters>(
    alloc: Global,
    re: &Re,
    text: &T,
    i: usize,
    high: usize,
    no_null: Option<usize>,
) -> Result<Option<usize>, NoMemory>
    requires order { i ≤ high }
    requires within { high ≤ length (T.letters text.now) }
    ensures some { IfOk result (λ answer. IfSome answer (IsLongestFrom (Matches (tree re.now) (T.letters text.now)) i
        high no_null)) }
    ensures none { IfOk result (λ answer. IfNone answer ((j : ℕ) → j ≤ high
        → Matches (tree re.now) (T.letters text.now) i j → IsAllowed no_null i j → ⊥)) }
{
    let stretch = Stretch {
        way: Way::On,
        at: i,
        turns: high - i,
    };
    let found = farthest(alloc, re, text, stretch, is_at(no_null, i))?;
    match found {
        Some(turns) => Ok(Some(i + turns)),
        None => Ok(None),
    }
}

// The beginning of the longest match up to j from low on, but not the null one at no_null.
fn longest_to<T: Letters>(
    alloc: Global,
    re: &Re,
    text: &T,
    low: usize,
    j: usize,
    no_null: Option<usize>,
) -> Result<Option<usize>, NoMemory>
    requires order { low ≤ j }
    requires within { j ≤ length (T.letters text.now) }
    ensures some { IfOk result (λ answer. IfSome answer (IsLongestTo (Matches (tree re.now) (T.letters text.now)) low j
        no_null)) }
    ensures none { IfOk result (λ answer. IfNone answer ((i : ℕ) → low ≤ i
        → Matches (tree re.now) (T.letters text.now) i j → IsAllowed no_null i j → ⊥)) }
{
    let stretch = Stretch {
        way: Way::Back,
        at: j,
        turns: j - low,
    };
    let found = farthest(alloc, re, text, stretch, is_at(no_null, j))?;
    match found {
        Some(turns) => Ok(Some(j - turns)),
        None => Ok(None),
    }
}

/// Whether the tree matches the text from i up to j.
pub fn matches_span<T: Letters>(
    alloc: Global,
    re: &Re,
    text: &T,
    i: usize,
    j: usize,
) -> Result<bool, NoMemory>
    requires order { i ≤ j }
    requires within { j ≤ length (T.letters text.now) }
    ensures { IfOk result (λ yes. IsTrue yes ↔ Matches (tree re.now) (T.letters text.now) i j) }
{
    let found = longest_from(alloc, re, text, i, j, None)?;
    match found {
        Some(end) => Ok(end == j),
        None => Ok(false),
    }
}

/// The places at which the matches begin that are inside these bounds.
pub fn starts<T: Letters>(
    alloc: Global,
    re: &Re,
    text: &T,
    from: usize,
    end: usize,
) -> Result<Places, NoMemory>
    requires order { from ≤ end }
    requires within { end ≤ length (T.letters text.now) }
    ensures low { IfOk result (λ set. set.low ≡ from) }
    ensures past { IfOk result (λ set. past set ≡ end + 1) }
    ensures starts { IfOk result (HasStarts (Matches (tree re.now) (T.letters text.now)) from end) }
{
    let ends = Places::all(alloc, from, end)?;
    let set = reach(alloc, re, text, Way::Back, &ends)?;
    Ok(set)
}

// The places at which the matches end that are inside these bounds.
fn ends<T: Letters>(
    alloc: Global,
    re: &Re,
    text: &T,
    start: usize,
    to: usize,
) -> Result<Places, NoMemory>
    requires order { start ≤ to }
    requires within { to ≤ length (T.letters text.now) }
    ensures low { IfOk result (λ set. set.low ≡ start) }
    ensures past { IfOk result (λ set. past set ≡ to + 1) }
    ensures ends { IfOk result (HasEnds (Matches (tree re.now) (T.letters text.now)) start to) }
{
    let starts = Places::all(alloc, start, to)?;
    let set = reach(alloc, re, text, Way::On, &starts)?;
    Ok(set)
}

// The match that begins first, and of those the longest. The set has each place at which one begins.
fn earliest<T: Letters>(
    alloc: Global,
    re: &Re,
    text: &T,
    starts: &Places,
    bounds: Bounds,
) -> Result<Option<Range>, NoMemory>
    requires order { bounds.low ≤ bounds.high }
    requires within { bounds.high ≤ length (T.letters text.now) }
    requires low { starts.now.low ≤ bounds.low }
    requires past { past starts.now ≡ bounds.high + 1 }
    requires starts { HasStarts (Matches (tree re.now) (T.letters text.now)) bounds.low bounds.high starts.now }
    ensures found { IfOk result (λ answer. IfSome answer (IsFirst (tree re.now) (T.letters text.now) bounds.low
        bounds.high bounds.no_null)) }
    ensures none { IfOk result (λ answer. IfNone answer (HasNoSpan (tree re.now) (T.letters text.now) bounds.low
        bounds.high bounds.no_null)) }
{
    let count = count_of(bounds.low, bounds.high)?;
    for n in 0..count {
        let i = bounds.low + n;
        if starts.has(i) {
            if let Some(j) = longest_from(alloc, re, text, i, bounds.high, bounds.no_null)? {
                return Ok(Some(Range { q0: i, q1: j }));
            }
        }
    }
    Ok(None)
}

// The match that ends last, and of those the longest.
fn latest<T: Letters>(
    alloc: Global,
    re: &Re,
    text: &T,
    bounds: Bounds,
) -> Result<Option<Range>, NoMemory>
    requires order { bounds.low ≤ bounds.high }
    requires within { bounds.high ≤ length (T.letters text.now) }
    ensures found { IfOk result (λ answer. IfSome answer (IsLast (tree re.now) (T.letters text.now) bounds.low
        bounds.high bounds.no_null)) }
    ensures none { IfOk result (λ answer. IfNone answer (HasNoSpan (tree re.now) (T.letters text.now) bounds.low
        bounds.high bounds.no_null)) }
{
    let ends = ends(alloc, re, text, bounds.low, bounds.high)?;
    let count = count_of(bounds.low, bounds.high)?;
    for n in 0..count {
        let j = bounds.high - n;
        if ends.has(j) {
            if let Some(i) = longest_to(alloc, re, text, bounds.low, j, bounds.no_null)? {
                return Ok(Some(Range { q0: i, q1: j }));
            }
        }
    }
    Ok(None)
}

/// The match that begins first, and of those the longest. The set has each place at which one begins.
pub fn first_among<T: Letters>(
    alloc: Global,
    re: &Re,
    text: &T,
    starts: &Places,
    bounds: Bounds,
) -> Result<Option<Range>, NoMemory>
    requires order { bounds.low ≤ bounds.high }
    requires within { bounds.high ≤ length (T.letters text.now) }
    requires low { starts.now.low ≤ bounds.low }
    requires past { past starts.now ≡ bounds.high + 1 }
    requires starts { HasStarts (Matches (tree re.now) (T.letters text.now)) bounds.low bounds.high starts.now }
    ensures found { IfOk result (λ answer. IfSome answer (IsFirst (tree re.now) (T.letters text.now) bounds.low
        bounds.high bounds.no_null)) }
    ensures none { IfOk result (λ answer. IfNone answer (HasNoSpan (tree re.now) (T.letters text.now) bounds.low
        bounds.high bounds.no_null)) }
    ensures value { IfOk result (λ answer. answer ≡ first_span (tree re.now) (T.letters text.now) bounds.low bounds.high
        bounds.no_null) }
    ensures inside { IfOk result (λ answer. IfSome answer (IsBetween bounds.low bounds.high)) }
{
    let found = earliest(alloc, re, text, starts, bounds)?;
    Ok(found)
}

/// The match that begins first, and of those the longest, inside from and end, leaving out the null one at no_null.
///
/// There is none only where no match is inside these bounds.
pub fn first_match<T: Letters>(
    alloc: Global,
    re: &Re,
    text: &T,
    from: usize,
    end: usize,
    no_null: Option<usize>,
) -> Result<Option<Range>, NoMemory>
    requires order { from ≤ end }
    requires within { end ≤ length (T.letters text.now) }
    ensures found { IfOk result (λ answer. IfSome answer (IsFirst (tree re.now) (T.letters text.now) from end no_null)) }
    ensures none { IfOk result (λ answer. IfNone answer (HasNoSpan (tree re.now) (T.letters text.now) from end no_null)) }
    ensures value { IfOk result (λ answer. answer ≡ first_span (tree re.now) (T.letters text.now) from end no_null) }
    ensures inside { IfOk result (λ answer. IfSome answer (IsBetween from end)) }
{
    let starts = starts(alloc, re, text, from, end)?;
    let bounds = Bounds {
        low: from,
        high: end,
        no_null,
    };
    first_among(alloc, re, text, &starts, bounds)
}

/// The match that ends last, and of those the longest, inside start and to, leaving out the null one at no_null.
///
/// There is none only where no match is inside these bounds.
pub fn last_match<T: Letters>(
    alloc: Global,
    re: &Re,
    text: &T,
    start: usize,
    to: usize,
    no_null: Option<usize>,
) -> Result<Option<Range>, NoMemory>
    requires order { start ≤ to }
    requires within { to ≤ length (T.letters text.now) }
    ensures found { IfOk result (λ answer. IfSome answer (IsLast (tree re.now) (T.letters text.now) start to no_null)) }
    ensures none { IfOk result (λ answer. IfNone answer (HasNoSpan (tree re.now) (T.letters text.now) start to no_null)) }
    ensures value { IfOk result (λ answer. answer ≡ last_span (tree re.now) (T.letters text.now) start to no_null) }
    ensures inside { IfOk result (λ answer. IfSome answer (IsBetween start to)) }
{
    let bounds = Bounds {
        low: start,
        high: to,
        no_null,
    };
    let found = latest(alloc, re, text, bounds)?;
    Ok(found)
}
