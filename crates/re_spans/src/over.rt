//! The match that has a place.

ghost use Rattle.std.specs.Prelude.{◌≡◌, ◌≤◌, ◌+◌, ℕ, length, IfOk, IfSome, IfNone};
ghost use Rattle.re_syntax.specs.Tree.{tree};
ghost use Rattle.re_spans.specs.Places.{past};
ghost use Rattle.re_spans.specs.Over.{IsOver, IsFirstOver, HasNoneOver, StartsOver, match_over};

use crate::choice::longest_from;
use crate::places::{Places, count_of};
use crate::reach::reach;
use crate::way::Way;
use am_text::{Letters, NoMemory, Range};
use re_syntax::Re;
use std::alloc::Global;

// The end of the longest match from i on, where it isn't null and ends at the place or later.
fn longest_over<T: Letters>(
    alloc: Global,
    re: &Re,
    text: &T,
    i: usize,
    at: usize,
) -> Result<Option<usize>, NoMemory>
    requires before { i ≤ at }
    requires within { at ≤ length (T.letters text.now) }
    ensures some { IfOk result (λ answer. IfSome answer (λ j. IsOver (tree re.now) (T.letters text.now) at i j
        × ((k : ℕ) → IsOver (tree re.now) (T.letters text.now) at i k → k ≤ j))) }
    ensures none { IfOk result (λ answer. IfNone answer ((k : ℕ) → IsOver (tree re.now) (T.letters text.now) at i k
        → ⊥)) }
{
    let found = longest_from(alloc, re, text, i, text.len(), Some(i))?;
    match found {
        Some(j) => { if at <= j { Ok(Some(j)) } else { Ok(None) } }
        None => Ok(None),
    }
}

// The places at which matches begin that end at the place or later.
fn starts_over<T: Letters>(alloc: Global, re: &Re, text: &T, at: usize) -> Result<Places, NoMemory>
    requires { at ≤ length (T.letters text.now) }
    ensures low { IfOk result (λ set. set.low ≡ 0) }
    ensures past { IfOk result (λ set. past set ≡ length (T.letters text.now) + 1) }
    ensures starts { IfOk result (StartsOver (tree re.now) (T.letters text.now) at) }
{
    let ends = Places::from(alloc, 0, text.len(), at)?;
    let set = reach(alloc, re, text, Way::Back, &ends)?;
    Ok(set)
}

// The match that begins first, and of those the longest.
fn first_over<T: Letters>(
    alloc: Global,
    re: &Re,
    text: &T,
    at: usize,
) -> Result<Option<Range>, NoMemory>
    requires { at ≤ length (T.letters text.now) }
    ensures found { IfOk result (λ answer. IfSome answer (IsFirstOver (tree re.now) (T.letters text.now) at)) }
    ensures none { IfOk result (λ answer. IfNone answer (HasNoneOver (tree re.now) (T.letters text.now) at)) }
{
    let starts = starts_over(alloc, re, text, at)?;
    for i in 0..count_of(0, at)? {
        if starts.has(i) {
            if let Some(j) = longest_over(alloc, re, text, i, at)? {
                return Ok(Some(Range { q0: i, q1: j }));
            }
        }
    }
    Ok(None)
}

/// The match that isn't null and has the place between its ends or at one of them: of those that begin first the
/// longest. There is none exactly where no such match is in the text.
pub fn match_over<T: Letters>(
    alloc: Global,
    re: &Re,
    text: &T,
    at: usize,
) -> Result<Option<Range>, NoMemory>
    requires { at ≤ length (T.letters text.now) }
    ensures found { IfOk result (λ answer. IfSome answer (IsFirstOver (tree re.now) (T.letters text.now) at)) }
    ensures none { IfOk result (λ answer. IfNone answer (HasNoneOver (tree re.now) (T.letters text.now) at)) }
    ensures value { IfOk result (λ answer. answer ≡ match_over (tree re.now) (T.letters text.now) at) }
{
    let found = first_over(alloc, re, text, at)?;
    Ok(found)
}
