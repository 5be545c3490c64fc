//! The ranges that commands are done for.

ghost use Rattle.std.specs.Prelude.{◌≡◌, ◌∷◌, ◌++◌, [], None, IfOk, OnOk, if◌then◌else◌};
ghost use Rattle.re_syntax.specs.Tree.{tree};
ghost use Rattle.re_spans.specs.Search.{first_span};
ghost use Rattle.re_spans.specs.Successive.{AreInOrder};
ghost use Rattle.sam_address.specs.Value.{IsInside};
ghost use Rattle.edit_parts.specs.Tree.{ForEach, ForBetween, Where, WhereNot};
ghost use Rattle.edit_parts.specs.Kinds.{loop_of};
ghost use Rattle.edit_run.specs.Ranges.{matches_in, between, choose, AreMatches, AreInside};
ghost use Rattle.edit_run.specs.Meaning.{has_match, ranges_of};
ghost use Rattle.edit_run.specs.Kept.{IsFor};

use crate::doing::Over;
use crate::kept::SHORT;
use am_text::{Items, Letters, NoMemory, Range, Spans};
use edit_parts::Loop;
use re_machine::Machine;
use re_spans::{Re, first_match, successive_matches};
use std::alloc::Global;

// The successive matches in a range that is short, or for which no machine was made.
fn once<T: Letters>(alloc: Global, re: &Re, text: &T, range: Range) -> Result<Spans, NoMemory>
    requires { IsInside (T.letters text.now) range }
    ensures value { IfOk result (λ spans. spans ≡ matches_in (tree re.now) (T.letters text.now) range) }
    ensures ordered { IfOk result (AreInOrder range.q0 range.q1) }
{
    if range.q1 - range.q0 < SHORT {
        return successive_matches(alloc, re, text, range.q0, range.q1);
    }
    let machine = Machine::build(alloc, re)?;
    machine.successive(alloc, text, range.q0, range.q1)
}

// The successive matches in a range.
fn all_matches<T: Letters>(
    alloc: Global,
    re: &Re,
    kept: &Option<Machine>,
    text: &T,
    range: Range,
) -> Result<Spans, NoMemory>
    requires kept { IsFor (tree re.now) kept.now }
    requires inside { IsInside (T.letters text.now) range }
    ensures value { IfOk result (λ spans. spans ≡ matches_in (tree re.now) (T.letters text.now) range) }
    ensures ordered { IfOk result (AreInOrder range.q0 range.q1) }
{
    match kept {
        Some(machine) => machine.successive(alloc, text, range.q0, range.q1),
        None => once(alloc, re, text, range),
    }
}

/// The successive matches in a range, each from the end of the one before, without the null one there.
#[tactic(auto, using(crate::proofs::Following::are_matches))]
pub fn matches_in<T: Letters>(
    alloc: Global,
    re: &Re,
    kept: &Option<Machine>,
    text: &T,
    range: Range,
) -> Result<Spans, NoMemory>
    requires kept { IsFor (tree re.now) kept.now }
    requires inside { IsInside (T.letters text.now) range }
    ensures value { IfOk result (λ spans. spans ≡ matches_in (tree re.now) (T.letters text.now) range) }
    ensures matches { IfOk result (AreMatches (tree re.now) (T.letters text.now)) }
    ensures ordered { IfOk result (AreInOrder range.q0 range.q1) }
{
    let all = all_matches(alloc, re, kept, text, range)?;
    Ok(all)
}

// The first match in a range that is short, or for which no machine was made.
fn first_once<T: Letters>(
    alloc: Global,
    re: &Re,
    text: &T,
    range: Range,
) -> Result<Option<Range>, NoMemory>
    requires { IsInside (T.letters text.now) range }
    ensures { IfOk result (λ found. found ≡ first_span (tree re.now) (T.letters text.now) range.q0 range.q1 None) }
{
    if range.q1 - range.q0 < SHORT {
        return first_match(alloc, re, text, range.q0, range.q1, None);
    }
    let machine = Machine::build(alloc, re)?;
    machine.forward(alloc, text, range.q0, range.q1, None)
}

// The first match in a range.
fn first_in<T: Letters>(
    alloc: Global,
    re: &Re,
    kept: &Option<Machine>,
    text: &T,
    range: Range,
) -> Result<Option<Range>, NoMemory>
    requires kept { IsFor (tree re.now) kept.now }
    requires inside { IsInside (T.letters text.now) range }
    ensures { IfOk result (λ found. found ≡ first_span (tree re.now) (T.letters text.now) range.q0 range.q1 None) }
{
    match kept {
        Some(machine) => machine.forward(alloc, text, range.q0, range.q1, None),
        None => first_once(alloc, re, text, range),
    }
}

// Whether a range has a match.
fn has_match<T: Letters>(
    alloc: Global,
    re: &Re,
    kept: &Option<Machine>,
    text: &T,
    range: Range,
) -> Result<bool, NoMemory>
    requires kept { IsFor (tree re.now) kept.now }
    requires inside { IsInside (T.letters text.now) range }
    ensures { IfOk result (λ yes. yes ≡ has_match (tree re.now) (T.letters text.now) range) }
{
    let found = first_in(alloc, re, kept, text, range)?;
    Ok(found.is_some())
}

// The matches of `x`.
#[tactic(auto, using(crate::proofs::Inside::ordered_inside))]
fn each_match<T: Letters>(
    alloc: Global,
    re: &Re,
    kept: &Option<Machine>,
    text: &T,
    range: Range,
) -> Result<Spans, NoMemory>
    requires kept { IsFor (tree re.now) kept.now }
    requires inside { IsInside (T.letters text.now) range }
    ensures value { IfOk result (λ spans. spans ≡ ranges_of ForEach (tree re.now) (T.letters text.now) range) }
    ensures inside { IfOk result (AreInside (T.letters text.now)) }
{
    matches_in(alloc, re, kept, text, range)
}

fn put_range(ranges: &mut Spans, q0: usize, q1: usize) -> Result<(), NoMemory>
    ensures { OnOk result (ranges.new ≡ ranges.old ++ record { q0 = q0; q1 = q1 } ∷ []) }
{
    ranges.push(Range { q0, q1 })
}

// What stands before, between and behind spans.
#[tactic(auto, using(crate::proofs::Naming::writing))]
fn between(alloc: Global, range: Range, spans: &[Range]) -> Result<Spans, NoMemory>
    ensures { IfOk result (λ gaps. gaps ≡ between range.q0 range.q1 spans.now) }
{
    let mut gaps = Items::new(alloc);
    let mut at = range.q0;
    let mut rest = spans;
    while let [span, after @ ..] = rest {
        put_range(&mut gaps, at, span.q0)?;
        at = span.q1;
        rest = after;
    }
    put_range(&mut gaps, at, range.q1)?;
    Ok(gaps)
}

// The texts of `y`: those before, between and behind the matches.
#[tactic(auto, using(crate::proofs::Inside::between_inside))]
fn each_between<T: Letters>(
    alloc: Global,
    re: &Re,
    kept: &Option<Machine>,
    text: &T,
    range: Range,
) -> Result<Spans, NoMemory>
    requires kept { IsFor (tree re.now) kept.now }
    requires inside { IsInside (T.letters text.now) range }
    ensures value { IfOk result (λ spans. spans ≡ ranges_of ForBetween (tree re.now) (T.letters text.now) range) }
    ensures inside { IfOk result (AreInside (T.letters text.now)) }
{
    let spans = matches_in(alloc, re, kept, text, range)?;
    between(alloc, range, spans.as_slice())
}

// The range, where it is wanted.
fn wanted_or_none(alloc: Global, range: Range, is_wanted: bool) -> Result<Spans, NoMemory>
    ensures { IfOk result (λ spans. spans ≡ (if is_wanted then range ∷ [] else [])) }
{
    let mut spans = Items::new(alloc);
    if is_wanted {
        spans.push(range)?;
    }
    Ok(spans)
}

// The range of `g`, where it has a match.
fn where_matching<T: Letters>(
    alloc: Global,
    re: &Re,
    kept: &Option<Machine>,
    text: &T,
    range: Range,
) -> Result<Spans, NoMemory>
    requires kept { IsFor (tree re.now) kept.now }
    requires inside { IsInside (T.letters text.now) range }
    ensures value { IfOk result (λ spans. spans ≡ ranges_of Where (tree re.now) (T.letters text.now) range) }
    ensures inside { IfOk result (AreInside (T.letters text.now)) }
{
    let has = has_match(alloc, re, kept, text, range)?;
    wanted_or_none(alloc, range, has)
}

// The range of `v`, where it has no match.
fn where_not_matching<T: Letters>(
    alloc: Global,
    re: &Re,
    kept: &Option<Machine>,
    text: &T,
    range: Range,
) -> Result<Spans, NoMemory>
    requires kept { IsFor (tree re.now) kept.now }
    requires inside { IsInside (T.letters text.now) range }
    ensures value { IfOk result (λ spans. spans ≡ ranges_of WhereNot (tree re.now) (T.letters text.now) range) }
    ensures inside { IfOk result (AreInside (T.letters text.now)) }
{
    let has = has_match(alloc, re, kept, text, range)?;
    wanted_or_none(alloc, range, !has)
}

/// The ranges for which a loop does its command.
pub fn ranges_of<T: Letters>(
    over: &Over<T>,
    kind: Loop,
    re: &Re,
    kept: &Option<Machine>,
    range: Range,
) -> Result<Spans, NoMemory>
    requires kept { IsFor (tree re.now) kept.now }
    requires inside { IsInside (T.letters over.now.text.now) range }
    ensures value { IfOk result (λ spans. spans ≡ ranges_of (loop_of kind) (tree re.now)
        (T.letters over.now.text.now) range) }
    ensures inside { IfOk result (AreInside (T.letters over.now.text.now)) }
{
    match kind {
        Loop::ForEach => each_match(over.alloc, re, kept, over.text, range),
        Loop::ForBetween => each_between(over.alloc, re, kept, over.text, range),
        Loop::Where => where_matching(over.alloc, re, kept, over.text, range),
        Loop::WhereNot => where_not_matching(over.alloc, re, kept, over.text, range),
    }
}

/// The spans that `s` replaces: that of number `nth`, from 1, or all from it on. There is none of number 0.
pub fn choose(spans: &[Range], nth: u64, all: bool) -> &[Range]
    ensures { result.now ≡ choose nth all spans.now }
{
    if nth == 0 || spans.len() < nth as usize {
        return &[];
    }
    let (_, rest) = spans.split_at(nth as usize - 1);
    if all {
        return rest;
    }
    let (one, _) = rest.split_at(1);
    one
}
