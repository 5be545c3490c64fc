//! The runes at a side of a tree, part after part.

ghost use Rattle.std.specs.Prelude.{◌≡◌, ◌<◌, ◌+◌, ◌*◌, ◌∷◌, Bool, IfOk, OnOk};
ghost use Rattle.re_syntax.specs.Tree.{Then, tree, nodes};
ghost use Rattle.re_edges.specs.Edges.{may_be_null, with_runes};
ghost use Rattle.re_edges.specs.Steps.{put_by, weight};
ghost use Rattle.re_edges.specs.declared.runes.RuneSet.{RuneSet};
ghost use Rattle.re_edges.specs.declared.steps.Step.TheVariants.{Part};

use crate::runes::RuneSet;
use am_text::NoMemory;
use re_syntax::Re;
use std::alloc::Global;
use std::collections::VecDeque;

/// A side of a text.
#[derive(Clone, Copy)]
pub enum Side {
    First,
    Last,
}

/// What is done next, where it is known whether the part that was done last may be null.
#[derive(Clone, Copy)]
pub enum Step<'a> {
    /// The runes of a part are put.
    Part(&'a Re),
    /// Those of a part that stands behind the last one: only if that may be null.
    Behind(&'a Re),
    /// Those of the other side of an alternation.
    Beside(&'a Re),
    /// The last part is the other side of one that may be null or not.
    Or(bool),
    /// The last part may be left out.
    Optional,
}

// Two parts, one after the other as they come from the side.
fn put_two<'a>(
    side: Side,
    a: &'a Re,
    b: &'a Re,
    rest: &mut VecDeque<Step<'a>>,
) -> Result<(), NoMemory>
    ensures put { OnOk result ((set : RuneSet) (null : Bool) → put_by side rest.new.items set null ≡ put_by side
        rest.old.items (with_runes side (Then (tree a.now) (tree b.now)) set)
        (may_be_null (Then (tree a.now) (tree b.now)))) }
    ensures fewer { OnOk result (weight rest.new.items < weight rest.old.items + 3 * nodes
        (Then (tree a.now) (tree b.now))) }
{
    let (first, behind) = match side {
        Side::First => (a, b),
        Side::Last => (b, a),
    };
    rest.push_front(Step::Behind(behind))?;
    rest.push_front(Step::Part(first))?;
    Ok(())
}

// A part and what is done after it.
fn put_one<'a>(part: &'a Re, then: Step<'a>, rest: &mut VecDeque<Step<'a>>) -> Result<(), NoMemory>
    ensures { OnOk result (rest.new.items ≡ Part part.entry ∷ then.entry ∷ rest.old.items) }
{
    rest.push_front(then)?;
    rest.push_front(Step::Part(part))?;
    Ok(())
}

// Puts the runes of a part, or what is to be done for it. Answers whether it may be null, where it has no parts.
fn put_part<'a>(
    set: &mut RuneSet,
    side: Side,
    re: &'a Re,
    rest: &mut VecDeque<Step<'a>>,
) -> Result<bool, NoMemory>
    ensures put { IfOk result (λ null. put_by side rest.new.items set.new null ≡ put_by side rest.old.items
        (with_runes side (tree re.now) set.old) (may_be_null (tree re.now))) }
    ensures fewer { OnOk result (weight rest.new.items < weight rest.old.items + 3 * nodes (tree re.now)) }
{
    match re {
        Re::Lit(c) => {
            set.put_spans(&[(*c, *c)])?;
            Ok(false)
        }
        Re::Any => {
            set.put_every();
            Ok(false)
        }
        Re::Class { not, spans } => {
            set.put_class(*not, spans)?;
            Ok(false)
        }
        Re::Start => Ok(true),
        Re::End => Ok(true),
        Re::Cat(a, b) => {
            put_two(side, a, b, rest)?;
            Ok(false)
        }
        Re::Alt(a, b) => {
            put_one(a, Step::Beside(b), rest)?;
            Ok(false)
        }
        Re::Star(a) => {
            put_one(a, Step::Optional, rest)?;
            Ok(true)
        }
        Re::Plus(a) => {
            rest.push_front(Step::Part(a))?;
            Ok(false)
        }
        Re::Opt(a) => {
            put_one(a, Step::Optional, rest)?;
            Ok(true)
        }
        Re::Group(_, a) => {
            rest.push_front(Step::Part(a))?;
            Ok(false)
        }
    }
}

// Does a step, where the last part may be null or not. Answers whether the part may be that is the last one then.
fn do_step<'a>(
    set: &mut RuneSet,
    side: Side,
    step: Step<'a>,
    null: bool,
    rest: &mut VecDeque<Step<'a>>,
) -> Result<bool, NoMemory>
    ensures put { IfOk result (λ now. put_by side rest.new.items set.new now ≡ put_by side (step.entry ∷ rest.old.items)
        set.old null) }
    ensures fewer { OnOk result (weight rest.new.items < weight (step.entry ∷ rest.old.items)) }
{
    match step {
        Step::Part(re) => put_part(set, side, re, rest),
        Step::Behind(re) => {
            if null {
                rest.push_front(Step::Part(re))?;
            }
            Ok(null)
        }
        Step::Beside(re) => {
            put_one(re, Step::Or(null), rest)?;
            Ok(null)
        }
        Step::Or(other) => Ok(other || null),
        Step::Optional => Ok(true),
    }
}

/// Puts the runes that may stand at a side of a match, and answers whether the null text may be one.
pub fn put_runes(alloc: Global, set: &mut RuneSet, re: &Re, side: Side) -> Result<bool, NoMemory>
    ensures runes { IfOk result (λ _. set.new ≡ with_runes side (tree re.now) set.old) }
    ensures null { IfOk result (λ null. null ≡ may_be_null (tree re.now)) }
{
    let mut null = false;
    let mut rest = VecDeque::new(alloc);
    rest.push_front(Step::Part(re))?;
    'steps: while let Some(step) = rest.pop_front() {
        null = do_step(set, side, step, null, &mut rest)?;
    }
    Ok(null)
}
