//! The body of a window: its text, its ranges, and the groups that Undo takes back.
//!
//! | call | numbers | texts | answer |
//! |---|---|---|---|
//! | `change` | the number of the step, and dot after it, or none: it moves | EDITS, done one after the other | EDITS |
//! | `undo`, `redo` | | | the EDITS that it does, or `none` |
//! | `change-and-back` | as of `change` | as of `change` | the text after it; it is then taken back |
//! | `undo-and-back`, `redo-and-back` | | | the text after it, or `none`; it is then taken back |
//! | `dot`, `addr`, `limit` | the range; no limit where there is none | | `ok` |
//! | `addr-and-back` | the range | | dot, addr and the limit after it is set; it is then taken back |
//! | `mark`, `nomark` | | | `ok` |
//! | `text`, `letters` | | | the text, and the text rune by rune |
//! | `slice` | the range | | its text |
//! | `ranges` | | | dot, addr and the limit, `-` where there is none |
//! | `groups` | | | `undo` and `redo`, where they are possible |
//! | `numbers` | | | the number of the last group that is past and of the first that was undone, `-` where there is
//! none |
//! | `splice` | the runes of a text | changes over it, as EDITS | the EDITS that make them; `sequence` or `range` and
//! the number of the change at fault |

ghost use Rattle.std.specs.Prelude.{◌≡◌, IsTrue, IfOk};
ghost use Rattle.win_text.specs.Bodies.{IsInside, IsLimitInside, IsPlanFor};

use crate::answers::{put_text, says};
use crate::call::{Call, one_of, range_of};
use crate::edits::{edits_line, edits_of, spliced, text_after};
use crate::fault::Fault;
use am_text::{Bytes, Items, Letters, Range, Runes, encode, escape};
use std::alloc::Global;
use win_text::laws::settings_are_taken_back;
use win_text::{Body, TextPlan};

// Does a plan, and tells its edits.
fn done(alloc: Global, body: &mut Body, plan: TextPlan) -> Result<Bytes, Fault>
    requires { IsPlanFor body.old.state plan }
{
    let line = edits_line(alloc, plan.edits.as_slice())?;
    let ready = body.reserve(&plan)?;
    body.apply(plan, ready);
    Ok(line)
}

fn is_dot_inside(text: &Runes, dot: Option<Range>) -> bool
    ensures { IsTrue result → IsLimitInside text.now dot }
{
    match dot {
        Some(range) => range.q0 <= range.q1 && range.q1 <= text.len(),
        None => true,
    }
}

fn dot_of(numbers: &[u32]) -> Result<Option<Range>, Fault> {
    match numbers {
        [] => Ok(None),
        _ => Ok(Some(range_of(numbers)?)),
    }
}

// Does a plan, tells the text after it, and takes it back.
fn done_and_back(alloc: Global, body: &mut Body, plan: TextPlan) -> Result<Bytes, Fault>
    requires { IsPlanFor body.old.state plan }
{
    let ready = body.reserve(&plan)?;
    let trace = body.make(plan, ready);
    let text = body.text();
    body.unmake(trace);
    Ok(escape(alloc, text?.as_slice())?)
}

// The number of the step, and the numbers behind it.
fn step_of(numbers: &[u32]) -> Result<(u64, &[u32]), Fault> {
    match numbers {
        [number, rest @ ..] => Ok((u64::from(*number), rest)),
        [] => Err(Fault::NoCase),
    }
}

fn change_plan(alloc: Global, body: &Body, call: &Call<'_>) -> Result<TextPlan, Fault>
    ensures { IfOk result (λ plan. IsPlanFor body.now.state plan) }
{
    let (number, dot) = step_of(call.numbers.as_slice())?;
    let dot = dot_of(dot)?;
    let edits = edits_of(alloc, call.texts)?;
    let Some(text) = text_after(alloc, body.text()?, edits.as_slice())? else {
        return Err(Fault::NoCase);
    };
    if !is_dot_inside(&text, dot) {
        return Err(Fault::NoCase);
    }
    Ok(body.plan(edits, dot, number)?)
}

fn change(alloc: Global, body: &mut Body, call: &Call<'_>) -> Result<Bytes, Fault> {
    let plan = change_plan(alloc, body, call)?;
    done(alloc, body, plan)
}

fn change_and_back(alloc: Global, body: &mut Body, call: &Call<'_>) -> Result<Bytes, Fault> {
    let plan = change_plan(alloc, body, call)?;
    done_and_back(alloc, body, plan)
}

fn undo(alloc: Global, body: &mut Body) -> Result<Bytes, Fault> {
    match body.undo_plan()? {
        Some(plan) => done(alloc, body, plan),
        None => says(alloc, "none"),
    }
}

fn redo(alloc: Global, body: &mut Body) -> Result<Bytes, Fault> {
    match body.redo_plan()? {
        Some(plan) => done(alloc, body, plan),
        None => says(alloc, "none"),
    }
}

fn undo_and_back(alloc: Global, body: &mut Body) -> Result<Bytes, Fault> {
    match body.undo_plan()? {
        Some(plan) => done_and_back(alloc, body, plan),
        None => says(alloc, "none"),
    }
}

fn redo_and_back(alloc: Global, body: &mut Body) -> Result<Bytes, Fault> {
    match body.redo_plan()? {
        Some(plan) => done_and_back(alloc, body, plan),
        None => says(alloc, "none"),
    }
}

// The range of these numbers, which is in the text.
fn range_in(body: &Body, numbers: &[u32]) -> Result<Range, Fault>
    ensures { IfOk result (λ range. IsInside body.now.state.text range) }
{
    let range = range_of(numbers)?;
    if range.q0 <= range.q1 && range.q1 <= body.len() {
        return Ok(range);
    }
    Err(Fault::NoCase)
}

fn limit_in(body: &Body, numbers: &[u32]) -> Result<Option<Range>, Fault>
    ensures { IfOk result (λ limit. IsLimitInside body.now.state.text limit) }
{
    match numbers {
        [] => Ok(None),
        _ => Ok(Some(range_in(body, numbers)?)),
    }
}

fn set_limit(body: &mut Body, numbers: &[u32]) -> Result<(), Fault> {
    let limit = limit_in(body, numbers)?;
    body.set_limit(limit);
    Ok(())
}

fn set_dot(body: &mut Body, numbers: &[u32]) -> Result<(), Fault> {
    let range = range_in(body, numbers)?;
    body.set_dot(range);
    Ok(())
}

fn set_addr(body: &mut Body, numbers: &[u32]) -> Result<(), Fault> {
    let range = range_in(body, numbers)?;
    body.set_addr(range);
    Ok(())
}

fn set(alloc: Global, body: &mut Body, call: &Call<'_>) -> Result<Bytes, Fault> {
    let numbers = call.numbers.as_slice();
    match call.name {
        "dot" => set_dot(body, numbers)?,
        "addr" => set_addr(body, numbers)?,
        "limit" => set_limit(body, numbers)?,
        "mark" => body.mark(true),
        "nomark" => body.mark(false),
        _ => return Err(Fault::NoCase),
    }
    says(alloc, "ok")
}

fn slice(alloc: Global, body: &Body, numbers: &[u32]) -> Result<Bytes, Fault> {
    let range = range_in(body, numbers)?;
    let runes = body.slice(range.q0, range.q1)?;
    Ok(escape(alloc, runes.as_slice())?)
}

fn letters(alloc: Global, body: &Body) -> Result<Bytes, Fault> {
    let mut line = Bytes::new(alloc);
    put_text(alloc, &mut line, encode(alloc, body)?.as_slice())?;
    Ok(line)
}

fn ranges(alloc: Global, body: &Body) -> Result<Bytes, Fault> {
    let (dot, addr) = (body.dot(), body.addr());
    let line = match body.limit() {
        Some(limit) => {
            format!(in alloc;
                "{},{} {},{} {},{}",
                dot.q0, dot.q1, addr.q0, addr.q1, limit.q0, limit.q1
            )?
        }
        None => format!(in alloc; "{},{} {},{} -", dot.q0, dot.q1, addr.q0, addr.q1)?,
    };
    Ok(Items::from_vec(line.into_bytes()))
}

// Sets addr, tells the ranges, and takes it back.
fn addr_and_back(alloc: Global, body: &mut Body, numbers: &[u32]) -> Result<Bytes, Fault> {
    let range = range_in(body, numbers)?;
    settings_are_taken_back();
    let trace = body.note();
    body.set_addr(range);
    let line = ranges(alloc, body);
    body.unmake(trace);
    line
}

fn groups(alloc: Global, body: &Body) -> Result<Bytes, Fault> {
    match (body.can_undo(), body.can_redo()) {
        (true, true) => says(alloc, "undo redo"),
        (true, false) => says(alloc, "undo"),
        (false, true) => says(alloc, "redo"),
        (false, false) => says(alloc, "none"),
    }
}

fn numbers(alloc: Global, body: &Body) -> Result<Bytes, Fault> {
    let line = match (body.last_group(), body.next_group()) {
        (Some(last), Some(next)) => format!(in alloc; "{last} {next}")?,
        (Some(last), None) => format!(in alloc; "{last} -")?,
        (None, Some(next)) => format!(in alloc; "- {next}")?,
        (None, None) => format!(in alloc; "- -")?,
    };
    Ok(Items::from_vec(line.into_bytes()))
}

fn splice_line(alloc: Global, call: &Call<'_>) -> Result<Bytes, Fault> {
    let runes = one_of(call.numbers.as_slice())?;
    spliced(alloc, &edits_of(alloc, call.texts)?, runes as usize)
}

/// The answer to a call.
pub fn answer(alloc: Global, body: &mut Body, call: &Call<'_>) -> Result<Bytes, Fault> {
    match call.name {
        "change" => change(alloc, body, call),
        "undo" => undo(alloc, body),
        "redo" => redo(alloc, body),
        "change-and-back" => change_and_back(alloc, body, call),
        "undo-and-back" => undo_and_back(alloc, body),
        "redo-and-back" => redo_and_back(alloc, body),
        "text" => Ok(escape(alloc, body.text()?.as_slice())?),
        "letters" => letters(alloc, body),
        "slice" => slice(alloc, body, call.numbers.as_slice()),
        "ranges" => ranges(alloc, body),
        "addr-and-back" => addr_and_back(alloc, body, call.numbers.as_slice()),
        "groups" => groups(alloc, body),
        "numbers" => numbers(alloc, body),
        "splice" => splice_line(alloc, call),
        _ => set(alloc, body, call),
    }
}
