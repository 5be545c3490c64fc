//! The groups of edits by themselves. Each edit puts `a` in front of a text.
//!
//! | call | numbers | texts | answer |
//! |---|---|---|---|
//! | `push` | the number of the step that pushes an edit | | `ok` |
//! | `mark`, `nomark` | | | `ok` |
//! | `undo` | | | the EDITS that Undo makes, or `none` |
//! | `last` | | | the number of the last group, or `none` |

ghost use Rattle.std.specs.Prelude.{◌≡◌, length, IfOk};

use crate::answers::says;
use crate::call::{Call, one_of};
use crate::edits::edits_line;
use crate::fault::Fault;
use am_text::{Bytes, Items, NoMemory, Runes};
use edit_log::{Done, DoneList, UndoLog};
use std::alloc::Global;

// One edit.
fn edit(alloc: Global) -> Result<DoneList, NoMemory>
    ensures { IfOk result (λ group. length group ≡ 1) }
{
    let mut group = Items::new(alloc);
    group.push(Done {
        q0: 0,
        cut: Items::new(alloc),
        put: Runes::copied(alloc, &[97])?,
    })?;
    Ok(group)
}

fn push(alloc: Global, log: &mut UndoLog, numbers: &[u32]) -> Result<Bytes, Fault> {
    let number = one_of(numbers)?;
    let group = edit(alloc)?;
    log.reserve(group.len())?;
    log.push(group, u64::from(number));
    says(alloc, "ok")
}

fn undo(alloc: Global, log: &UndoLog) -> Result<Bytes, Fault> {
    match log.undo()? {
        Some(edits) => edits_line(alloc, edits.as_slice()),
        None => says(alloc, "none"),
    }
}

fn last(alloc: Global, log: &UndoLog) -> Result<Bytes, Fault> {
    match log.last() {
        Some(number) => {
            let line = format!(in alloc; "{number}")?;
            Ok(Items::from_vec(line.into_bytes()))
        }
        None => says(alloc, "none"),
    }
}

fn mark(alloc: Global, log: &mut UndoLog, automatic: bool) -> Result<Bytes, Fault> {
    log.mark(automatic);
    says(alloc, "ok")
}

/// The answer to a call.
pub fn answer(alloc: Global, log: &mut UndoLog, call: &Call<'_>) -> Result<Bytes, Fault> {
    match call.name {
        "push" => push(alloc, log, call.numbers.as_slice()),
        "undo" => undo(alloc, log),
        "last" => last(alloc, log),
        "mark" => mark(alloc, log, true),
        "nomark" => mark(alloc, log, false),
        _ => Err(Fault::NoCase),
    }
}
