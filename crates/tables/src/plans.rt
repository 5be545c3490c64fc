//! How a command's plan is written.

use crate::fault::Fault;
use crate::fields::{kind_word, put};
use am_text::{Job, Runes};
use edit_log::{Edit, Edits};
use edit_run::EditPlan;
use std::alloc::Global;

// The text after an edit.
fn after(alloc: Global, text: &Runes, edit: &Edit) -> Result<Runes, Fault> {
    let runes = text.as_slice();
    if edit.q0 > edit.q1 || edit.q1 > runes.len() {
        return Err(Fault::NoCase);
    }
    let mut new = Runes::copied(alloc, &runes[..edit.q0])?;
    new.append(edit.text.as_slice())?;
    new.append(&runes[edit.q1..])?;
    Ok(new)
}

fn text_after(alloc: Global, text: &Runes, edits: &Edits) -> Result<Runes, Fault> {
    let mut new = Runes::copied(alloc, text.as_slice())?;
    for edit in edits.as_slice() {
        new = after(alloc, &new, edit)?;
    }
    Ok(new)
}

fn put_job(alloc: Global, line: &mut Vec<u8>, job: &Job) -> Result<(), Fault> {
    let front = format!(in alloc; "\t{}\t{}\t", kind_word(job.kind), job.window)?;
    put(alloc, line, front.as_str(), job.dir.as_slice())?;
    put(alloc, line, "\t", job.command.as_slice())?;
    put(alloc, line, "\t", job.input.as_slice())
}

/// Dot and the text after a plan, what it prints, and its requests.
pub fn plan_line(alloc: Global, plan: &EditPlan, text: &Runes) -> Result<Vec<u8>, Fault> {
    let new = text_after(alloc, text, &plan.edits)?;
    let mut line = format!(in alloc; "{},{}", plan.dot.q0, plan.dot.q1)?.into_bytes();
    put(alloc, &mut line, "\t", new.as_slice())?;
    put(alloc, &mut line, "\t", plan.prints.as_slice())?;
    for job in plan.jobs.as_slice() {
        put_job(alloc, &mut line, job)?;
    }
    Ok(line)
}
