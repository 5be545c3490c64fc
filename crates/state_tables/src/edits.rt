//! Edits: how they are read and written, and what they make of a text.

ghost use Rattle.std.specs.Prelude.{◌≡◌, IsTrue, IfOk, IfSome};
ghost use Rattle.edit_log.specs.Edited.{after, text_after};
ghost use Rattle.win_text.specs.Bodies.{IsEditOf, AreInRange};

use crate::answers::says;
use crate::call::text_of;
use crate::fault::Fault;
use am_text::{Bytes, Items, NoMemory, Runes, escape};
use edit_log::{Edit, Edits, SpliceFault, splice};
use std::alloc::Global;

fn place_of(field: &str) -> Result<usize, Fault> {
    match field.parse() {
        Ok(place) => Ok(place),
        Err(_) => Err(Fault::NoCase),
    }
}

fn cut(field: &str) -> Result<(&str, &str), Fault> {
    match field.split_once(',') {
        Some(parts) => Ok(parts),
        None => Err(Fault::NoCase),
    }
}

fn edit_of(alloc: Global, field: &str) -> Result<Edit, Fault> {
    let (q0, rest) = cut(field)?;
    let (q1, text) = cut(rest)?;
    Ok(Edit {
        q0: place_of(q0)?,
        q1: place_of(q1)?,
        text: text_of(alloc, text)?,
    })
}

/// The edits of these fields.
pub fn edits_of(alloc: Global, fields: &str) -> Result<Edits, Fault> {
    let mut edits = Items::new(alloc);
    for field in fields.split('\t') {
        edits.push(edit_of(alloc, field)?)?;
    }
    Ok(edits)
}

fn put_edit(alloc: Global, line: &mut Bytes, edit: &Edit) -> Result<(), Fault> {
    let places = format!(in alloc; "{},{},", edit.q0, edit.q1)?;
    line.append(places.as_bytes())?;
    line.append(escape(alloc, edit.text.as_slice())?.as_slice())?;
    Ok(())
}

/// The edits, with one tab between them.
pub fn edits_line(alloc: Global, edits: &[Edit]) -> Result<Bytes, Fault> {
    let mut line = Bytes::new(alloc);
    for edit in edits {
        if !line.is_empty() {
            line.append(b"\t")?;
        }
        put_edit(alloc, &mut line, edit)?;
    }
    Ok(line)
}

fn fault_line(alloc: Global, fault: SpliceFault) -> Result<Bytes, Fault> {
    let line = match fault {
        SpliceFault::Sequence(number) => format!(in alloc; "sequence {number}")?,
        SpliceFault::Range(number) => format!(in alloc; "range {number}")?,
        SpliceFault::NoMemory => return Err(Fault::NoMemory),
    };
    Ok(Items::from_vec(line.into_bytes()))
}

/// The edits that make these changes over a text of so many runes, or which change is at fault.
pub fn spliced(alloc: Global, changes: &Edits, runes: usize) -> Result<Bytes, Fault> {
    match splice(alloc, changes, runes) {
        Ok(edits) => edits_line(alloc, edits.as_slice()),
        Err(fault) => fault_line(alloc, fault),
    }
}

fn is_edit_of(text: &Runes, edit: &Edit) -> bool
    ensures { IsTrue result → IsEditOf text.now edit.now }
{
    edit.q0 <= edit.q1 && edit.q1 <= text.len() && (edit.q0 < edit.q1 || !edit.text.is_empty())
}

fn after(alloc: Global, text: &Runes, edit: &Edit) -> Result<Runes, NoMemory>
    requires { IsEditOf text.now edit.now }
    ensures { IfOk result (λ new. new ≡ after text.now edit.now) }
{
    let runes = text.as_slice();
    let mut new = Runes::copied(alloc, &runes[..edit.q0])?;
    new.append(edit.text.as_slice())?;
    new.append(&runes[edit.q1..])?;
    Ok(new)
}

/// The text after these edits, if each is one of the text as it is then.
pub fn text_after(alloc: Global, text: Runes, edits: &[Edit]) -> Result<Option<Runes>, NoMemory>
    ensures range { IfOk result (λ found. IfSome found (λ _. AreInRange text edits.now)) }
    ensures text { IfOk result (λ found. IfSome found (λ new. new ≡ text_after text edits.now)) }
{
    match edits {
        [] => Ok(Some(text)),
        [edit, rest @ ..] => {
            if !is_edit_of(&text, edit) {
                return Ok(None);
            }
            text_after(alloc, after(alloc, &text, edit)?, rest)
        }
    }
}
