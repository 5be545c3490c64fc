//! What edits do to a text, and what they will do.

ghost use Rattle.std.specs.Prelude.{◌≡◌, ◌<◌, ◌≤◌, ◌+◌, ◌^◌, length, IfOk, OnOk};
ghost use Rattle.edit_log.specs.Groups.{IsReadyFor, inverse, again, undoing, redoing};
ghost use Rattle.edit_log.specs.Edited.{after, text_after};
ghost use Rattle.win_text.specs.Bodies.{IsEditOf, AreInRange, done_edit, done_group, put_length, history_of};
ghost use Rattle.win_text.specs.Bodies.{after_group, history_after, noted, IsLogReady};
ghost use Rattle.win_text.specs.Kept.{HasGroupFor};
ghost use Rattle.win_text.specs.Traces.{forgotten_with, forgotten_after, change_kind, kind_of, back_edits, back_past};
ghost use Rattle.win_text.specs.Traces.{back_future, back_forgotten, HasGroups, Fits};

use crate::types::{PlanKind, TextPlan, TraceKind};
use am_text::{Items, NoMemory, Runes};
use edit_log::{Done, DoneList, Edit, UndoLog};
use rune_gap::RuneText;
use std::alloc::Global;

// How many runes the edits put.
pub(crate) fn runes_put(edits: &[Edit]) -> Result<usize, NoMemory>
    ensures { IfOk result (λ runes. runes ≡ put_length edits.now) }
{
    let mut runes: usize = 0;
    for edit in edits {
        runes = runes.checked_add(edit.text.len()).ok_or(NoMemory)?;
    }
    Ok(runes)
}

// Does an edit, into the room that is there.
fn make_edit(text: &mut RuneText, edit: &Edit)
    requires range { IsEditOf text.old.items edit.now }
    requires room { length edit.now.text ≤ text.old.spare }
    ensures items { text.new.items ≡ after text.old.items edit.now }
    ensures spare { text.old.spare ≤ text.new.spare + length edit.now.text }
    ensures total { length text.new.items + text.new.spare ≡ length text.old.items + text.old.spare }
{
    text.replace(edit.q0, edit.q1, edit.text.as_slice());
}

// Does the edits, into the room that is there.
pub(crate) fn make_edits(text: &mut RuneText, edits: &[Edit])
    requires range { AreInRange text.old.items edits.now }
    requires room { put_length edits.now ≤ text.old.spare }
    ensures items { text.new.items ≡ text_after text.old.items edits.now }
    ensures total { length text.new.items + text.new.spare ≡ length text.old.items + text.old.spare }
{
    for edit in edits {
        make_edit(text, edit);
    }
}

// Notes the edits of a change as a group, where there are any.
fn note_group(log: &mut UndoLog, group: DoneList, number: u64)
    requires room { length group ≤ log.old.room }
    requires ready { IsReadyFor log.old.ready number }
    ensures history { history_of log.new ≡ after_group (history_of log.old) group number }
    ensures forgotten { log.new.forgotten ≡ forgotten_with (history_of log.old) log.old.forgotten group }
{
    if !group.is_empty() {
        log.push(group, number);
    }
}

// Notes that a plan of this kind was done: as a group, or by moving one.
pub(crate) fn note_plan(log: &mut UndoLog, kind: PlanKind, group: DoneList, number: u64)
    requires room { IsLogReady kind log.old.room log.old.ready (length group) number }
    requires some { HasGroupFor kind log.old }
    ensures history { history_of log.new ≡ history_after kind (history_of log.old) group number }
    ensures forgotten { log.new.forgotten ≡ forgotten_after kind (history_of log.old) log.old.forgotten group }
{
    match kind {
        PlanKind::Change => note_group(log, group, number),
        PlanKind::Undo => log.undone(),
        PlanKind::Redo => log.redone(),
    }
}

// Makes room for what a plan of this kind notes.
pub(crate) fn reserve_log(
    log: &mut UndoLog,
    kind: PlanKind,
    edits: usize,
    number: u64,
) -> Result<(), NoMemory>
    ensures same { log.new ≡ record log.old { room = log.new.room; ready = log.new.ready } }
    ensures ok { OnOk result (IsLogReady kind log.new.room log.new.ready edits number) }
{
    match kind {
        PlanKind::Change => log.reserve_for(edits, number),
        PlanKind::Undo => Ok(()),
        PlanKind::Redo => Ok(()),
    }
}

// What a change of so many edits does with the groups.
fn change_kind(log: &UndoLog, edits: usize, number: u64) -> TraceKind
    ensures { result ≡ change_kind (history_of log.now) edits number }
{
    if edits == 0 {
        TraceKind::Nothing
    } else {
        TraceKind::Pushes(log.pushing(edits, number))
    }
}

// What a plan of this kind does with the groups.
pub(crate) fn kind_of(log: &UndoLog, kind: PlanKind, edits: usize, number: u64) -> TraceKind
    ensures { result ≡ kind_of kind (history_of log.now) edits number }
{
    match kind {
        PlanKind::Change => change_kind(log, edits, number),
        PlanKind::Undo => TraceKind::Undoes,
        PlanKind::Redo => TraceKind::Redoes,
    }
}

// Takes back an edit that was done, into the room that is there.
fn undo_edit(text: &mut RuneText, done: &Done)
    requires range { IsEditOf text.old.items (inverse done.now) }
    requires fits { length (after text.old.items (inverse done.now)) ≤ length text.old.items + text.old.spare }
    ensures items { text.new.items ≡ after text.old.items (inverse done.now) }
    ensures total { length text.new.items + text.new.spare ≡ length text.old.items + text.old.spare }
{
    // law: a text has fewer than 2^64 runes, known once its length is asked
    let _len = text.len();
    text.replace(done.q0, done.q0 + done.put.len(), done.cut.as_slice());
}

// Does an edit again that was done, into the room that is there.
fn redo_edit(text: &mut RuneText, done: &Done)
    requires range { IsEditOf text.old.items (again done.now) }
    requires fits { length (after text.old.items (again done.now)) ≤ length text.old.items + text.old.spare }
    ensures items { text.new.items ≡ after text.old.items (again done.now) }
    ensures total { length text.new.items + text.new.spare ≡ length text.old.items + text.old.spare }
{
    // law: a text has fewer than 2^64 runes, known once its length is asked
    let _len = text.len();
    text.replace(done.q0, done.q0 + done.cut.len(), done.put.as_slice());
}

// Takes back edits that were done, the last of them first.
fn undo_edits(text: &mut RuneText, group: &[Done])
    requires range { AreInRange text.old.items (undoing group.now) }
    requires fits { Fits (length text.old.items + text.old.spare) text.old.items (undoing group.now) }
    ensures items { text.new.items ≡ text_after text.old.items (undoing group.now) }
    ensures total { length text.new.items + text.new.spare ≡ length text.old.items + text.old.spare }
{
    let mut rest = group;
    while let Some((done, before)) = rest.split_last() {
        undo_edit(text, done);
        rest = before;
    }
}

// Does edits again that were done.
fn redo_edits(text: &mut RuneText, group: &[Done])
    requires range { AreInRange text.old.items (redoing group.now) }
    requires fits { Fits (length text.old.items + text.old.spare) text.old.items (redoing group.now) }
    ensures items { text.new.items ≡ text_after text.old.items (redoing group.now) }
    ensures total { length text.new.items + text.new.spare ≡ length text.old.items + text.old.spare }
{
    for done in group {
        redo_edit(text, done);
    }
}

// Takes back what was done to the groups, and with them to the text.
pub(crate) fn take_back(text: &mut RuneText, log: &mut UndoLog, kind: TraceKind)
    requires groups { HasGroups kind (history_of log.old) log.old.forgotten }
    requires range { AreInRange text.old.items (back_edits kind (history_of log.old)) }
    requires fits { Fits (length text.old.items + text.old.spare) text.old.items
        (back_edits kind (history_of log.old)) }
    ensures items { text.new.items ≡ text_after text.old.items (back_edits kind (history_of log.old)) }
    ensures total { length text.new.items + text.new.spare ≡ length text.old.items + text.old.spare }
    ensures past { log.new.past ≡ back_past kind (history_of log.old) }
    ensures future { log.new.future ≡ back_future kind (history_of log.old) log.old.forgotten }
    ensures forgotten { log.new.forgotten ≡ back_forgotten kind (history_of log.old) log.old.forgotten }
{
    match kind {
        TraceKind::Nothing => {}
        TraceKind::Pushes(pushed) => {
            undo_edits(text, log.last_edits(pushed.edits));
            log.unpush(pushed);
        }
        TraceKind::Undoes => {
            redo_edits(text, log.all_first());
            log.redone();
        }
        TraceKind::Redoes => {
            undo_edits(text, log.all_last());
            log.undone();
        }
    }
}

// What an edit of a text cuts and puts.
fn done_by(alloc: Global, text: &RuneText, edit: &Edit) -> Result<Done, NoMemory>
    requires { IsEditOf text.now.items edit.now }
    ensures { IfOk result (λ done. done ≡ done_edit text.now.items edit.now) }
{
    Ok(Done {
        q0: edit.q0,
        cut: text.slice(edit.q0, edit.q1)?,
        put: Runes::copied(alloc, edit.text.as_slice())?,
    })
}

// A text of its own with the same runes, and room for so many more.
fn copy_of(alloc: Global, text: &RuneText, added: usize) -> Result<RuneText, NoMemory>
    requires { length text.now.items + added < 2 ^ 64 }
    ensures items { IfOk result (λ copy. copy.items ≡ text.now.items) }
    ensures room { IfOk result (λ copy. added ≤ copy.spare) }
{
    let runes = text.slice(0, text.len())?;
    let mut copy = RuneText::new(alloc);
    copy.reserve(text.len() + added)?;
    copy.replace(0, 0, runes.as_slice());
    Ok(copy)
}

// What the edits cut and put, found by doing them. The list takes room for them alone, since it is kept for Undo.
fn group_over(alloc: Global, text: &mut RuneText, edits: &[Edit]) -> Result<DoneList, NoMemory>
    requires range { AreInRange text.old.items edits.now }
    requires room { put_length edits.now ≤ text.old.spare }
    ensures { IfOk result (λ group. group ≡ done_group text.old.items edits.now) }
{
    let mut group = Items::from_vec(Vec::with_capacity(alloc, edits.len())?);
    for edit in edits {
        group.push(done_by(alloc, text, edit)?)?;
        make_edit(text, edit);
    }
    Ok(group)
}

// What the edits will cut and put, of which there are so many runes. More than one are done in a
// copy of the text.
fn group_of(
    alloc: Global,
    text: &RuneText,
    edits: &[Edit],
    added: usize,
) -> Result<DoneList, NoMemory>
    requires range { AreInRange text.now.items edits.now }
    requires runes { added ≡ put_length edits.now }
    requires fits { length text.now.items + added < 2 ^ 64 }
    ensures { IfOk result (λ group. group ≡ done_group text.now.items edits.now) }
{
    let mut group = Items::from_vec(Vec::with_capacity(alloc, edits.len())?);
    match edits {
        [] => {}
        [edit] => group.push(done_by(alloc, text, edit)?)?,
        _ => return group_over(alloc, &mut copy_of(alloc, text, added)?, edits),
    }
    Ok(group)
}

// What a plan has ready to be noted, whose edits put so many runes.
pub(crate) fn group_for(
    alloc: Global,
    text: &RuneText,
    plan: &TextPlan,
    added: usize,
) -> Result<DoneList, NoMemory>
    requires range { AreInRange text.now.items plan.now.edits }
    requires runes { added ≡ put_length plan.now.edits }
    requires fits { length text.now.items + added < 2 ^ 64 }
    ensures { IfOk result (λ group. group ≡ noted plan.now.kind (done_group text.now.items plan.now.edits)) }
{
    match plan.kind {
        PlanKind::Change => group_of(alloc, text, plan.edits.as_slice(), added),
        PlanKind::Undo => Ok(Items::new(alloc)),
        PlanKind::Redo => Ok(Items::new(alloc)),
    }
}
