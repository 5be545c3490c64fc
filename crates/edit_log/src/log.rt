//! The edits that were done, in groups.

ghost use Rattle.std.specs.Prelude.{ℕ, ◌≡◌, ◌<◌, ◌≤◌, ◌==◌, ◌-◌, ◌+◌, true, false, not, length, map, take, drop, set};
ghost use Rattle.std.specs.Prelude.{Some, None, vec_len, vec_capacity, IfOk, OnOk, OnErr};
ghost use Rattle.std.specs.Option.{option_map};
ghost use Rattle.edit_log.specs.Groups.{no_log, goes_on, grown, ungrown, pushed, pushing, marked, settled, unpushed};
ghost use Rattle.edit_log.specs.Groups.{CanUnpush, IsReadyFor, restored, undo_edits, redo_edits, undone, redone};
ghost use Rattle.edit_log.specs.Groups.{last_of, first_of, number_in, last_edits, all_last, all_first, marking_after};
ghost use Rattle.edit_log.specs.Groups.{ended};
ghost use Rattle.edit_log.specs.Spare.{group_of, SpareAt, may_go_on};

use crate::types::{Done, DoneList, Edits, Marking, Pushed};
use crate::undoing::{redoing, undoing};
use am_text::NoMemory;
use std::alloc::Global;
use std::marker::Model;

// The edits of one change or more, and the number of the step that began them.
#[derive(Drop)]
struct Group {
    number: u64,
    edits: Vec<Done>,
}

/// The groups of edits that Undo takes back and that Redo makes again.
pub struct UndoLog {
    alloc: Global,
    // The groups that are past, those that were undone, and those that are forgotten.
    groups: Vec<Group>,
    // How many are past.
    done: usize,
    // How many are past or undone.
    end: usize,
    marking: Marking,
    // How many edits there is room for, and for the step of which number, or for any.
    room: usize,
    ready: Option<u64>,
}

// By hand, so that a crate that drops a log goes by this drop, and has not to prove those of all that is in it.
impl Drop for UndoLog {
    fn drop(self) {
        let UndoLog {
            alloc: _,
            groups: _,
            done: _,
            end: _,
            marking: _,
            room: _,
            ready: _,
        } = self;
    }
}

impl Model for UndoLog {
    ghost use Rattle.std.specs.Prelude.{◌≡◌, ◌<◌, ◌≤◌, ◌-◌, true, length, map, vec_len, vec_capacity};
    ghost use Rattle.edit_log.specs.Groups.{Log};
    ghost use Rattle.edit_log.specs.Spare.{group_of, SpareAt, may_go_on, log_of};

    ghost Value = { Log };

    ghost view = { λ l. log_of (record { groups = map group_of l.groups.items; done = l.done; end = l.end }) l.marking
        l.room l.ready };

    ghost invariant = { λ l. (l.done ≤ l.end) × (l.end ≤ length l.groups.items)
        × (0 < l.room → (vec_len l.groups < vec_capacity l.groups)
        × (may_go_on l.marking l.done l.ready ≡ true → SpareAt (l.done - 1) l.room l.groups.items)) };
}

const UNMARKED: Marking = Marking {
    automatic: true,
    joins: false,
    changed: 0,
};

// Whether edits of the step of this number go to the last of so many groups.
fn goes_on(marking: Marking, groups: usize, number: u64) -> bool
    ensures { result ≡ goes_on marking groups number }
{
    (marking.joins || marking.changed == number) && groups != 0
}

// Whether edits of the step that room is to be ready for, or of some step, go to the last of so many groups.
fn may_go_on(marking: Marking, groups: usize, ready: Option<u64>) -> bool
    ensures { result ≡ may_go_on marking groups ready }
{
    match ready {
        None => groups != 0,
        Some(number) => goes_on(marking, groups, number),
    }
}

// What the next change does after edits of the step of this number.
fn marking_after(on: bool, marking: Marking, number: u64) -> Marking
    ensures { result ≡ marking_after on marking number }
{
    Marking {
        automatic: marking.automatic,
        joins: if on {
            marking.joins
        } else {
            !marking.automatic
        },
        changed: number,
    }
}

// What the next change does after Undo or Redo.
fn ended(marking: Marking) -> Marking
    ensures { result ≡ ended marking }
{
    Marking {
        automatic: marking.automatic,
        joins: false,
        changed: 0,
    }
}

// Makes room for so many more edits in the group at this place.
fn reserve_at(groups: &mut Vec<Group>, at: usize, edits: usize) -> Result<(), NoMemory>
    requires { at < length groups.old.items }
    ensures items { map group_of groups.new.items ≡ map group_of groups.old.items }
    ensures len { vec_len groups.new ≡ vec_len groups.old }
    ensures capacity { vec_capacity groups.new ≡ vec_capacity groups.old }
    ensures ok { OnOk result (SpareAt at edits groups.new.items) }
    ensures spare { (n : ℕ) → SpareAt at n groups.old.items → SpareAt at n groups.new.items }
{
    let group = &mut groups[at];
    group.edits.reserve(edits)?;
    Ok(())
}

// Makes room for a group, and where edits go to the last of those that are past, for them there.
fn grow(groups: &mut Vec<Group>, done: usize, on: bool, edits: usize) -> Result<(), NoMemory>
    requires some { on ≡ true → 0 < done }
    requires past { done ≤ length groups.old.items }
    ensures items { map group_of groups.new.items ≡ map group_of groups.old.items }
    ensures len { vec_len groups.new ≡ vec_len groups.old }
    ensures capacity { vec_capacity groups.old ≤ vec_capacity groups.new }
    ensures slot { OnOk result (vec_len groups.new < vec_capacity groups.new) }
    ensures last { OnOk result (on ≡ true → SpareAt (done - 1) edits groups.new.items) }
    ensures spare { (n : ℕ) → SpareAt (done - 1) n groups.old.items → SpareAt (done - 1) n groups.new.items }
{
    groups.reserve(1)?;
    if on {
        reserve_at(groups, done - 1, edits)?;
    }
    Ok(())
}

// Puts these edits at the end of the group at this place, into the room that is there.
fn extend(groups: &mut Vec<Group>, at: usize, edits: DoneList)
    requires within { at < length groups.old.items }
    requires room { SpareAt at (length edits) groups.old.items }
    ensures front { take (at + 1) (map group_of groups.new.items)
        ≡ grown true (take (at + 1) (map group_of groups.old.items)) edits 0 }
    ensures behind { drop (at + 1) (map group_of groups.new.items) ≡ drop (at + 1) (map group_of groups.old.items) }
    ensures len { vec_len groups.new ≡ vec_len groups.old }
{
    let mut more = edits.into_vec();
    let group = &mut groups[at];
    match group.edits.append(&mut more) {
        Ok(()) => {}
        Err(_) => unreachable!(),
    }
}

// Puts a group at this place, into the room that is there.
fn insert(groups: &mut Vec<Group>, at: usize, edits: DoneList, number: u64)
    requires within { at ≤ length groups.old.items }
    requires room { vec_len groups.old < vec_capacity groups.old }
    ensures front { take (at + 1) (map group_of groups.new.items)
        ≡ grown false (take at (map group_of groups.old.items)) edits number }
    ensures behind { drop (at + 1) (map group_of groups.new.items) ≡ drop at (map group_of groups.old.items) }
    ensures len { vec_len groups.new ≡ vec_len groups.old + 1 }
{
    let group = Group {
        number,
        edits: edits.into_vec(),
    };
    match groups.insert(at, group) {
        Ok(()) => {}
        Err(_) => unreachable!(),
    }
}

// Puts edits behind so many groups, as one or at the end of the last; gives how many groups those are then.
fn put(groups: &mut Vec<Group>, done: usize, on: bool, edits: DoneList, number: u64) -> usize
    requires some { on ≡ true → 0 < done }
    requires past { done ≤ length groups.old.items }
    requires slot { vec_len groups.old < vec_capacity groups.old }
    requires last { on ≡ true → SpareAt (done - 1) (length edits) groups.old.items }
    ensures front { take result (map group_of groups.new.items)
        ≡ grown on (take done (map group_of groups.old.items)) edits number }
    ensures behind { drop result (map group_of groups.new.items) ≡ drop done (map group_of groups.old.items) }
    ensures within { result ≤ vec_len groups.new }
{
    if on {
        extend(groups, done - 1, edits);
        done
    } else {
        insert(groups, done, edits, number);
        done + 1
    }
}

// Takes so many edits from the end of the group at this place.
fn shorten(groups: &mut Vec<Group>, at: usize, edits: usize)
    requires { at < length groups.old.items }
    ensures front { take (at + 1) (map group_of groups.new.items)
        ≡ ungrown false (take (at + 1) (map group_of groups.old.items)) edits }
    ensures behind { drop (at + 1) (map group_of groups.new.items) ≡ drop (at + 1) (map group_of groups.old.items) }
    ensures len { vec_len groups.new ≡ vec_len groups.old }
{
    let group = &mut groups[at];
    let kept = group.edits.len().saturating_sub(edits);
    group.edits.truncate(kept);
}

// Takes the group at this place away.
fn remove(groups: &mut Vec<Group>, at: usize)
    requires { at < length groups.old.items }
    ensures front { take at (map group_of groups.new.items)
        ≡ ungrown true (take (at + 1) (map group_of groups.old.items)) 0 }
    ensures behind { drop at (map group_of groups.new.items) ≡ drop (at + 1) (map group_of groups.old.items) }
    ensures len { vec_len groups.new + 1 ≡ vec_len groups.old }
{
    let _group = groups.remove(at);
}

// Takes back the last of so many groups, or its last edits; gives how many groups there are then.
fn take(groups: &mut Vec<Group>, done: usize, begins: bool, edits: usize) -> usize
    requires some { 0 < done }
    requires past { done ≤ length groups.old.items }
    ensures front { take result (map group_of groups.new.items)
        ≡ ungrown begins (take done (map group_of groups.old.items)) edits }
    ensures behind { drop result (map group_of groups.new.items) ≡ drop done (map group_of groups.old.items) }
    ensures within { result ≤ vec_len groups.new }
{
    if begins {
        remove(groups, done - 1);
        done - 1
    } else {
        shorten(groups, done - 1, edits);
        done
    }
}

impl UndoLog {
    /// Nothing was done yet, and each change will be a group of its own. It takes no memory.
    pub fn new(alloc: Global) -> UndoLog
        ensures { result ≡ no_log }
    {
        UndoLog {
            alloc,
            groups: Vec::new(alloc),
            done: 0,
            end: 0,
            marking: UNMARKED,
            room: 0,
            ready: None,
        }
    }

    /// What the next change does with the groups. It takes no memory.
    pub fn marking(&self) -> Marking
        ensures { result ≡ self.now.marking }
    {
        self.marking
    }

    /// Makes the marking what it was. Room that was reserved is given up. It takes no memory.
    pub fn restore(&mut self, marking: Marking)
        ensures { self.new ≡ restored self.old marking }
    {
        self.marking = marking;
        self.room = 0;
    }

    /// The ctl messages `mark` (automatic) and `nomark`: from now on each change is a group of its
    /// own, or all changes until the next call are one. The change of a step goes on where it began. It
    /// takes no memory.
    pub fn mark(&mut self, automatic: bool)
        ensures { self.new ≡ marked self.old automatic }
    {
        self.marking.automatic = automatic;
        self.marking.joins = false;
    }

    /// Makes room for a change of so many edits, of whichever step. A refusal changes nothing.
    pub fn reserve(&mut self, edits: usize) -> Result<(), NoMemory>
        ensures ok { OnOk result (self.new ≡ record self.old { room = edits; ready = None }) }
        ensures err { OnErr result (self.new ≡ self.old) }
    {
        self.make_room(edits, None)
    }

    /// Makes room for so many edits of the step of this number alone: in the last group only where they go there. A
    /// refusal changes nothing.
    pub fn reserve_for(&mut self, edits: usize, number: u64) -> Result<(), NoMemory>
        ensures ok { OnOk result (self.new ≡ record self.old { room = edits; ready = Some number }) }
        ensures err { OnErr result (self.new ≡ self.old) }
    {
        self.make_room(edits, Some(number))
    }

    // Makes room for so many edits of this step, or of any. A refusal changes nothing.
    fn make_room(&mut self, edits: usize, ready: Option<u64>) -> Result<(), NoMemory>
        ensures ok { OnOk result (self.new ≡ record self.old { room = edits; ready = ready }) }
        ensures err { OnErr result (self.new ≡ self.old) }
    {
        let on = may_go_on(self.marking, self.done, ready);
        grow(&mut self.groups, self.done, on, edits)?;
        self.room = edits;
        self.ready = ready;
        Ok(())
    }

    /// Puts the edits of the step of this number at the end of the groups that are past: into the last group
    /// where that was begun since `nomark` and is open, or where the last change was of that step, too, else as a
    /// group. The undone groups are forgotten. It takes no memory.
    pub fn push(&mut self, group: DoneList, number: u64)
        requires some { 0 < length group }
        requires room { length group ≤ self.old.room }
        requires ready { IsReadyFor self.old.ready number }
        ensures { self.new ≡ pushed self.old group number }
    {
        let on = goes_on(self.marking, self.done, number);
        let done = put(&mut self.groups, self.done, on, group, number);
        self.done = done;
        self.end = done;
        self.marking = marking_after(on, self.marking, number);
        self.room = 0;
    }

    /// What has to be known to take back a push of so many edits by the step of this number. It takes no memory.
    pub fn pushing(&self, edits: usize, number: u64) -> Pushed
        ensures { result ≡ pushing self.now edits number }
    {
        Pushed {
            begins: !goes_on(self.marking, self.done, number),
            edits,
            undone: self.end - self.done,
        }
    }

    /// Takes back a push: its group or its edits are gone, and the undone groups that it forgot are there again. The
    /// marking stays. It takes no memory.
    pub fn unpush(&mut self, pushed: Pushed)
        requires { CanUnpush self.old pushed }
        ensures { self.new ≡ unpushed self.old pushed }
    {
        let done = take(&mut self.groups, self.done, pushed.begins, pushed.edits);
        self.done = done;
        self.end = done + pushed.undone;
        self.room = 0;
    }

    /// The undone groups that were forgotten are gone, and their pushes can't be taken back any more. It takes no
    /// memory.
    pub fn settle(&mut self)
        ensures { self.new ≡ settled self.old }
    {
        self.groups.truncate(self.end);
    }

    /// Whether there is a group that Undo can take back. It takes no memory.
    pub fn can_undo(&self) -> bool
        ensures { result ≡ not (length self.now.past == 0) }
    {
        self.done != 0
    }

    /// Whether there is a group that Redo can make again. It takes no memory.
    pub fn can_redo(&self) -> bool
        ensures { result ≡ not (length self.now.future == 0) }
    {
        self.done != self.end
    }

    /// The number of the last group that is past, if there is one. It takes no memory.
    pub fn last(&self) -> Option<u64>
        ensures { result ≡ option_map number_in (last_of self.now.past) }
    {
        if self.done == 0 {
            return None;
        }
        Some(self.groups[self.done - 1].number)
    }

    /// The number of the first group that was undone, if there is one. It takes no memory.
    pub fn next(&self) -> Option<u64>
        ensures { result ≡ option_map number_in (first_of self.now.future) }
    {
        if self.done == self.end {
            return None;
        }
        Some(self.groups[self.done].number)
    }

    /// The edits of the last group that is past, or the last so many of them. It takes no memory.
    pub fn last_edits(&self, edits: usize) -> &[Done]
        requires { 0 < length self.now.past }
        ensures { result.now ≡ last_edits self.now.past edits }
    {
        let group = self.groups[self.done - 1].edits.as_slice();
        &group[group.len().saturating_sub(edits)..]
    }

    /// The edits of the last group that is past. It takes no memory.
    pub fn all_last(&self) -> &[Done]
        requires { 0 < length self.now.past }
        ensures { result.now ≡ all_last self.now.past }
    {
        self.groups[self.done - 1].edits.as_slice()
    }

    /// The edits of the first group that was undone. It takes no memory.
    pub fn all_first(&self) -> &[Done]
        requires { 0 < length self.now.future }
        ensures { result.now ≡ all_first self.now.future }
    {
        self.groups[self.done].edits.as_slice()
    }

    /// The edits that Undo makes: they take back the last group that is past, the last of its edits
    /// first. There are none where no group is past.
    pub fn undo(&self) -> Result<Option<Edits>, NoMemory>
        ensures exact { IfOk result (λ edits. edits ≡ undo_edits self.now) }
    {
        if self.done == 0 {
            return Ok(None);
        }
        let group = &self.groups[self.done - 1];
        Ok(Some(undoing(self.alloc, group.edits.as_slice())?))
    }

    /// The edits that Redo makes: those of the first group that was undone, again. There are none
    /// where no group was undone.
    pub fn redo(&self) -> Result<Option<Edits>, NoMemory>
        ensures exact { IfOk result (λ edits. edits ≡ redo_edits self.now) }
    {
        if self.done == self.end {
            return Ok(None);
        }
        let group = &self.groups[self.done];
        Ok(Some(redoing(self.alloc, group.edits.as_slice())?))
    }

    /// Undo was made: the last group that is past is the first of those that were undone, and the
    /// next change begins a group. It takes no memory.
    pub fn undone(&mut self)
        requires { 0 < length self.old.past }
        ensures { self.new ≡ undone self.old }
    {
        self.marking = ended(self.marking);
        self.room = 0;
        self.done -= 1;
    }

    /// Redo was made: the first group that was undone is the last that is past, and the next change
    /// begins a group. It takes no memory.
    pub fn redone(&mut self)
        requires { 0 < length self.old.future }
        ensures { self.new ≡ redone self.old }
    {
        self.marking = ended(self.marking);
        self.room = 0;
        self.done += 1;
    }
}
