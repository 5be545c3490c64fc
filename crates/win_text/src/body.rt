//! The body of a window.

ghost use Rattle.std.specs.Prelude.{◌≡◌, ◌<◌, ◌≤◌, ◌+◌, ◌^◌, ◌==◌, not, [], length, take, drop, slice_range, IfOk};
ghost use Rattle.std.specs.Prelude.{IfSome, OnOk};
ghost use Rattle.am_text.specs.Utf8.{utf8};
ghost use Rattle.edit_log.specs.Edited.{text_after};
ghost use Rattle.win_text.specs.Bodies.{empty_body, IsInside, IsLimitInside, IsSound, AreInRange, moved, moved_limit};
ghost use Rattle.win_text.specs.Bodies.{group_for, put_length, with_dot, with_addr, with_limit, marked_body};
ghost use Rattle.win_text.specs.Bodies.{undo_plan_of, redo_plan_of, IsPlanFor, IsReady, applied, history_of};
ghost use Rattle.win_text.specs.Traces.{total, shape_of, made, settled_shape, trace_of, unmade, CanUnmake, noted_trace};
ghost use Rattle.win_text.specs.Traces.{marks_of};
ghost use Rattle.edit_log.specs.Groups.{last_of, first_of, number_in};
ghost use Rattle.std.specs.Option.{option_map};
ghost use Rattle.win_text.specs.BodyStories.{IsChangeOf, moved_or_set, plan_of};

use crate::groups::{group_for, kind_of, make_edits, note_plan, reserve_log, runes_put, take_back};
use crate::plans::plan_of_any;
use crate::ranges::range_after;
use crate::types::{Marks, PlanKind, Ready, TextPlan, Trace, TraceKind};
use am_text::{Bytes, Letters, NoMemory, Range, Rune, Runes};
use edit_log::{Edit, Edits, UndoLog};
use rune_gap::RuneText;
use std::alloc::Global;
use std::marker::Model;

/// The text of a window's body, the ranges in it, and the groups of edits that Undo takes back.
/// Contracts see that state, and how many runes and edits can be put in without taking memory.
pub struct Body {
    alloc: Global,
    text: RuneText,
    dot: Range,
    addr: Range,
    limit: Option<Range>,
    log: UndoLog,
}

// By hand, so that a crate that drops a body goes by this drop, and has not to prove those of all that is in it.
impl Drop for Body {
    fn drop(self) {
        let Body {
            alloc: _,
            text: _,
            dot: _,
            addr: _,
            limit: _,
            log: _,
        } = self;
    }
}

impl Model for Body {
    ghost use Rattle.win_text.specs.Bodies.{BodyRoom, IsSound};
    ghost use Rattle.win_text.specs.Kept.{state_of};

    ghost Value = { BodyRoom };

    ghost view = { λ b. record {
      state = state_of b.text.items b.dot b.addr b.limit b.log;
      forgotten = b.log.forgotten;
      runes = b.text.spare;
      edits = b.log.room;
      ready = b.log.ready;
    } };

    ghost invariant = { λ b. IsSound (state_of b.text.items b.dot b.addr b.limit b.log) };
}

const FRONT: Range = Range { q0: 0, q1: 0 };

impl Body {
    /// The body without runes: each range is null at the front, there is no limit, and each change
    /// will be a group of its own. It takes no memory.
    pub fn new(alloc: Global) -> Body
        ensures { result.state ≡ empty_body }
    {
        Body {
            alloc,
            text: RuneText::new(alloc),
            dot: FRONT,
            addr: FRONT,
            limit: None,
            log: UndoLog::new(alloc),
        }
    }

    /// The selected range.
    pub fn dot(&self) -> Range
        ensures { result ≡ self.now.state.dot }
    {
        self.dot
    }

    /// The range that the file `addr` holds.
    pub fn addr(&self) -> Range
        ensures { result ≡ self.now.state.addr }
    {
        self.addr
    }

    /// The range that bounds searches, if there is one.
    pub fn limit(&self) -> Option<Range>
        ensures { result ≡ self.now.state.limit }
    {
        self.limit
    }

    /// Each range is in the text, and the groups lead to it, in every body.
    pub fn is_sound(&self)
        ensures { IsSound self.now.state }
    {
        // law: it is the invariant of a body, known once a field is read
        let _dot = self.dot;
    }

    /// Whether there is a group that Undo can take back. It takes no memory.
    pub fn can_undo(&self) -> bool
        ensures { result ≡ not (length self.now.state.history.past == 0) }
    {
        self.log.can_undo()
    }

    /// Whether there is a group that Redo can make again. It takes no memory.
    pub fn can_redo(&self) -> bool
        ensures { result ≡ not (length self.now.state.history.future == 0) }
    {
        self.log.can_redo()
    }

    /// The runes from `q0` to before `q1`.
    pub fn slice(&self, q0: usize, q1: usize) -> Result<Runes, NoMemory>
        requires order { q0 ≤ q1 }
        requires bounds { q1 ≤ length self.now.state.text }
        ensures { IfOk result (λ runes. runes ≡ slice_range self.now.state.text q0 q1) }
    {
        self.text.slice(q0, q1)
    }

    /// The whole text.
    pub fn text(&self) -> Result<Runes, NoMemory>
        ensures { IfOk result (λ runes. runes ≡ self.now.state.text) }
    {
        self.text.slice(0, self.text.len())
    }

    /// The bytes of the text in UTF-8 from an offset on, at most `count` of them. A rune may be cut at
    /// both ends. What stands before the offset isn't walked over.
    pub fn part(&self, offset: u64, count: usize) -> Result<Bytes, NoMemory>
        ensures { IfOk result (λ bytes. bytes ≡ take count (drop offset (utf8 self.now.state.text))) }
    {
        self.text.part(offset, count)
    }

    /// Sets dot. It takes no memory.
    pub fn set_dot(&mut self, range: Range)
        requires { IsInside self.old.state.text range }
        ensures { self.new ≡ record self.old { state = with_dot self.old.state range } }
    {
        self.dot = range;
    }

    /// Sets addr. It takes no memory.
    pub fn set_addr(&mut self, range: Range)
        requires { IsInside self.old.state.text range }
        ensures { self.new ≡ record self.old { state = with_addr self.old.state range } }
    {
        self.addr = range;
    }

    /// Sets the limit, or takes it away. It takes no memory.
    pub fn set_limit(&mut self, range: Option<Range>)
        requires { IsLimitInside self.old.state.text range }
        ensures { self.new ≡ record self.old { state = with_limit self.old.state range } }
    {
        self.limit = range;
    }

    /// The ctl messages `mark` (automatic) and `nomark`: from now on each change is a group of its
    /// own, or all changes until the next call are one. It takes no memory.
    pub fn mark(&mut self, automatic: bool)
        ensures { self.new ≡ record self.old { state = marked_body self.old.state automatic } }
    {
        self.log.mark(automatic);
    }

    /// The plan of a change by the step of this number: these edits, and dot after them, or where dot moves with them.
    pub fn plan(&self, edits: Edits, dot: Option<Range>, number: u64) -> Result<TextPlan, NoMemory>
        requires { IsChangeOf self.now.state.text (record { edits = edits; dot = dot }) }
        ensures plan { IfOk result (λ plan. plan ≡ plan_of self.now.state
            (record { edits = edits; dot = dot }) number) }
        ensures sound { IfOk result (λ plan. IsPlanFor self.now.state plan) }
    {
        let dot = self.dot_after(edits.as_slice(), dot)?;
        Ok(TextPlan {
            edits,
            dot,
            kind: PlanKind::Change,
            number,
        })
    }

    /// The plan of Undo: the last group that is past is taken back, the last of its edits first, and
    /// dot is then what the last edit of the plan has put. There is none where no group is past.
    pub fn undo_plan(&self) -> Result<Option<TextPlan>, NoMemory>
        ensures exact { IfOk result (λ plan. plan ≡ undo_plan_of self.now.state) }
        ensures sound { IfOk result (λ plan. IfSome plan (IsPlanFor self.now.state)) }
    {
        plan_of_any(PlanKind::Undo, self.log.undo()?)
    }

    /// The plan of Redo: the first group that was undone is made again, and dot is then what its
    /// last edit has put. There is none where no group was undone.
    pub fn redo_plan(&self) -> Result<Option<TextPlan>, NoMemory>
        ensures exact { IfOk result (λ plan. plan ≡ redo_plan_of self.now.state) }
        ensures sound { IfOk result (λ plan. IfSome plan (IsPlanFor self.now.state)) }
    {
        plan_of_any(PlanKind::Redo, self.log.redo()?)
    }

    /// Makes ready to do a plan: room for its runes and its edits, and what a change will cut and put.
    /// The state stays, and no room is given up, whatever the answer.
    pub fn reserve(&mut self, plan: &TextPlan) -> Result<Ready, NoMemory>
        requires { IsPlanFor self.old.state plan.now }
        ensures state { self.new.state ≡ self.old.state }
        ensures forgotten { self.new.forgotten ≡ self.old.forgotten }
        ensures runes { self.old.runes ≤ self.new.runes }
        ensures room { OnOk result (IsReady self.new plan.now) }
        ensures group { IfOk result (λ ready. ready ≡ group_for self.old.state plan.now) }
    {
        let edits = plan.edits.as_slice();
        let added = runes_put(edits)?;
        self.text.reserve(added)?;
        reserve_log(&mut self.log, plan.kind, edits.len(), plan.number)?;
        Ok(Ready::of(group_for(self.alloc, &self.text, plan, added)?))
    }

    /// Does a plan that was made ready: its edits are done, addr and limit move with them, and dot is
    /// set. The edits of a change are a group, or more of the open one; a change without edits leaves
    /// the groups as they are. Undo and Redo move a group, and the next change begins another. It
    /// takes no memory.
    pub fn apply(&mut self, plan: TextPlan, ready: Ready)
        requires plan { IsPlanFor self.old.state plan }
        requires room { IsReady self.old plan }
        requires group { ready ≡ group_for self.old.state plan }
        ensures state { self.new.state ≡ applied self.old.state plan }
        ensures settled { self.new.forgotten ≡ [] }
    {
        self.do_plan(plan, ready);
        self.settle();
    }

    /// Does a plan that was made ready, as `apply`, but so that `unmake` can take it back. It takes no memory.
    pub fn make(&mut self, plan: TextPlan, ready: Ready) -> Trace
        requires plan { IsPlanFor self.old.state plan }
        requires room { IsReady self.old plan }
        requires group { ready ≡ group_for self.old.state plan }
        ensures state { self.new.state ≡ applied self.old.state plan }
        ensures total { total self.new ≡ total self.old }
        ensures back { unmade result (shape_of self.new) ≡ shape_of self.old }
        ensures can { CanUnmake (total self.new) result (shape_of self.new) }
    {
        let trace = self.trace_of(&plan);
        self.do_plan(plan, ready);
        trace
    }

    /// Takes back what `make` did: text, ranges, groups and marking are those of then. It takes no memory.
    pub fn unmake(&mut self, trace: Trace)
        requires { CanUnmake (total self.old) trace (shape_of self.old) }
        ensures shape { shape_of self.new ≡ unmade trace (shape_of self.old) }
        ensures total { total self.new ≡ total self.old }
    {
        take_back(&mut self.text, &mut self.log, trace.kind);
        self.log.restore(trace.marks.marking);
        self.dot = trace.marks.dot;
        self.addr = trace.marks.addr;
        self.limit = trace.marks.limit;
    }

    /// What has to be known to take back settings that are made from here on. It takes no memory.
    pub fn note(&self) -> Trace
        ensures trace { result ≡ noted_trace self.now.state }
        ensures sound { IsSound self.now.state }
    {
        // law: the ranges of a body are inside its text
        self.is_sound();
        Trace {
            kind: TraceKind::Nothing,
            marks: self.marks(),
        }
    }

    // The ranges and the marking.
    fn marks(&self) -> Marks
        ensures { result ≡ marks_of self.now.state }
    {
        Marks {
            dot: self.dot,
            addr: self.addr,
            limit: self.limit,
            marking: self.log.marking(),
        }
    }

    /// What was made can't be taken back any more. It takes no memory.
    pub fn settle(&mut self)
        ensures { self.new ≡ record self.old { forgotten = [] } }
    {
        self.log.settle();
    }

    /// The number of the last group that is past, if there is one. It takes no memory.
    pub fn last_group(&self) -> Option<u64>
        ensures { result ≡ option_map number_in (last_of self.now.state.history.past) }
    {
        self.log.last()
    }

    /// The number of the first group that was undone, if there is one. It takes no memory.
    pub fn next_group(&self) -> Option<u64>
        ensures { result ≡ option_map number_in (first_of self.now.state.history.future) }
    {
        self.log.next()
    }

    // What has to be known to take back this plan.
    fn trace_of(&self, plan: &TextPlan) -> Trace
        ensures trace { result ≡ trace_of self.now.state plan.now }
        ensures sound { IsSound self.now.state }
    {
        Trace {
            kind: kind_of(&self.log, plan.kind, plan.edits.len(), plan.number),
            marks: self.marks(),
        }
    }

    // Does a plan that was made ready.
    fn do_plan(&mut self, plan: TextPlan, ready: Ready)
        requires plan { IsPlanFor self.old.state plan }
        requires room { IsReady self.old plan }
        requires group { ready ≡ group_for self.old.state plan }
        ensures shape { shape_of self.new ≡ made (shape_of self.old) plan }
        ensures total { total self.new ≡ total self.old }
    {
        let edits = plan.edits.as_slice();
        let addr = self.addr_after(edits);
        let limit = self.limit_after(edits);
        make_edits(&mut self.text, edits);
        note_plan(&mut self.log, plan.kind, ready.into_group(), plan.number);
        self.dot = plan.dot;
        self.addr = addr;
        self.limit = limit;
    }

    // Where dot is after these edits of a change, which may set it.
    fn dot_after(&self, edits: &[Edit], dot: Option<Range>) -> Result<Range, NoMemory>
        requires { IsChangeOf self.now.state.text (record { edits = edits.now; dot = dot }) }
        ensures dot { IfOk result (λ after. after ≡ moved_or_set self.now.state.dot edits.now dot) }
        ensures inside { IfOk result (λ after. IsInside (text_after self.now.state.text edits.now) after) }
    {
        match dot {
            Some(range) => Ok(range),
            None => {
                let added = runes_put(edits)?;
                let _end = self.dot.q1.checked_add(added).ok_or(NoMemory)?;
                Ok(range_after(self.dot, edits))
            }
        }
    }

    // Where addr is after these edits.
    fn addr_after(&self, edits: &[Edit]) -> Range
        requires range { AreInRange self.now.state.text edits.now }
        requires fits { length self.now.state.text + put_length edits.now < 2 ^ 64 }
        ensures { result ≡ moved self.now.state.addr edits.now }
    {
        range_after(self.addr, edits)
    }

    // Where the limit is after these edits.
    fn limit_after(&self, edits: &[Edit]) -> Option<Range>
        requires range { AreInRange self.now.state.text edits.now }
        requires fits { length self.now.state.text + put_length edits.now < 2 ^ 64 }
        ensures { result ≡ moved_limit self.now.state.limit edits.now }
    {
        match self.limit {
            None => None,
            Some(range) => Some(range_after(range, edits)),
        }
    }
}

impl Letters for Body {
    ghost letters = { λ body. body.state.text };

    fn len(&self) -> usize {
        self.text.len()
    }

    fn at(&self, i: usize) -> Rune {
        self.text.get(i)
    }
}
