//! Reads that wait, in the order of asking.

ghost use Rattle.std.specs.Prelude.{◌≡◌, ◌<◌, ◌&&◌, ◌||◌, ◌==◌, [], ◌∷◌, ◌++◌, map, filter, not, IfOk, IfSome, OnOk};
ghost use Rattle.std.specs.Prelude.{OnErr, find, position, length, false};
ghost use Rattle.std.specs.List.{list_any};
ghost use Rattle.am_text.specs.Twice.{Twice, both, IsSteady};
ghost use Rattle.wait_queue.specs.Reads.{without_first, without_read, without_reads_on, is_read, is_on};
ghost use Rattle.wait_queue.specs.Waiting.{is_here, is_ready, mark, here_again, AreHere};

use crate::types::Asker;
use crate::waiting_list::{Waiting, WaitingList};
use am_text::NoMemory;
use std::alloc::Global;
use std::marker::Model;

/// Something that answers some of the waiting reads: it has bytes for them, or it ends them.
pub trait Answers {
    ghost use Rattle.std.specs.Prelude.{Bool};
    ghost use Rattle.wait_queue.specs.declared.types.Asker.{Asker};

    ghost answers: { Self → Asker → Bool };

    /// Whether it can answer this read.
    fn can_answer(&self, asker: Asker) -> bool
        ensures { result ≡ answers self.now asker };
}

fn can_be_answered<A: Answers>(waiting: Waiting, by: &A) -> bool
    ensures { result ≡ is_ready (A.answers by.now) waiting }
{
    !waiting.gone && by.can_answer(waiting.asker)
}

fn gone_or_read(waiting: Waiting, conn: u32, tag: u16) -> bool
    ensures { result ≡ (waiting.gone || is_read conn tag waiting.asker) }
{
    waiting.gone || (waiting.asker.conn == conn && waiting.asker.tag == tag)
}

fn gone_or_on(waiting: Waiting, opening: u32) -> bool
    ensures { result ≡ (waiting.gone || is_on opening waiting.asker) }
{
    waiting.gone || waiting.asker.opening == opening
}

fn gone_or_answered<A: Answers>(waiting: Waiting, by: &A) -> bool
    ensures { result ≡ (waiting.gone || A.answers by.now waiting.asker) }
{
    waiting.gone || by.can_answer(waiting.asker)
}

fn place_of_ready<A: Answers>(all: &WaitingList, by: &A) -> Option<usize>
    ensures place { result ≡ position (is_ready (A.answers by.now)) all.now }
    ensures within { IfSome result (λ place. place < length all.now) }
{
    for i in 0..all.len() {
        if can_be_answered(all.get(i), by) {
            return Some(i);
        }
    }
    None
}

fn has_read(all: &WaitingList, conn: u32, tag: u16) -> bool
    ensures { result ≡ list_any (λ w. is_here w && is_read conn tag w.asker) all.now }
{
    for i in 0..all.len() {
        let waiting = all.get(i);
        if !waiting.gone && waiting.asker.conn == conn && waiting.asker.tag == tag {
            return true;
        }
    }
    false
}

fn mark_read(all: &mut WaitingList, conn: u32, tag: u16)
    ensures { all.new ≡ map (mark (is_read conn tag)) all.old }
{
    for i in 0..all.len() {
        let waiting = all.get(i);
        all.set_gone(i, gone_or_read(waiting, conn, tag));
    }
}

fn mark_reads_on(all: &mut WaitingList, opening: u32)
    ensures { all.new ≡ map (mark (is_on opening)) all.old }
{
    for i in 0..all.len() {
        let waiting = all.get(i);
        all.set_gone(i, gone_or_on(waiting, opening));
    }
}

fn mark_answered<A: Answers>(all: &mut WaitingList, by: &A)
    ensures { all.new ≡ map (mark (A.answers by.now)) all.old }
{
    for i in 0..all.len() {
        let waiting = all.get(i);
        all.set_gone(i, gone_or_answered(waiting, by));
    }
}

// Drops the reads that are gone. Where none is, it goes over none.
#[tactic(auto, using(crate::proofs::ReadLemmas::heres))]
fn drop_gone(all: &mut WaitingList, any_gone: bool)
    requires { any_gone ≡ false → AreHere all.old }
    ensures { all.new ≡ filter is_here all.old }
{
    if any_gone {
        all.retain_here();
    }
}

fn set_all_here(all: &mut WaitingList)
    ensures { all.new ≡ map here_again all.old }
{
    for i in 0..all.len() {
        all.set_gone(i, false);
    }
}

// The reads that are gone wait again. Where none is, it goes over none.
fn set_gone_here(all: &mut WaitingList, any_gone: bool)
    requires { any_gone ≡ false → AreHere all.old }
    ensures { all.new ≡ map here_again all.old }
{
    if any_gone {
        set_all_here(all);
    }
}

/// The waiting reads in the order of asking, in two states. The ones answered since the last `keep`
/// are still here, marked, and the ones that came since then stand after the kept ones.
pub struct Reads {
    all: WaitingList,
    kept: usize,
    // Whether any may be gone.
    any_gone: bool,
}

// By hand, so that a crate that drops reads goes by this drop, and has not to prove those of all that is in them.
impl Drop for Reads {
    fn drop(self) {
        let Reads {
            all: _,
            kept: _,
            any_gone: _,
        } = self;
    }
}

impl Model for Reads {
    ghost use Rattle.std.specs.Prelude.{List, take, map, filter, length, ◌≤◌};
    ghost use Rattle.am_text.specs.Twice.{Twice};
    ghost use Rattle.wait_queue.specs.declared.types.Asker.{Asker};

    ghost Value = { Twice (List Asker) };

    ghost use Rattle.wait_queue.specs.Waiting.{asker_of, is_here};

    ghost view = { λ r. record {
      present = map asker_of (filter is_here r.all);
      kept = map asker_of
          (take r.kept r.all);
    } };

    ghost use Rattle.std.specs.Prelude.{◌≡◌, false};
    ghost use Rattle.wait_queue.specs.Waiting.{AreHere};

    ghost invariant = { λ r. (r.kept ≤ length r.all) × (r.any_gone ≡ false → AreHere r.all) };
}

impl Reads {
    /// No reads. It takes no memory.
    pub fn new(alloc: Global) -> Self
        ensures { result ≡ both [] }
    {
        Reads {
            all: WaitingList::new(alloc),
            kept: 0,
            any_gone: false,
        }
    }

    /// A read waits, behind all others.
    pub fn push(&mut self, asker: Asker) -> Result<(), NoMemory>
        ensures ok { OnOk result
            (self.new ≡ record self.old { present = self.old.present ++ asker ∷ [] }) }
        ensures err { OnErr result (self.new ≡ self.old) }
    {
        self.all.push(asker)
    }

    /// The oldest read that can be answered.
    pub fn ready<A: Answers>(&self, by: &A) -> Option<Asker>
        ensures { result ≡ find (A.answers by.now) self.now.present }
    {
        let Some(place) = place_of_ready(&self.all, by) else {
            return None;
        };
        Some(self.all.get(place).asker)
    }

    /// The oldest read that can be answered doesn't wait any more.
    pub fn take_ready<A: Answers>(&mut self, by: &A)
        ensures { self.new ≡ record self.old { present = without_first (A.answers by.now) self.old.present } }
    {
        let Some(place) = place_of_ready(&self.all, by) else {
            return;
        };
        self.all.set_gone(place, true);
        self.any_gone = true;
    }

    /// Whether the read with this tag on this connection waited. It waits no more. It takes no memory.
    pub fn cancel(&mut self, conn: u32, tag: u16) -> bool
        requires { IsSteady self.old }
        ensures waited { result ≡ list_any (is_read conn tag) self.old.present }
        ensures new { self.new ≡ both (without_read self.old.present conn tag) }
    {
        let waited = has_read(&self.all, conn, tag);
        mark_read(&mut self.all, conn, tag);
        self.all.retain_here();
        self.any_gone = false;
        self.kept = self.all.len();
        waited
    }

    /// No read on this opening waits any more. It takes no memory.
    pub fn remove_on(&mut self, opening: u32)
        requires { IsSteady self.old }
        ensures { self.new ≡ both (without_reads_on self.old.present opening) }
    {
        mark_reads_on(&mut self.all, opening);
        self.all.retain_here();
        self.any_gone = false;
        self.kept = self.all.len();
    }

    /// None of the reads that can be answered waits any more. It takes no memory.
    pub fn remove_all<A: Answers>(&mut self, by: &A)
        requires { IsSteady self.old }
        ensures { self.new ≡ both (filter (λ r. not (A.answers by.now r)) self.old.present) }
    {
        mark_answered(&mut self.all, by);
        self.all.retain_here();
        self.any_gone = false;
        self.kept = self.all.len();
    }

    /// The present state becomes the kept one. It takes no memory.
    pub fn keep(&mut self)
        ensures { self.new ≡ both self.old.present }
    {
        drop_gone(&mut self.all, self.any_gone);
        self.any_gone = false;
        self.kept = self.all.len();
    }

    /// The kept state becomes the present one again. It takes no memory.
    pub fn back(&mut self)
        ensures { self.new ≡ both self.old.kept }
    {
        self.all.truncate(self.kept);
        set_gone_here(&mut self.all, self.any_gone);
        self.any_gone = false;
    }

    /// No read waits. It takes no memory.
    pub fn clear(&mut self)
        ensures { self.new ≡ both [] }
    {
        self.all.clear();
        self.kept = 0;
        self.any_gone = false;
    }
}
