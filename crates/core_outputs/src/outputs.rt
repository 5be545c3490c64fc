//! Replies of all connections that aren't taken yet.

ghost use Rattle.std.specs.Prelude.{◌≡◌, ◌<◌, ◌≤◌, ◌^◌, ℕ, length, map, replicate, slice_set, OnOk, IfOk};
ghost use Rattle.am_text.specs.Twice.{both, IsSteady};
ghost use Rattle.am_journal.specs.Limits.{connection_count};
ghost use Rattle.core_outputs.specs.Unsent.{with_reply, nothing_unsent, unsent_at, put_replies, taken, present_of};
ghost use Rattle.core_outputs.specs.Unsent.{kept_of, with_present, with_kept, HaveBytes, IsTouched};

use crate::reply::Reply;
use crate::unsent::Unsent;
use am_journal::CONNECTIONS;
use am_text::{NoMemory, Range};
use std::alloc::Global;
use std::marker::Model;

/// The unsent replies of the 64 connections, in two states.
pub struct Outputs {
    all: Vec<Unsent>,
    /// Where replies may have come since the last `keep`.
    touched: Range,
}

// By hand, so that a crate that drops outputs goes by this drop, and has not to prove those of all that is in them.
impl Drop for Outputs {
    fn drop(self) {
        let Outputs { all: _, touched: _ } = self;
    }
}

impl Model for Outputs {
    ghost use Rattle.std.specs.Prelude.{List};
    ghost use Rattle.am_text.specs.Twice.{Twice};
    ghost use Rattle.core_outputs.specs.Unsent.{Unsent};

    ghost Value = { Twice (List Unsent) };

    ghost use Rattle.std.specs.Prelude.{map};
    ghost use Rattle.core_outputs.specs.Unsent.{present_of, kept_of};

    ghost view = { λ o. record { present = map present_of o.all.items; kept = map kept_of o.all.items } };

    ghost use Rattle.core_outputs.specs.Unsent.{IsTouched};

    ghost invariant = { λ o. IsTouched o.touched o.all.items };
}

#[tactic(auto, using(crate::proofs::Places::more_unsent))]
fn new_outputs(alloc: Global) -> Result<Vec<Unsent>, NoMemory>
    ensures { IfOk result (λ all. all.items ≡ replicate connection_count (both nothing_unsent)) }
{
    let mut all = Vec::new(alloc);
    while all.len() < CONNECTIONS {
        all.push(Unsent::new(alloc))?;
    }
    Ok(all)
}

// A range in which no connection lies.
fn nowhere() -> Range
    ensures { result.q1 ≡ 0 }
{
    Range {
        q0: CONNECTIONS,
        q1: 0,
    }
}

// The range with a place more.
fn with_place(touched: Range, place: usize) -> Range
    requires { place < 2 ^ 32 }
    ensures before { result.q0 ≤ touched.q0 }
    ensures from { result.q0 ≤ place }
    ensures behind { touched.q1 ≤ result.q1 }
    ensures past { place < result.q1 }
    ensures within { (n : ℕ) → touched.q1 ≤ n → place < n → result.q1 ≤ n }
{
    Range {
        q0: touched.q0.min(place),
        q1: touched.q1.max(place + 1),
    }
}

fn keep_each(all: &mut [Unsent])
    ensures { all.new ≡ map with_present all.old }
{
    for unsent in all.iter_mut() {
        unsent.keep();
    }
}

fn back_each(all: &mut [Unsent])
    ensures { all.new ≡ map with_kept all.old }
{
    for unsent in all.iter_mut() {
        unsent.back();
    }
}

// What is kept of the touched ones is as they are now.
#[tactic(auto, using(crate::proofs::Places::touching))]
fn keep_touched(all: &mut [Unsent], touched: Range)
    requires { IsTouched touched all.old }
    ensures present { map present_of all.new ≡ map present_of all.old }
    ensures kept { map kept_of all.new ≡ map present_of all.old }
{
    if touched.q0 < touched.q1 {
        keep_each(&mut all[touched.q0..touched.q1]);
    }
}

// The touched ones are as they are kept.
#[tactic(auto, using(crate::proofs::Places::touching))]
fn back_touched(all: &mut [Unsent], touched: Range)
    requires { IsTouched touched all.old }
    ensures present { map present_of all.new ≡ map kept_of all.old }
    ensures kept { map kept_of all.new ≡ map kept_of all.old }
{
    if touched.q0 < touched.q1 {
        back_each(&mut all[touched.q0..touched.q1]);
    }
}

#[tactic(auto, using(crate::proofs::Places::putting))]
fn put_at(
    all: &mut [Unsent],
    touched: &mut Range,
    place: usize,
    reply: &[u8],
) -> Result<(), NoMemory>
    requires some { 0 < length reply.now }
    requires place { place < 2 ^ 32 }
    requires touched { IsTouched touched.old all.old }
    ensures present { OnOk result (map present_of all.new ≡ slice_set (map present_of all.old) place
        (with_reply (unsent_at (map present_of all.old) place) reply.now)) }
    ensures kept { map kept_of all.new ≡ map kept_of all.old }
    ensures touched { IsTouched touched.new all.new }
{
    if place < all.len() {
        *touched = with_place(*touched, place);
        let here = &mut all[place];
        here.put(reply)?;
    }
    Ok(())
}

fn put_each(all: &mut [Unsent], touched: &mut Range, replies: &[Reply]) -> Result<(), NoMemory>
    requires some { HaveBytes replies.now }
    requires touched { IsTouched touched.old all.old }
    ensures present { OnOk result (map present_of all.new ≡ put_replies (map present_of all.old) replies.now) }
    ensures kept { map kept_of all.new ≡ map kept_of all.old }
    ensures touched { IsTouched touched.new all.new }
{
    for reply in replies {
        put_at(all, touched, reply.conn as usize, reply.bytes.as_slice())?;
    }
    Ok(())
}

#[tactic(auto, using(crate::proofs::Places::empty_past))]
fn empty_at(alloc: Global, all: &mut [Unsent], place: usize)
    ensures { all.new ≡ slice_set all.old place (both nothing_unsent) }
{
    if place < all.len() {
        all[place] = Unsent::new(alloc);
    }
}

impl Outputs {
    /// No replies of 64 connections.
    #[tactic(auto, using(crate::proofs::Places::none_unsent, crate::proofs::Places::touching))]
    pub fn new(alloc: Global) -> Result<Outputs, NoMemory>
        ensures { IfOk result (λ outputs. outputs ≡ both (replicate connection_count nothing_unsent)) }
    {
        Ok(Outputs {
            all: new_outputs(alloc)?,
            touched: nowhere(),
        })
    }

    /// The present state becomes the kept one. It takes no memory.
    #[tactic(auto, using(crate::proofs::Places::touching))]
    pub fn keep(&mut self)
        ensures { self.new ≡ both self.old.present }
    {
        keep_touched(self.all.as_mut_slice(), self.touched);
        self.touched = nowhere();
    }

    /// The kept state becomes the present one again. It takes no memory.
    #[tactic(auto, using(crate::proofs::Places::touching))]
    pub fn back(&mut self)
        ensures { self.new ≡ both self.old.kept }
    {
        back_touched(self.all.as_mut_slice(), self.touched);
        self.touched = nowhere();
    }

    /// Puts replies behind those of their connections, one after another.
    pub fn put_all(&mut self, replies: &[Reply]) -> Result<(), NoMemory>
        requires { HaveBytes replies.now }
        ensures present { OnOk result (self.new.present ≡ put_replies self.old.present replies.now) }
        ensures kept { self.new.kept ≡ self.old.kept }
    {
        put_each(self.all.as_mut_slice(), &mut self.touched, replies)
    }

    /// The replies of a connection are taken: none of them is left. It takes no memory.
    #[tactic(auto, using(crate::proofs::Places::touching))]
    pub fn take(&mut self, alloc: Global, conn: u32)
        requires { IsSteady self.old }
        ensures { self.new ≡ both (taken self.old.present conn) }
    {
        empty_at(alloc, self.all.as_mut_slice(), conn as usize);
        self.touched = nowhere();
    }

    /// How many replies of a connection are kept.
    #[tactic(auto, using(crate::proofs::Places::unsent_places))]
    pub fn count(&self, conn: u32) -> usize
        ensures { result ≡ (unsent_at self.now.kept conn).count }
    {
        match self.all.get(conn as usize) {
            Some(unsent) => unsent.count(),
            None => 0,
        }
    }

    /// The kept replies of a connection, as bytes.
    #[tactic(auto, using(crate::proofs::Places::unsent_places))]
    pub fn bytes(&self, conn: u32) -> &[u8]
        ensures { result.now ≡ (unsent_at self.now.kept conn).bytes }
    {
        match self.all.get(conn as usize) {
            Some(unsent) => unsent.as_slice(),
            None => &[],
        }
    }
}
