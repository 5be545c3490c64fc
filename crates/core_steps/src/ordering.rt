//! Answers to waiting reads of several kinds of files, as one row in the order of asking.

ghost use Rattle.std.specs.Prelude.{◌≡◌, ◌<◌, ◌∷◌, [], ◌++◌, slice_get, length, IfOk, OnOk, IfSome, IfNone};
ghost use Rattle.core_events.specs.Responses.{AreSaid};
ghost use Rattle.core_steps.specs.Order.{older, younger, begins_older, merged, as_asked, place_in, is_here};

use am_text::{Items, NoMemory};
use core_events::{Response, Responses, joined};
use fid_table::Sessions;
use std::alloc::Global;
use std::collections::VecDeque;

// Whether the k-th read that waits is the one with this tag.
fn is_waiter(sessions: &Sessions, k: usize, conn: u32, tag: u16) -> bool
    ensures { result ≡ is_here conn tag (slice_get sessions.now.present.waiting k) }
{
    match sessions.waiter(k) {
        Some((of, with, _)) => of == conn && with == tag,
        None => false,
    }
}

// The place of the read that is answered among all that wait.
#[tactic(auto, using(crate::proofs::Rows::places), unfolding(crate::specs::Order::place_in))]
fn place_of(sessions: &Sessions, response: &Response) -> usize
    ensures { result ≡ place_in sessions.now.present response.now }
{
    let count = sessions.waiters();
    for k in 0..count {
        if is_waiter(sessions, k, response.conn, response.message.tag) {
            return k;
        }
    }
    count
}

// Whether a row begins with the answer to a read that doesn't stand behind this place.
fn begins_older(row: &VecDeque<Response>, sessions: &Sessions, place: usize) -> bool
    ensures { result ≡ begins_older (place_in sessions.now.present) place row.now.items }
{
    match row.front() {
        Some(next) => place_of(sessions, next) <= place,
        None => false,
    }
}

// Takes the first of a row, where it doesn't stand behind this place.
#[tactic(auto, using(crate::proofs::Rows::begins, crate::proofs::Rows::behind))]
fn next_older(row: &mut VecDeque<Response>, sessions: &Sessions, place: usize) -> Option<Response>
    ensures first { IfSome result (λ next. older (place_in sessions.now.present) place row.old.items
        ≡ next ∷ older (place_in sessions.now.present) place row.new.items) }
    ensures behind { IfSome result (λ next. younger (place_in sessions.now.present) place row.old.items
        ≡ younger (place_in sessions.now.present) place row.new.items) }
    ensures fewer { IfSome result (λ next. length row.new.items < length row.old.items) }
    ensures none { IfNone result (older (place_in sessions.now.present) place row.old.items ≡ []) }
    ensures rest { IfNone result (younger (place_in sessions.now.present) place row.old.items ≡ row.new.items) }
{
    if begins_older(row, sessions, place) {
        row.pop_front()
    } else {
        None
    }
}

// Puts those at the front of a row that don't stand behind this place.
fn put_older(
    all: &mut Responses,
    row: &mut VecDeque<Response>,
    sessions: &Sessions,
    place: usize,
) -> Result<(), NoMemory>
    ensures older { OnOk result (all.new ≡ all.old ++ older (place_in sessions.now.present) place row.old.items) }
    ensures younger { OnOk result (row.new.items ≡ younger (place_in sessions.now.present) place row.old.items) }
{
    'older: while let Some(next) = next_older(row, sessions, place) {
        all.push(next)?;
    }
    Ok(())
}

// Two rows as one.
fn merged(
    alloc: Global,
    sessions: &Sessions,
    row: Responses,
    others: Responses,
) -> Result<Responses, NoMemory>
    requires row { AreSaid row }
    requires others { AreSaid others }
    ensures exact { IfOk result (λ said. said ≡ merged (place_in sessions.now.present) others row) }
    ensures said { IfOk result AreSaid }
{
    let mut all = Items::new(alloc);
    let mut row = VecDeque::from_vec(row.into_vec());
    let mut others = VecDeque::from_vec(others.into_vec());
    'others: while let Some(next) = others.pop_front() {
        put_older(&mut all, &mut row, sessions, place_of(sessions, &next))?;
        all.push(next)?;
    }
    joined(all, Items::from_vec(row.into_vec()))
}

/// The answers to waiting reads of two kinds of files as one row, in the order of asking. Where one kind has none it
/// is the row of the other.
pub(crate) fn as_asked(
    alloc: Global,
    sessions: &Sessions,
    row: Responses,
    others: Responses,
) -> Result<Responses, NoMemory>
    requires row { AreSaid row }
    requires others { AreSaid others }
    ensures exact { IfOk result (λ said. said ≡ as_asked sessions.now.present (row ∷ others ∷ [])) }
    ensures said { IfOk result AreSaid }
{
    if others.is_empty() {
        return Ok(row);
    }
    if row.is_empty() {
        return Ok(others);
    }
    merged(alloc, sessions, row, others)
}
