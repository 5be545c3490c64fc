//! The waiting reads that a clunk and a deletion end, and those that wait no more.

ghost use Rattle.std.specs.Prelude.{◌≡◌, [], ◌∷◌, ◌++◌, ℕ, slice_get, filter, option_copied, IfOk, OnOk};
ghost use Rattle.am_text.specs.Twice.{both, IsSteady};
ghost use Rattle.core_fids.specs.declared.refusal.Refusal.TheVariants.{FidClunked as fid_clunked};
ghost use Rattle.core_fids.specs.declared.refusal.Refusal.TheVariants.{WindowDeleted as window_deleted};
ghost use Rattle.core_events.specs.Responses.{AreSaid, feed_in, feed_at, error, errors};
ghost use Rattle.core_events.specs.Waits.{is_of_fid, is_of_window, answer_where, clunked, is_event_of, reads_event_of};
ghost use Rattle.core_events.specs.Waits.{deletions, ended, without_cancelled};

use crate::response::{Feed, Response, Responses, feed_in, joined};
use acme_tree::{Node, WinFile};
use am_text::{Items, NoMemory};
use core_fids::{Effect, EventChange, Refusal, error};
use fid_table::{Fid, Sessions};
use ninep_types::RMsg;
use std::alloc::Global;

/// A read that waits: its connection and tag, and what it is fed by.
#[derive(Clone, Copy)]
pub struct Waiter {
    pub conn: u32,
    pub tag: u16,
    pub feed: Option<Feed>,
}

// Says that a waiting read is refused.
fn refuse(
    alloc: Global,
    said: &mut Responses,
    waiter: Waiter,
    refusal: Refusal,
) -> Result<(), NoMemory>
    requires { AreSaid said.old }
    ensures ok { OnOk result (said.new ≡ said.old ++ error refusal waiter.feed waiter.conn waiter.tag ∷ []) }
    ensures said { OnOk result (AreSaid said.new) }
{
    let body = error(alloc, refusal)?;
    said.push(Response {
        conn: waiter.conn,
        message: RMsg {
            tag: waiter.tag,
            body,
        },
        feed: waiter.feed,
    })
}

/// A fid of a connection.
#[derive(Clone, Copy)]
pub struct FidOf {
    pub conn: u32,
    pub fid: u32,
}

// Answers the k-th waiting read, where it is one of this fid.
fn answer_clunked(
    alloc: Global,
    said: &mut Responses,
    sessions: &Sessions,
    of: FidOf,
    k: usize,
) -> Result<(), NoMemory>
    requires { AreSaid said.old }
    ensures ok { OnOk result (said.new ≡ said.old ++ answer_where fid_clunked sessions.now.present
        (is_of_fid of.conn of.fid) (slice_get sessions.now.present.waiting k)) }
    ensures said { OnOk result (AreSaid said.new) }
{
    let Some((conn, tag, fid)) = sessions.waiter(k) else {
        return Ok(());
    };
    if conn == of.conn && fid == of.fid {
        let feed = feed_in(sessions.fid(conn, fid));
        refuse(alloc, said, Waiter { conn, tag, feed }, Refusal::FidClunked)
    } else {
        Ok(())
    }
}

// The answers to the waiting reads of a fid that is freed.
fn clunked_reads(
    alloc: Global,
    sessions: &Sessions,
    conn: u32,
    fid: u32,
) -> Result<Responses, NoMemory>
    ensures exact { IfOk result (λ said. said ≡ errors fid_clunked sessions.now.present
        (filter (is_of_fid conn fid) sessions.now.present.waiting)) }
    ensures said { IfOk result AreSaid }
{
    let mut said = Items::new(alloc);
    for k in 0..sessions.waiters() {
        answer_clunked(alloc, &mut said, sessions, FidOf { conn, fid }, k)?;
    }
    Ok(said)
}

/// The answers to the waiting reads that a message ends by freeing their fid, the oldest first (clunk(5)).
pub fn clunked(
    alloc: Global,
    sessions: &Sessions,
    conn: u32,
    effect: &Effect,
) -> Result<Responses, NoMemory>
    ensures exact { IfOk result (λ said. said ≡ clunked sessions.now.present conn effect.now) }
    ensures said { IfOk result AreSaid }
{
    match effect {
        Effect::Frees { number } => clunked_reads(alloc, sessions, conn, *number),
        Effect::Nothing => Ok(Items::new(alloc)),
        Effect::Begins { .. } => Ok(Items::new(alloc)),
        Effect::Puts { .. } => Ok(Items::new(alloc)),
    }
}

fn is_event_of(window: u32, node: Node) -> bool
    ensures { result ≡ is_event_of window node }
{
    match node {
        Node::File(of, WinFile::Event) => of == window,
        _ => false,
    }
}

fn reads_event_of(window: u32, fid: Option<&Fid>) -> bool
    ensures { result ≡ reads_event_of window (option_copied fid.entry) }
{
    match fid {
        Some(fid) => is_event_of(window, fid.node),
        None => false,
    }
}

// Answers the k-th waiting read, where it is one of this window's event file.
fn answer_deleted(
    alloc: Global,
    said: &mut Responses,
    sessions: &Sessions,
    window: u32,
    k: usize,
) -> Result<(), NoMemory>
    requires { AreSaid said.old }
    ensures ok { OnOk result (said.new ≡ said.old ++ answer_where window_deleted sessions.now.present
        (is_of_window sessions.now.present window) (slice_get sessions.now.present.waiting k)) }
    ensures said { OnOk result (AreSaid said.new) }
{
    let Some((conn, tag, fid)) = sessions.waiter(k) else {
        return Ok(());
    };
    let read = sessions.fid(conn, fid);
    if reads_event_of(window, read) {
        let feed = feed_in(read);
        refuse(
            alloc,
            said,
            Waiter { conn, tag, feed },
            Refusal::WindowDeleted,
        )
    } else {
        Ok(())
    }
}

// The answers to the reads that wait on the event file of this window.
fn deleted_reads(alloc: Global, sessions: &Sessions, window: u32) -> Result<Responses, NoMemory>
    ensures exact { IfOk result (λ said. said ≡ errors window_deleted sessions.now.present
        (filter (is_of_window sessions.now.present window) sessions.now.present.waiting)) }
    ensures said { IfOk result AreSaid }
{
    let mut said = Items::new(alloc);
    for k in 0..sessions.waiters() {
        answer_deleted(alloc, &mut said, sessions, window, k)?;
    }
    Ok(said)
}

/// The answers to the reads that wait on the event files of windows that are deleted: window by window, and the oldest
/// first.
#[tactic(auto, using(crate::proofs::Endings::joined, crate::proofs::Saids::saying))]
pub fn deletions(alloc: Global, sessions: &Sessions, windows: &[u32]) -> Result<Responses, NoMemory>
    ensures exact { IfOk result (λ said. said ≡ deletions sessions.now.present windows.now) }
    ensures said { IfOk result AreSaid }
{
    let mut said = Items::new(alloc);
    for window in windows {
        said = joined(said, deleted_reads(alloc, sessions, *window)?)?;
    }
    Ok(said)
}

/// The reads that these answer wait no more. It takes no memory.
pub fn end_reads(sessions: &mut Sessions, said: &[Response])
    requires { IsSteady sessions.old }
    ensures { sessions.new ≡ both (ended sessions.old.present said.now) }
{
    for response in said {
        sessions.done(response.conn, response.message.tag);
    }
}

/// A read that a Tflush names waits no more. It takes no memory.
pub fn forget_cancelled(sessions: &mut Sessions, conn: u32, events: EventChange)
    requires { IsSteady sessions.old }
    ensures { sessions.new ≡ both (without_cancelled sessions.old.present conn events) }
{
    match events {
        EventChange::Cancels { tag } => sessions.done(conn, tag),
        EventChange::Nothing => {}
        EventChange::Opens { .. } => {}
        EventChange::Joins { .. } => {}
        EventChange::Watches { .. } => {}
    }
}
