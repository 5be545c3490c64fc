//! What a step does to connections, their sessions and fids.

ghost use Rattle.std.specs.Prelude.{◌≡◌, slice_set};
ghost use Rattle.am_text.specs.Twice.{both, IsSteady};
ghost use Rattle.fid_table.specs.Tables.{HasJoined};
ghost use Rattle.core_parts.specs.Connections.{connections_after, with_user, users_after, IsOfJoined, ended_with};
ghost use Rattle.core_closing.specs.Closing.{ended_tables};
ghost use Rattle.core_parts.specs.Doing.{Doing};

use am_text::Bytes;
use core_events::{Response, end_reads, forget_cancelled};
use core_fids::{Effect, EventChange};
use core_parts::{Connection, Kind};
use fid_table::Sessions;

#[tactic(auto, using(crate::proofs::Places::set_past))]
fn set_connection(connections: &mut [Connection], conn: u32, connection: Connection)
    ensures { connections.new ≡ slice_set connections.old conn connection }
{
    let place = conn as usize;
    if place < connections.len() {
        connections[place] = connection;
    }
}

/// Does an event of this kind to the connections. It takes no memory.
pub fn change_connections(connections: &mut [Connection], kind: Kind)
    ensures { connections.new ≡ connections_after connections.old kind }
{
    match kind {
        Kind::Dials { conn } => set_connection(connections, conn, Connection::Live),
        Kind::Ends { conn, why } => set_connection(connections, conn, Connection::Ended(why)),
        Kind::Asks { .. } => {}
        Kind::Takes { .. } => {}
        Kind::Acts => {}
    }
}

#[tactic(auto, using(crate::proofs::Places::set_past))]
fn set_user(users: &mut [Bytes], conn: u32, user: Option<Bytes>)
    ensures { users.new ≡ with_user users.old conn user }
{
    let Some(user) = user else {
        return;
    };
    let place = conn as usize;
    if place < users.len() {
        users[place] = user;
    }
}

/// Gives the connection of a message the user whom it attaches, if there is one. It takes no memory.
pub fn change_users(users: &mut [Bytes], kind: Kind, user: Option<Bytes>)
    ensures { users.new ≡ users_after users.old kind user }
{
    match kind {
        Kind::Asks { conn, .. } => set_user(users, conn, user),
        Kind::Dials { .. } => {}
        Kind::Ends { .. } => {}
        Kind::Takes { .. } => {}
        Kind::Acts => {}
    }
}

fn end_fids(sessions: &mut Sessions, conn: u32, effect: &Effect)
    requires joined { HasJoined sessions.old.present conn }
    requires steady { IsSteady sessions.old }
    ensures { sessions.new ≡ both (ended_with sessions.old.present conn effect.now) }
{
    match effect {
        Effect::Begins { msize } => sessions.version(conn, *msize),
        Effect::Frees { number } => {
            sessions.take(conn, *number);
        }
        Effect::Nothing => {}
        Effect::Puts { .. } => {}
    }
}

/// Ends the fids that an event of this kind frees, and the reads that were answered, in sessions that have grown as it
/// wants it. It takes no memory.
pub fn change_sessions(
    sessions: &mut Sessions,
    kind: Kind,
    effect: &Effect,
    events: EventChange,
    said: &[Response],
)
    requires { IsOfJoined sessions.old.present kind }
    ensures new { (d : Doing) → d.effect ≡ effect.now → d.events ≡ events → sessions.new
        ≡ both (ended_tables sessions.old.present kind d said.now) }
    ensures steady { IsSteady sessions.new }
{
    sessions.keep();
    match kind {
        Kind::Asks { conn, .. } => {
            end_fids(sessions, conn, effect);
            end_reads(sessions, said);
            forget_cancelled(sessions, conn, events);
        }
        Kind::Ends { conn, .. } => {
            sessions.hangup(conn);
            end_reads(sessions, said);
        }
        Kind::Dials { .. } => end_reads(sessions, said),
        Kind::Takes { .. } => end_reads(sessions, said),
        Kind::Acts => end_reads(sessions, said),
    }
}
