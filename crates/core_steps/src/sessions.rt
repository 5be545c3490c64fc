//! The sessions, as they grow in a step.

ghost use Rattle.std.specs.Prelude.{◌≡◌, OnOk};
ghost use Rattle.fid_table.specs.Tables.{HasJoined};
ghost use Rattle.core_parts.specs.Connections.{IsJoinedFor, grown, grown_with};

use am_text::NoMemory;
use core_fids::{Effect, copy};
use core_parts::Kind;
use fid_table::Sessions;
use std::alloc::Global;

/// Lets the sessions grow as an event of this kind wants it. What they were is kept.
pub(crate) fn grow_sessions(
    alloc: Global,
    sessions: &mut Sessions,
    kind: Kind,
    effect: &Effect,
) -> Result<(), NoMemory>
    requires joined { IsJoinedFor sessions.old.present kind }
    ensures kept { sessions.new.kept ≡ sessions.old.kept }
    ensures ok { OnOk result (sessions.new.present ≡ grown sessions.old.present kind effect.now) }
{
    match kind {
        Kind::Dials { conn } => sessions.join(conn),
        Kind::Asks { conn, .. } => put_fid(alloc, sessions, conn, effect),
        Kind::Ends { .. } => Ok(()),
        Kind::Takes { .. } => Ok(()),
        Kind::Acts => Ok(()),
    }
}

fn put_fid(
    alloc: Global,
    sessions: &mut Sessions,
    conn: u32,
    effect: &Effect,
) -> Result<(), NoMemory>
    requires { HasJoined sessions.old.present conn }
    ensures kept { sessions.new.kept ≡ sessions.old.kept }
    ensures ok { OnOk result (sessions.new.present ≡ grown_with sessions.old.present conn effect.now) }
{
    match effect {
        Effect::Puts { number, fid } => sessions.put(conn, *number, copy(alloc, fid)?),
        Effect::Nothing => Ok(()),
        Effect::Begins { .. } => Ok(()),
        Effect::Frees { .. } => Ok(()),
    }
}
