//! Whether an event may come.

ghost use Rattle.std.specs.Prelude.{◌≡◌, false};
ghost use Rattle.am_journal.specs.Lawful.{IsLawful};
ghost use Rattle.core_intents.specs.Doings.{enabled_at, is_version, is_tag_used};
ghost use Rattle.core_parts.specs.Parts.{present_of, AreSteady};

use crate::enabled::{
    dial_refusal, live_refusal, msg_refusal, new_refusal, took_refusal, tree_refusal,
};
use crate::spot::{arg_refusal, spot_refusal};
use crate::typing::{key_refusal, sel_refusal};
use acme_tree::world_is_full;
use am_journal::{Event, Why};
use core_parts::{Parts, connection_at};
use fid_table::Sessions;
use ninep_types::{TBody, TMsg};
use ninep_wire::t_size;

fn is_version(body: &TBody) -> bool
    ensures { result ≡ is_version body.now }
{
    match body {
        TBody::Version { .. } => true,
        _ => false,
    }
}

// Whether a read with the message's tag waits. A Tversion drops all reads.
fn is_tag_used(sessions: &Sessions, conn: u32, msg: &TMsg) -> bool
    ensures { result ≡ is_tag_used sessions.now.present conn msg.now }
{
    !is_version(&msg.body) && sessions.waits(conn, msg.tag)
}

/// The first reason for which an event isn't enabled.
pub fn why_not(parts: &Parts, event: &Event) -> Option<Why>
    requires lawful { IsLawful event.now }
    requires steady { AreSteady parts.now }
    ensures { result ≡ enabled_at (present_of parts.now) event.now }
{
    match event {
        Event::Dial { conn } => dial_refusal(connection_at(&parts.connections, *conn)),
        Event::Msg { conn, msg } => msg_refusal(
            connection_at(&parts.connections, *conn),
            parts.sessions.msize(*conn),
            is_tag_used(&parts.sessions, *conn, msg),
            parts.outputs.count(*conn),
            t_size(msg),
        ),
        Event::Hang { conn, .. } => live_refusal(connection_at(&parts.connections, *conn)),
        Event::Took { conn } => took_refusal(
            connection_at(&parts.connections, *conn),
            parts.outputs.count(*conn),
        ),
        Event::New => new_refusal(world_is_full(parts.scene.windows.world())),
        Event::Key { window, side, text } => {
            key_refusal(&parts.scene.windows, *window, *side, text.as_slice())
        }
        Event::Sel { window, range } => sel_refusal(&parts.scene.windows, *window, *range),
        Event::Exec { at } => spot_refusal(&parts.scene.windows, *at),
        Event::Arg { at, chord } => arg_refusal(&parts.scene.windows, *at, *chord),
        Event::Look { at } => spot_refusal(&parts.scene.windows, *at),
        Event::File { path, .. } => tree_refusal(parts.scene.files.clashes_file(path.as_slice())),
        Event::Dir { path } => tree_refusal(parts.scene.files.clashes_dir(path.as_slice())),
    }
}
