//! What the items of a message come from.

ghost use Rattle.std.specs.Prelude.{◌≡◌, option_copied};
ghost use Rattle.core_intents.specs.Origins.{is_text, origin_at, message_origin};

use acme_tree::{Node, WinFile};
use fid_table::{Fid, Sessions};
use ninep_types::TBody;
use win_events::Origin;

fn is_text(node: Node) -> bool
    ensures { result ≡ is_text node }
{
    match node {
        Node::File(_, WinFile::Body) => true,
        Node::File(_, WinFile::Tag) => true,
        _ => false,
    }
}

fn origin_at(fid: Option<&Fid>) -> Origin
    ensures { result ≡ origin_at (option_copied fid.entry) }
{
    match fid {
        Some(fid) if is_text(fid.node) => Origin::E,
        Some(_) => Origin::F,
        None => Origin::F,
    }
}

/// What the items of a message come from: a write to `body` or `tag`, or something else.
pub(crate) fn message_origin(sessions: &Sessions, conn: u32, body: &TBody) -> Origin
    ensures { result ≡ message_origin sessions.now.present conn body.now }
{
    match body {
        TBody::Write { fid, .. } => origin_at(sessions.fid(conn, *fid)),
        _ => Origin::F,
    }
}
