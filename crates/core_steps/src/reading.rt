//! A message that reads a port of the plumber.

ghost use Rattle.std.specs.Prelude.{◌≡◌, ◌∷◌, [], Some, IfOk, IfSome, OnOk};
ghost use Rattle.core_fids.specs.Done.{IsSent};
ghost use Rattle.core_events.specs.Responses.{AreSaid};
ghost use Rattle.core_events.specs.PortSound.{ArePortsSound};
ghost use Rattle.core_steps.specs.PortReads.{port_read_in, port_read_of, port_response, asked_said, asked_ports};
ghost use Rattle.core_steps.specs.PortReads.{asked_tables, IsReadable};

use am_text::{Items, NoMemory};
use core_events::{Ports, Response, Responses, port_feed, read_port};
use core_fids::Answer;
use core_parts::Kind;
use fid_table::Sessions;
use ninep_types::{RBody, RMsg};
use std::alloc::Global;
use wait_queue::Asker;

/// A read of a port: the fid that is read, and who asks for how much of which opening.
#[derive(Clone, Copy, Debug, PartialEq, Eq)]
pub struct PortRead {
    pub fid: u32,
    pub asker: Asker,
}

fn port_read_in(conn: u32, tag: u16, answer: &Option<Answer>) -> Option<PortRead>
    ensures { result ≡ port_read_in conn tag answer.now }
{
    match answer {
        Some(
            Answer::ReadsPort {
                fid,
                opening,
                count,
            },
        ) => Some(PortRead {
            fid: *fid,
            asker: Asker {
                conn,
                tag,
                opening: *opening,
                count: *count,
            },
        }),
        Some(Answer::ReadsWatch { .. }) => None,
        Some(Answer::Reads { .. }) => None,
        Some(Answer::Says(_)) => None,
        None => None,
    }
}

/// The read of a port that an event of this kind is, by how it is to be answered, if it is one.
pub(crate) fn port_read_of(kind: Kind, answer: &Option<Answer>) -> Option<PortRead>
    ensures { result ≡ port_read_of kind answer.now }
{
    match kind {
        Kind::Asks { conn, tag } => port_read_in(conn, tag, answer),
        Kind::Dials { .. } => None,
        Kind::Ends { .. } => None,
        Kind::Takes { .. } => None,
        Kind::Acts => None,
    }
}

#[tactic(auto, using(crate::proofs::Saids::saying))]
fn port_response(alloc: Global, asker: Asker, body: RBody) -> Result<Responses, NoMemory>
    requires { IsSent body }
    ensures exact { IfOk result (λ said. said ≡ port_response asker body ∷ []) }
    ensures said { IfOk result AreSaid }
{
    let mut said = Items::new(alloc);
    said.push(Response {
        conn: asker.conn,
        message: RMsg {
            tag: asker.tag,
            body,
        },
        feed: Some(port_feed(asker.opening)),
    })?;
    Ok(said)
}

/// What is said to a read of a port at once. It is nothing where there is no such read, or it waits.
#[tactic(auto, using(crate::proofs::Saids::saying))]
pub(crate) fn ask_port(
    alloc: Global,
    ports: &mut Ports,
    sessions: &mut Sessions,
    read: Option<PortRead>,
) -> Result<Responses, NoMemory>
    requires sound { ArePortsSound ports.old.present }
    requires readable { IfSome read (IsReadable sessions.old.present) }
    ensures exact { IfOk result (λ said. said ≡ asked_said sessions.old.present ports.old.present read) }
    ensures said { IfOk result AreSaid }
    ensures ports { OnOk result (ports.new.present ≡ asked_ports sessions.old.present ports.old.present read) }
    ensures tables { OnOk result (sessions.new.present ≡ asked_tables sessions.old.present ports.old.present read) }
    ensures kept_ports { ports.new.kept ≡ ports.old.kept }
    ensures kept_tables { sessions.new.kept ≡ sessions.old.kept }
    ensures sound { OnOk result (ArePortsSound ports.new.present) }
{
    let Some(PortRead { fid, asker }) = read else {
        return Ok(Items::new(alloc));
    };
    match read_port(alloc, ports, sessions, asker, fid)? {
        Some(body) => port_response(alloc, asker, body),
        None => Ok(Items::new(alloc)),
    }
}
