//! Waiting reads of ports that can be answered now are answered, the oldest first.

ghost use Rattle.std.specs.Prelude.{◌≡◌, IfOk, OnOk};
ghost use Rattle.core_events.specs.Responses.{AreSaid};
ghost use Rattle.core_events.specs.PortServing.{ports_served, ports_after_serving};
ghost use Rattle.core_events.specs.PortSound.{ArePortsSound, ArePortsIdle};

use crate::{Feed, FeedKind, Response, Responses};
use am_text::{Items, NoMemory};
use core_fids::RBody;
use ninep_types::RMsg;
use plumb_ports::Ports;
use std::alloc::Global;

/// Answers the waiting reads of ports that can be answered, the oldest first, until none can.
pub fn serve_ports(alloc: Global, ports: &mut Ports) -> Result<Responses, NoMemory>
    requires { ArePortsSound ports.old.present }
    ensures exact { IfOk result (λ said. said ≡ ports_served ports.old.present) }
    ensures said { IfOk result AreSaid }
    ensures kept { ports.new.kept ≡ ports.old.kept }
    ensures ok { OnOk result (ports.new.present ≡ ports_after_serving ports.old.present) }
    ensures sound { OnOk result (ArePortsSound ports.new.present) }
    ensures idle { OnOk result (ArePortsIdle ports.new.present) }
{
    let mut said = Items::new(alloc);
    while let Some((asker, piece)) = ports.serve()? {
        said.push(Response {
            conn: asker.conn,
            message: RMsg {
                tag: asker.tag,
                body: RBody::Read { bytes: piece.bytes },
            },
            feed: Some(Feed {
                kind: FeedKind::Port,
                opening: asker.opening,
            }),
        })?;
    }
    Ok(said)
}
