//! Opening and reading ports.

ghost use Rattle.std.specs.Prelude.{◌≡◌, ◌+◌, ◌<◌, ◌^◌, IfOk, IfSome, OnOk};
ghost use Rattle.fid_table.specs.Tables.{HasJoined};
ghost use Rattle.core_fids.specs.Done.{IsSent};
ghost use Rattle.ninep_types.specs.Limits.{rread_head};
ghost use Rattle.core_events.specs.PortAsking.{can_join, joined_with, read_refusal, port_said, ports_read};
ghost use Rattle.core_events.specs.PortAsking.{tables_read_port};
ghost use Rattle.core_events.specs.PortSound.{ArePortsSound};

use crate::reads_are_full;
use am_text::NoMemory;
use core_fids::{EventChange, RBody, Refusal, error};
use fid_table::Sessions;
use plumb_ports::Ports;
use std::alloc::Global;
use wait_queue::{Asked, Asker};

// Whether the port is there, one opening more can be counted, and none has its number.
fn can_join(ports: &Ports, port: u32) -> bool
    ensures { result ≡ can_join ports.now.present port }
{
    let joined = ports.joined();
    (port as usize) < ports.len() && joined < u32::MAX && !ports.has_joined(joined + 1)
}

/// Makes an opening more of a port, where the message asks for one.
pub fn open_port(ports: &mut Ports, events: EventChange) -> Result<(), NoMemory>
    ensures kept { ports.new.kept ≡ ports.old.kept }
    ensures ok { OnOk result (ports.new.present ≡ joined_with ports.old.present events) }
    ensures sound { ArePortsSound ports.old.present → OnOk result (ArePortsSound ports.new.present) }
{
    match events {
        EventChange::Joins { port } => {
            if can_join(ports, port) {
                ports.join(port, ports.joined() + 1)?;
            }
            Ok(())
        }
        EventChange::Nothing => Ok(()),
        EventChange::Opens { .. } => Ok(()),
        EventChange::Watches { .. } => Ok(()),
        EventChange::Cancels { .. } => Ok(()),
    }
}

// Why a read is refused, if it is.
fn read_refusal(ports: &Ports, sessions: &Sessions, asker: Asker) -> Option<Refusal>
    ensures { result ≡ read_refusal sessions.now.present ports.now.present asker }
{
    if !ports.has_joined(asker.opening) {
        return Some(Refusal::FidIsNotOpen);
    }
    if ports.must_wait(asker) && reads_are_full(sessions, asker.conn) {
        return Some(Refusal::TooManyWaitingReads);
    }
    None
}

/// A read of a port: what is said to it at once, None where it waits. The read is one of this fid.
pub fn read_port(
    alloc: Global,
    ports: &mut Ports,
    sessions: &mut Sessions,
    asker: Asker,
    fid: u32,
) -> Result<Option<RBody>, NoMemory>
    requires sound { ArePortsSound ports.old.present }
    requires small { asker.count + rread_head < 2 ^ 32 }
    requires joined { HasJoined sessions.old.present asker.conn }
    ensures said { IfOk result (λ said. said ≡ port_said sessions.old.present ports.old.present asker) }
    ensures sent { IfOk result (λ said. IfSome said IsSent) }
    ensures ports { OnOk result (ports.new.present ≡ ports_read sessions.old.present ports.old.present asker) }
    ensures tables { OnOk result (sessions.new.present ≡ tables_read_port sessions.old.present ports.old.present asker
        fid) }
    ensures kept_ports { ports.new.kept ≡ ports.old.kept }
    ensures kept_tables { sessions.new.kept ≡ sessions.old.kept }
    ensures sound { OnOk result (ArePortsSound ports.new.present) }
{
    if let Some(refusal) = read_refusal(ports, sessions, asker) {
        return Ok(Some(error(alloc, refusal)?));
    }
    match ports.ask(asker)? {
        Asked::Now(piece) => Ok(Some(RBody::Read { bytes: piece.bytes })),
        Asked::Waits => {
            sessions.wait(asker.conn, asker.tag, fid)?;
            Ok(None)
        }
    }
}
