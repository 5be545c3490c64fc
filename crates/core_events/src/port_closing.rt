//! What ends openings of ports and their waiting reads without a reply of their own.

ghost use Rattle.std.specs.Prelude.{◌≡◌, slice_get, option_copied};
ghost use Rattle.am_text.specs.Twice.{both, IsSteady};
ghost use Rattle.fid_table.specs.Tables.{fids_of};
ghost use Rattle.core_events.specs.PortClosing.{without_opening, opening_at, ports_without_fids, opening_in};
ghost use Rattle.core_events.specs.PortClosing.{ports_freed, ports_cancelled};
ghost use Rattle.core_events.specs.PortSound.{ArePortsSound, ArePortsIdle};

use core_fids::{Effect, EventChange, port_opening};
use fid_table::{Fid, Sessions};
use plumb_ports::Ports;

#[tactic(auto, using(crate::proofs::Ends::ending))]
fn close_opening(ports: &mut Ports, opening: Option<u32>)
    requires { IsSteady ports.old }
    ensures new { ports.new ≡ both (without_opening ports.old.present opening) }
    ensures sound { ArePortsSound ports.old.present → ArePortsSound ports.new.present }
    ensures idle { ArePortsIdle ports.old.present → ArePortsIdle ports.new.present }
{
    if let Some(opening) = opening {
        ports.leave(opening);
    }
}

// The opening of a port of a connection's k-th fid.
fn opening_at(sessions: &Sessions, conn: u32, k: usize) -> Option<u32>
    ensures { result ≡ opening_at (slice_get (fids_of sessions.now.present conn) k) }
{
    match sessions.fid_at(conn, k) {
        Some((_, fid)) => port_opening(fid),
        None => None,
    }
}

/// The openings of ports of all fids of a connection close. It takes no memory.
#[tactic(auto, using(crate::proofs::Ends::ending))]
pub fn free_port_fids(ports: &mut Ports, sessions: &Sessions, conn: u32)
    requires { IsSteady ports.old }
    ensures new { ports.new ≡ both (ports_without_fids ports.old.present sessions.now.present conn) }
    ensures sound { ArePortsSound ports.old.present → ArePortsSound ports.new.present }
    ensures idle { ArePortsIdle ports.old.present → ArePortsIdle ports.new.present }
{
    for k in 0..sessions.count(conn) {
        close_opening(ports, opening_at(sessions, conn, k));
    }
}

fn opening_in(fid: Option<&Fid>) -> Option<u32>
    ensures { result ≡ opening_in (option_copied fid.entry) }
{
    match fid {
        Some(fid) => port_opening(fid),
        None => None,
    }
}

/// The openings of ports of the fids that a message frees close. It takes no memory.
#[tactic(auto, using(crate::proofs::Ends::ending))]
pub fn free_port_openings(ports: &mut Ports, sessions: &Sessions, conn: u32, effect: &Effect)
    requires { IsSteady ports.old }
    ensures new { ports.new ≡ both (ports_freed ports.old.present sessions.now.present conn effect.now) }
    ensures sound { ArePortsSound ports.old.present → ArePortsSound ports.new.present }
    ensures idle { ArePortsIdle ports.old.present → ArePortsIdle ports.new.present }
{
    match effect {
        Effect::Begins { .. } => free_port_fids(ports, sessions, conn),
        Effect::Frees { number } => {
            close_opening(ports, opening_in(sessions.fid(conn, *number)));
        }
        Effect::Nothing => {}
        Effect::Puts { .. } => {}
    }
}

/// A read of a port that a Tflush names waits no more (flush(5)). It takes no memory.
#[tactic(auto, using(crate::proofs::Ends::ending))]
pub fn cancel_port_read(ports: &mut Ports, conn: u32, events: EventChange)
    requires { IsSteady ports.old }
    ensures new { ports.new ≡ both (ports_cancelled ports.old.present conn events) }
    ensures sound { ArePortsSound ports.old.present → ArePortsSound ports.new.present }
    ensures idle { ArePortsIdle ports.old.present → ArePortsIdle ports.new.present }
{
    match events {
        EventChange::Cancels { tag } => {
            ports.cancel(conn, tag);
        }
        EventChange::Nothing => {}
        EventChange::Opens { .. } => {}
        EventChange::Joins { .. } => {}
        EventChange::Watches { .. } => {}
    }
}
