//! What messages are served from.

ghost use Rattle.std.specs.Prelude.{◌≡◌, All};
ghost use Rattle.ninep_frame.specs.Records.{IsName};
ghost use Rattle.core_fids.specs.Servers.{plumber_in};

use acme_watch::OpeningCounts;
use am_text::Bytes;
use core_stores::RuleStore;
use core_windows::Windows;
use fid_table::Sessions;
use plumb_ports::Ports;

/// How many openings were ever made: of event files, and of `log` and `jobs`.
#[derive(Clone, Copy, Debug, PartialEq, Eq)]
pub struct Opened {
    pub events: usize,
    pub watch: OpeningCounts,
}

/// What the messages of a connection are served from.
#[derive(Clone, Copy)]
pub struct Server<'a> {
    /// The sessions and fids of all connections.
    pub sessions: &'a Sessions,
    pub windows: &'a Windows,
    /// The rules of the plumber, and its ports.
    pub rules: &'a RuleStore,
    pub ports: &'a Ports,
    pub opened: Opened,
    /// The number of the connection.
    pub conn: u32,
}

/// The names of the ports, in the order in which they were first seen. Each has a record.
pub fn port_names<'a>(server: &Server<'a>) -> &'a [Bytes]
    ensures exact { result.now ≡ (plumber_in server.now).names }
    ensures named { All IsName result.now }
{
    server.ports.names()
}
