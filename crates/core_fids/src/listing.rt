//! Directory reads, after read(5), and stat(5).

ghost use Rattle.std.specs.Prelude.{◌≡◌, ◌+◌, ◌<◌, ◌≤◌, ◌^◌, IfOk, IfErr, Ok, length};
ghost use Rattle.ninep_types.specs.Limits.{rread_head};
ghost use Rattle.core_fids.specs.Servers.{fid_by, server_in, windows_in};
ghost use Rattle.core_fids.specs.Refusals.{Gives};
ghost use Rattle.core_fids.specs.Done.{IsDone};
ghost use Rattle.core_fids.specs.Directories.{asked_in, place_at, read_dir, stat_fid};

use crate::directory::dir_part;
use crate::effect::{Effect, Reaction};
use crate::fids::placed_fid;
use crate::refusal::{Fault, Refusal};
use crate::server::{Server, port_names};
use acme_tree::{is_live, stat_of};
use am_text::Items;
use fid_table::Fid;
use ninep_frame::stat_write;
use ninep_types::RBody;
use std::alloc::Global;

/// A read of a fid: its number, the fid, the place from which it reads, and the most bytes that it gets.
#[derive(Clone, Copy)]
pub struct Reading<'a> {
    pub number: u32,
    pub fid: &'a Fid,
    pub offset: u64,
    pub count: u32,
}

fn place_at(fid: &Fid, offset: u64) -> Option<usize>
    ensures { result ≡ place_at fid.now offset }
{
    if offset == 0 {
        Some(0)
    } else if offset == fid.given {
        Some(fid.skip)
    } else {
        None
    }
}

/// What a read of a directory does.
pub fn read_dir(alloc: Global, server: &Server, reading: &Reading) -> Result<Reaction, Fault>
    requires { reading.now.count + rread_head < 2 ^ 32 }
    ensures exact { IfOk result (λ d. read_dir (server_in server.now) (asked_in reading.now) reading.now.fid.now
        (place_at reading.now.fid.now reading.now.offset) ≡ Ok d) }
    ensures refused { IfErr result (λ e. Gives e (read_dir (server_in server.now) (asked_in reading.now)
        reading.now.fid.now (place_at reading.now.fid.now reading.now.offset))) }
    ensures done { IfOk result (IsDone (windows_in server.now)) }
{
    let fid = reading.fid;
    let Some(skip) = place_at(fid, reading.offset) else {
        return Err(Fault::Refused(Refusal::BadDirectoryOffset));
    };
    let part = dir_part(
        alloc,
        server.windows.world(),
        port_names(server),
        fid.node,
        skip,
        reading.count,
    )?;
    Ok(Reaction::plain(
        Effect::Puts {
            number: reading.number,
            fid: placed_fid(alloc, fid, reading.offset, skip, &part)?,
        },
        Items::new(alloc),
        RBody::Read { bytes: part.bytes },
    ))
}

/// What a Tstat does.
#[tactic(auto, using(crate::proofs::Answers::sent))]
pub fn stat(alloc: Global, server: &Server, number: u32) -> Result<Reaction, Fault>
    ensures exact { IfOk result (λ d. stat_fid (server_in server.now) (fid_by (server_in server.now) number) ≡ Ok d) }
    ensures refused { IfErr result (λ e. Gives e (stat_fid (server_in server.now)
        (fid_by (server_in server.now) number))) }
    ensures done { IfOk result (IsDone (windows_in server.now)) }
{
    let Some(fid) = server.sessions.fid(server.conn, number) else {
        return Err(Fault::Refused(Refusal::UnknownFid));
    };
    let ports = port_names(server);
    if !is_live(server.windows.world(), ports, fid.node) {
        return Err(Fault::Refused(Refusal::WindowDeleted));
    }
    let stat = stat_of(alloc, ports, fid.node)?;
    Ok(Reaction::plain(
        Effect::Nothing,
        Items::new(alloc),
        RBody::Stat {
            stat: stat_write(alloc, &stat)?,
        },
    ))
}
