//! Freeing fids, after clunk(5) and remove(5), and what is never done, after open(5) and stat(5).

ghost use Rattle.std.specs.Prelude.{◌≡◌, IfOk, IfErr, Ok, Err};
ghost use Rattle.fid_table.specs.Tables.{fid_of};
ghost use Rattle.core_fids.specs.Servers.{tables_in, windows_in};
ghost use Rattle.core_fids.specs.Refusals.{Gives};
ghost use Rattle.core_fids.specs.Done.{IsDone};
ghost use Rattle.core_fids.specs.Opening.{clunk_fid, denial, remove_fid, rest_demand};

use crate::effect::{Demand, Reaction};
use crate::fids::holds_rules;
use crate::refusal::{Fault, Refusal, error};
use crate::server::Server;
use am_text::{Items, NoMemory};
use fid_table::Fid;
use ninep_types::RBody;
use std::alloc::Global;

/// Why a Tcreate or a Twstat isn't done.
pub fn deny(server: &Server, number: u32) -> Refusal
    ensures { denial (fid_of (tables_in server.now) server.now.conn number) ≡ Err result }
{
    if server.sessions.fid(server.conn, number).is_some() {
        Refusal::PermissionDenied
    } else {
        Refusal::UnknownFid
    }
}

// The rest of a set that a fid of `rules` holds is added.
fn rest_demand(alloc: Global, fid: &Fid) -> Result<Demand, NoMemory>
    ensures { IfOk result (λ demand. demand ≡ rest_demand fid.now) }
{
    if !holds_rules(fid) {
        return Ok(Demand::Nothing);
    }
    let text = Items::copied(alloc, fid.held.as_slice())?;
    Ok(Demand::AddsRest { text })
}

/// What a Tclunk does.
#[tactic(auto, using(crate::proofs::Answers::freed))]
pub fn clunk(alloc: Global, server: &Server, number: u32) -> Result<Reaction, Fault>
    ensures exact { IfOk result (λ d. clunk_fid number (fid_of (tables_in server.now) server.now.conn number) ≡ Ok d) }
    ensures refused { IfErr result (λ e. Gives e (clunk_fid number
        (fid_of (tables_in server.now) server.now.conn number))) }
    ensures done { IfOk result (IsDone (windows_in server.now)) }
{
    let Some(fid) = server.sessions.fid(server.conn, number) else {
        return Err(Fault::Refused(Refusal::UnknownFid));
    };
    let demand = rest_demand(alloc, fid)?;
    Ok(Reaction::freeing(alloc, number, demand, RBody::Clunk))
}

/// What a Tremove does: it is refused, and frees the fid.
#[tactic(auto, using(crate::proofs::Answers::freed))]
pub fn remove(alloc: Global, server: &Server, number: u32) -> Result<Reaction, Fault>
    ensures exact { IfOk result (λ d. remove_fid number (fid_of (tables_in server.now) server.now.conn number) ≡ Ok d) }
    ensures refused { IfErr result (λ e. Gives e (remove_fid number
        (fid_of (tables_in server.now) server.now.conn number))) }
    ensures done { IfOk result (IsDone (windows_in server.now)) }
{
    let Some(fid) = server.sessions.fid(server.conn, number) else {
        return Err(Fault::Refused(Refusal::UnknownFid));
    };
    let demand = rest_demand(alloc, fid)?;
    let answer = error(alloc, Refusal::PermissionDenied)?;
    Ok(Reaction::freeing(alloc, number, demand, answer))
}
