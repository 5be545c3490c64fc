//! What each message does, and its answer.

ghost use Rattle.std.specs.Prelude.{◌≡◌, IfOk, IfErr, Ok};
ghost use Rattle.ninep_types.specs.Spelling.{BodyFits_t};
ghost use Rattle.core_fids.specs.Done.{IsDone, IsStill};
ghost use Rattle.core_fids.specs.Refusals.{Gives};
ghost use Rattle.core_fids.specs.Servers.{server_in, windows_in};
ghost use Rattle.core_answers.specs.Reactions.{flush_reaction, session_reaction, needs_session, comes_first, reaction};

use crate::read::read;
use crate::write::write;
use am_text::{Items, NoMemory};
use core_fids::{
    Answer, Demand, Effect, EventChange, Fault, Reaction, Refusal, Server, attach, clunk, deny,
    open, refuse, remove, stat, version, walk,
};
use ninep_types::{RBody, TBody};
use std::alloc::Global;

fn flush(alloc: Global, oldtag: u16) -> Reaction
    ensures exact { result ≡ flush_reaction oldtag }
    ensures still { IsStill result }
{
    Reaction {
        effect: Effect::Nothing,
        events: EventChange::Cancels { tag: oldtag },
        changes: Items::new(alloc),
        demand: Demand::Nothing,
        answer: Answer::Says(RBody::Flush),
    }
}

#[tactic(auto, using(crate::proofs::Possibly::still))]
fn session_reaction(alloc: Global, server: &Server, body: &TBody) -> Result<Reaction, Fault>
    requires { BodyFits_t body.now }
    ensures exact { IfOk result (λ r. session_reaction (server_in server.now) body.now ≡ Ok r) }
    ensures refused { IfErr result (λ e. Gives e (session_reaction (server_in server.now) body.now)) }
    ensures done { IfOk result (IsDone (windows_in server.now)) }
{
    match body {
        TBody::Version {
            msize,
            version: name,
        } => Ok(version(alloc, *msize, name.as_slice())?),
        TBody::Auth { .. } => Err(Fault::Refused(Refusal::AuthenticationNotRequired)),
        TBody::Flush { oldtag } => Ok(flush(alloc, *oldtag)),
        TBody::Attach {
            fid,
            afid,
            aname,
            ..
        } => attach(alloc, server, *fid, *afid, aname.as_slice()),
        TBody::Walk { fid, newfid, names } => walk(alloc, server, *fid, *newfid, names.as_slice()),
        TBody::Open { fid, mode } => open(alloc, server, *fid, *mode),
        TBody::Create { fid, .. } => Err(Fault::Refused(deny(server, *fid))),
        TBody::Read { fid, offset, count } => read(alloc, server, *fid, *offset, *count),
        TBody::Write { fid, bytes, .. } => write(alloc, server, *fid, bytes.as_slice()),
        TBody::Clunk { fid } => clunk(alloc, server, *fid),
        TBody::Remove { fid } => remove(alloc, server, *fid),
        TBody::Stat { fid } => stat(alloc, server, *fid),
        TBody::Wstat { fid, .. } => Err(Fault::Refused(deny(server, *fid))),
    }
}

fn needs_session(body: &TBody) -> bool
    ensures { result ≡ needs_session body.now }
{
    match body {
        TBody::Version { .. } => false,
        TBody::Auth { .. } => true,
        TBody::Flush { .. } => true,
        TBody::Attach { .. } => true,
        TBody::Walk { .. } => true,
        TBody::Open { .. } => true,
        TBody::Create { .. } => true,
        TBody::Read { .. } => true,
        TBody::Write { .. } => true,
        TBody::Clunk { .. } => true,
        TBody::Remove { .. } => true,
        TBody::Stat { .. } => true,
        TBody::Wstat { .. } => true,
    }
}

fn comes_first(server: &Server, body: &TBody) -> bool
    ensures { result ≡ comes_first (server_in server.now) body.now }
{
    needs_session(body) && server.sessions.msize(server.conn).is_none()
}

/// What a message of a connection does, and its answer.
#[tactic(auto, using(crate::proofs::Possibly::still))]
pub fn reaction_of(alloc: Global, server: &Server, body: &TBody) -> Result<Reaction, NoMemory>
    requires { BodyFits_t body.now }
    ensures exact { IfOk result (λ r. r ≡ reaction (server_in server.now) body.now) }
    // Its answer has a spelling, and its change of the windows can be made.
    ensures done { IfOk result (IsDone (windows_in server.now)) }
{
    if comes_first(server, body) {
        return refuse(alloc, Effect::Nothing, Refusal::VersionFirst);
    }
    match session_reaction(alloc, server, body) {
        Ok(reaction) => Ok(reaction),
        Err(Fault::Refused(refusal)) => refuse(alloc, Effect::Nothing, refusal),
        Err(Fault::NoMemory) => Err(NoMemory),
    }
}
