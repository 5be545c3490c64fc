//! Sessions and their trees, after version(5) and attach(5).

ghost use Rattle.std.specs.Prelude.{◌≡◌, IfOk, IfErr, Ok};
ghost use Rattle.core_fids.specs.Refusals.{Gives};
ghost use Rattle.core_fids.specs.Done.{IsDone, IsStill};
ghost use Rattle.core_fids.specs.Servers.{server_in, windows_in};
ghost use Rattle.core_fids.specs.Attaching.{is_version, agreement, version_reaction, root_of, is_editor};
ghost use Rattle.core_fids.specs.Attaching.{attach_refusal, attach_reaction};

use crate::effect::{Effect, Reaction};
use crate::fids::{fids_full, fresh, is_used};
use crate::refusal::{Fault, Refusal, refuse};
use crate::server::Server;
use acme_tree::{Node, qid_of};
use am_text::{Items, NoMemory};
use ninep_types::{MAX_MSIZE, MIN_MSIZE, NO_FID, RBody, VERSION_NAME};
use std::alloc::Global;

fn is_version(version: &[u8]) -> bool
    ensures { result ≡ is_version version.now }
{
    version == VERSION_NAME || version.starts_with(b"9P2000.")
}

#[tactic(auto, using(crate::proofs::Answers::sent))]
fn agree(alloc: Global, msize: u32, version: &[u8]) -> Result<Reaction, NoMemory>
    ensures exact { IfOk result (λ d. d ≡ agreement msize version.now) }
    ensures still { IfOk result IsStill }
{
    if !is_version(version) {
        return Ok(Reaction::plain(
            Effect::Begins { msize: None },
            Items::new(alloc),
            RBody::Version {
                msize,
                version: Items::copied(alloc, b"unknown")?,
            },
        ));
    }
    Ok(Reaction::plain(
        Effect::Begins { msize: Some(msize) },
        Items::new(alloc),
        RBody::Version {
            msize,
            version: Items::copied(alloc, VERSION_NAME)?,
        },
    ))
}

/// What a Tversion does.
pub fn version(alloc: Global, msize: u32, version: &[u8]) -> Result<Reaction, NoMemory>
    ensures exact { IfOk result (λ d. d ≡ version_reaction msize version.now) }
    ensures still { IfOk result IsStill }
{
    if msize < MIN_MSIZE {
        let effect = Effect::Begins { msize: None };
        return refuse(alloc, effect, Refusal::MsizeTooSmall);
    }
    agree(alloc, msize.min(MAX_MSIZE), version)
}

fn is_editor(aname: &[u8]) -> bool
    ensures { result ≡ is_editor aname.now }
{
    aname.is_empty() || aname == b"acme".as_slice()
}

// The root of the tree of that name.
fn root_of(aname: &[u8]) -> Option<Node>
    ensures { result ≡ root_of aname.now }
{
    if is_editor(aname) {
        Some(Node::Root)
    } else if aname == b"plumb".as_slice() {
        Some(Node::PlumbRoot)
    } else {
        None
    }
}

fn attach_refusal(server: &Server, fid: u32, afid: u32) -> Option<Refusal>
    ensures { result ≡ attach_refusal (server_in server.now) fid afid }
{
    if fid == NO_FID {
        Some(Refusal::BadFid)
    } else if is_used(server, fid) {
        Some(Refusal::FidInUse)
    } else if afid != NO_FID {
        Some(Refusal::AuthenticationNotRequired)
    } else if fids_full(server) {
        Some(Refusal::TooManyFids)
    } else {
        None
    }
}

/// What a Tattach does.
pub fn attach(
    alloc: Global,
    server: &Server,
    fid: u32,
    afid: u32,
    aname: &[u8],
) -> Result<Reaction, Fault>
    ensures exact { IfOk result (λ d. attach_reaction (server_in server.now) fid afid aname.now ≡ Ok d) }
    ensures refused { IfErr result (λ e. Gives e (attach_reaction (server_in server.now) fid afid aname.now)) }
    ensures done { IfOk result (IsDone (windows_in server.now)) }
{
    if let Some(refusal) = attach_refusal(server, fid, afid) {
        return Err(Fault::Refused(refusal));
    }
    let Some(root) = root_of(aname) else {
        return Err(Fault::Refused(Refusal::NoSuchTree));
    };
    Ok(Reaction::plain(
        Effect::Puts {
            number: fid,
            fid: fresh(alloc, root),
        },
        Items::new(alloc),
        RBody::Attach { qid: qid_of(root) },
    ))
}
