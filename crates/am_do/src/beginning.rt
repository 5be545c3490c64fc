//! The version and the tree.

ghost use Rattle.std.specs.Prelude.{◌≡◌, ◌≤◌, [], IfOk, IfErr, OnOk};
ghost use Rattle.ninep_types.specs.Limits.{max_msize};
ghost use Rattle.ninep_types.specs.Spelling.{IsString};
ghost use Rattle.ninep_client.specs.Asking.{MaySend};
ghost use Rattle.am_do.specs.Talks.{attach_of, attach_told, begins, agreed};
ghost use Rattle.am_do.specs.Went.{IsReady, Went, Halted, ends};

use crate::answers::Reply;
use crate::asking::ask;
use crate::stop::Stop;
use am_base::{Sink, Source};
use am_text::{Items, NoMemory};
use ninep_client::{CallFault, Client, RBody, TBody, version_message};
use ninep_types::{MIN_MSIZE, NO_FID, VERSION_NAME};
use std::alloc::Global;

// The most bytes of a message that is asked for.
const ASKED_MSIZE: u32 = 8_192;

// The user.
const USER: &[u8] = b"acmefs";

// The most bytes of a message on which both agree.
fn agreed(reply: &Reply) -> Option<u32>
    ensures { result ≡ agreed reply.now }
{
    match reply {
        Ok(RBody::Version { msize, version }) => {
            if version.as_slice() == VERSION_NAME && MIN_MSIZE <= *msize && *msize <= ASKED_MSIZE {
                Some(*msize)
            } else {
                None
            }
        }
        _ => None,
    }
}

// The message that attaches a tree.
fn attach_message(alloc: Global, tree: &[u8]) -> Result<TBody, NoMemory>
    requires { IsString tree.now }
    ensures message { IfOk result (λ body. body ≡ attach_of tree.now) }
    ensures may { IfOk result (λ body. MaySend [] body) }
{
    let uname = Items::copied(alloc, USER)?;
    let aname = Items::copied(alloc, tree)?;
    Ok(TBody::Attach {
        fid: 0,
        afid: NO_FID,
        uname,
        aname,
    })
}

// Attaches the root of a tree as fid 0.
fn attach<R: Source, W: Sink>(
    alloc: Global,
    client: &mut Client<R, W>,
    tree: &[u8],
) -> Result<(), Stop>
    requires ready { IsReady client.old.talk }
    requires tree { IsString tree.now }
    ensures ok { OnOk result (Went (attach_told client.old.talk.msize tree.now) client.old.talk client.new.talk
        (W.told client.old.sink).bytes (W.told client.new.sink).bytes (R.told client.old.source).bytes (R.told client.new.source).bytes [] client.new.talk.msize) }
    ensures ready { OnOk result (IsReady client.new.talk) }
    ensures err { IfErr result (λ stop. Halted stop (attach_told client.old.talk.msize tree.now) client.old.talk
        (ends (W.told client.old.sink) (W.told client.new.sink)
        (R.told client.old.source) (R.told client.new.source)) []) }
    ensures later_sink { (W.told client.old.sink).faults ≤ (W.told client.new.sink).faults }
    ensures later_source { (R.told client.old.source).faults ≤ (R.told client.new.source).faults }
{
    let Ok(message) = attach_message(alloc, tree) else {
        return Err(Stop::Fault(CallFault::NoMemory));
    };
    match ask(alloc, client, message) {
        Ok(Ok(_)) => Ok(()),
        Ok(Err(_)) => Err(Stop::Refused),
        Err(stop) => Err(stop),
    }
}

/// Agrees on the version with a server, and attaches the root of a tree as fid 0.
pub(crate) fn begin<R: Source, W: Sink>(
    alloc: Global,
    client: &mut Client<R, W>,
    tree: &[u8],
) -> Result<(), Stop>
    requires ready { IsReady client.old.talk }
    requires most { client.old.talk.msize ≡ max_msize }
    requires tree { IsString tree.now }
    ensures ok { OnOk result (Went (begins tree.now) client.old.talk client.new.talk
        (W.told client.old.sink).bytes (W.told client.new.sink).bytes (R.told client.old.source).bytes (R.told client.new.source).bytes [] client.new.talk.msize) }
    ensures ready { OnOk result (IsReady client.new.talk) }
    ensures err { IfErr result (λ stop. Halted stop (begins tree.now) client.old.talk
        (ends (W.told client.old.sink) (W.told client.new.sink)
        (R.told client.old.source) (R.told client.new.source)) []) }
    ensures later_sink { (W.told client.old.sink).faults ≤ (W.told client.new.sink).faults }
    ensures later_source { (R.told client.old.source).faults ≤ (R.told client.new.source).faults }
{
    let Ok(message) = version_message(alloc, ASKED_MSIZE) else {
        return Err(Stop::Fault(CallFault::NoMemory));
    };
    match ask(alloc, client, message) {
        Ok(reply) => {
            if agreed(&reply).is_none() {
                return Err(Stop::Refused);
            }
            attach(alloc, client, tree)
        }
        Err(stop) => Err(stop),
    }
}
