//! The type bytes of messages, and their meaning for a client.

ghost use Rattle.std.specs.Prelude.{◌≡◌, ◌≢◌, ◌≤◌, IfOk, IfErr};
ghost use Rattle.ninep_types.specs.Kinds.{rerror};
ghost use Rattle.ninep_types.specs.Spelling.{kind_r};
ghost use Rattle.ninep_client.specs.Asking.{is_version};
ghost use Rattle.ninep_client.specs.Hearing.{answers, msize_after, IsRemote};

use crate::fault::CallFault;
use ninep_types::{MAX_MSIZE, RBody, RERROR, TBody, TVERSION};
use ninep_wire::{r_kind, t_kind};

/// Whether a message is a version message.
pub(crate) fn is_version(body: &TBody) -> bool
    ensures { result ≡ is_version body.now }
{
    t_kind(body) == TVERSION
}

/// Whether a reply answers a message of this type byte: it has the type after it, or is an error.
pub(crate) fn answers(kind: u8, body: &RBody) -> bool
    ensures { result ≡ answers kind body.now }
{
    let reply = r_kind(body);
    reply == RERROR || u16::from(reply) == u16::from(kind) + 1
}

/// The most bytes of a message, once this reply was given.
pub(crate) fn msize_after(body: &RBody, most: u32) -> u32
    ensures { result ≡ msize_after body.now most }
{
    match body {
        RBody::Version { msize, .. } => (*msize).min(MAX_MSIZE),
        _ => most,
    }
}

/// A reply, or the text of an error.
pub(crate) fn outcome_of(body: RBody) -> Result<RBody, CallFault>
    ensures ok { IfOk result (λ reply. (reply ≡ body) × (kind_r reply ≢ rerror)) }
    ensures err { IfErr result (λ e. IsRemote body e) }
{
    match body {
        RBody::Error { ename } => Err(CallFault::Remote(ename)),
        reply => Ok(reply),
    }
}
