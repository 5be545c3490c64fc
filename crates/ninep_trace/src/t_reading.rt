//! Messages to the server, from words.

ghost use Rattle.std.specs.Prelude.{◌≡◌};
ghost use Rattle.ninep_trace.specs.Fields.{Gives};
ghost use Rattle.ninep_trace.specs.Reading.{t_version_at, t_auth_at, t_flush_at, t_attach_at, t_walk_at, t_open_at};
ghost use Rattle.ninep_trace.specs.Reading.{t_create_at, t_read_at, t_write_at, t_clunk_at, t_remove_at, t_stat_at};
ghost use Rattle.ninep_trace.specs.Reading.{t_wstat_at, t_body_at, t_message_at};

use crate::fields::{
    SHORT, take_bytes, take_names, take_text, take_u8, take_u16, take_u32, take_u64,
};
use crate::unread::Unread;
use am_text::cut_field;
use ninep_types::{MAX_MSIZE, TBody, TMsg};
use ninep_wire::t_size;
use std::alloc::Global;

#[tactic(auto, unfolding(crate::specs::Reading::t_version_at))]
fn take_t_version(alloc: Global, rest: &[u8]) -> Result<(TBody, &[u8]), Unread>
    ensures { Gives (λ x. (x.0, x.1.now)) result (t_version_at rest.now) }
{
    let (msize, rest) = take_u32(b" msize=", rest)?;
    let (version, rest) = take_text(alloc, b" version=", rest)?;
    Ok((TBody::Version { msize, version }, rest))
}

#[tactic(auto, unfolding(crate::specs::Reading::t_auth_at))]
fn take_t_auth(alloc: Global, rest: &[u8]) -> Result<(TBody, &[u8]), Unread>
    ensures { Gives (λ x. (x.0, x.1.now)) result (t_auth_at rest.now) }
{
    let (afid, rest) = take_u32(b" afid=", rest)?;
    let (uname, rest) = take_text(alloc, b" uname=", rest)?;
    let (aname, rest) = take_text(alloc, b" aname=", rest)?;
    Ok((TBody::Auth { afid, uname, aname }, rest))
}

#[tactic(auto, unfolding(crate::specs::Reading::t_flush_at))]
fn take_t_flush(rest: &[u8]) -> Result<(TBody, &[u8]), Unread>
    ensures { Gives (λ x. (x.0, x.1.now)) result (t_flush_at rest.now) }
{
    let (oldtag, rest) = take_u16(b" oldtag=", rest)?;
    Ok((TBody::Flush { oldtag }, rest))
}

#[tactic(auto, unfolding(crate::specs::Reading::t_attach_at))]
fn take_t_attach(alloc: Global, rest: &[u8]) -> Result<(TBody, &[u8]), Unread>
    ensures { Gives (λ x. (x.0, x.1.now)) result (t_attach_at rest.now) }
{
    let (fid, rest) = take_u32(b" fid=", rest)?;
    let (afid, rest) = take_u32(b" afid=", rest)?;
    let (uname, rest) = take_text(alloc, b" uname=", rest)?;
    let (aname, rest) = take_text(alloc, b" aname=", rest)?;
    Ok((
        TBody::Attach {
            fid,
            afid,
            uname,
            aname,
        },
        rest,
    ))
}

#[tactic(auto, unfolding(crate::specs::Reading::t_walk_at))]
fn take_t_walk(alloc: Global, rest: &[u8]) -> Result<(TBody, &[u8]), Unread>
    ensures { Gives (λ x. (x.0, x.1.now)) result (t_walk_at rest.now) }
{
    let (fid, rest) = take_u32(b" fid=", rest)?;
    let (newfid, rest) = take_u32(b" newfid=", rest)?;
    let (names, rest) = take_names(alloc, b" names=", rest)?;
    Ok((TBody::Walk { fid, newfid, names }, rest))
}

#[tactic(auto, unfolding(crate::specs::Reading::t_open_at))]
fn take_t_open(rest: &[u8]) -> Result<(TBody, &[u8]), Unread>
    ensures { Gives (λ x. (x.0, x.1.now)) result (t_open_at rest.now) }
{
    let (fid, rest) = take_u32(b" fid=", rest)?;
    let (mode, rest) = take_u8(b" mode=", rest)?;
    Ok((TBody::Open { fid, mode }, rest))
}

#[tactic(auto, unfolding(crate::specs::Reading::t_create_at))]
fn take_t_create(alloc: Global, rest: &[u8]) -> Result<(TBody, &[u8]), Unread>
    ensures { Gives (λ x. (x.0, x.1.now)) result (t_create_at rest.now) }
{
    let (fid, rest) = take_u32(b" fid=", rest)?;
    let (name, rest) = take_text(alloc, b" name=", rest)?;
    let (perm, rest) = take_u32(b" perm=", rest)?;
    let (mode, rest) = take_u8(b" mode=", rest)?;
    Ok((
        TBody::Create {
            fid,
            name,
            perm,
            mode,
        },
        rest,
    ))
}

#[tactic(auto, unfolding(crate::specs::Reading::t_read_at))]
fn take_t_read(rest: &[u8]) -> Result<(TBody, &[u8]), Unread>
    ensures { Gives (λ x. (x.0, x.1.now)) result (t_read_at rest.now) }
{
    let (fid, rest) = take_u32(b" fid=", rest)?;
    let (offset, rest) = take_u64(b" offset=", rest)?;
    let (count, rest) = take_u32(b" count=", rest)?;
    Ok((TBody::Read { fid, offset, count }, rest))
}

#[tactic(auto, unfolding(crate::specs::Reading::t_write_at))]
fn take_t_write(alloc: Global, rest: &[u8]) -> Result<(TBody, &[u8]), Unread>
    ensures { Gives (λ x. (x.0, x.1.now)) result (t_write_at rest.now) }
{
    let (fid, rest) = take_u32(b" fid=", rest)?;
    let (offset, rest) = take_u64(b" offset=", rest)?;
    let (bytes, rest) = take_bytes(alloc, b" data=", MAX_MSIZE as usize + 1, rest)?;
    Ok((TBody::Write { fid, offset, bytes }, rest))
}

#[tactic(auto, unfolding(crate::specs::Reading::t_clunk_at))]
fn take_t_clunk(rest: &[u8]) -> Result<(TBody, &[u8]), Unread>
    ensures { Gives (λ x. (x.0, x.1.now)) result (t_clunk_at rest.now) }
{
    let (fid, rest) = take_u32(b" fid=", rest)?;
    Ok((TBody::Clunk { fid }, rest))
}

#[tactic(auto, unfolding(crate::specs::Reading::t_remove_at))]
fn take_t_remove(rest: &[u8]) -> Result<(TBody, &[u8]), Unread>
    ensures { Gives (λ x. (x.0, x.1.now)) result (t_remove_at rest.now) }
{
    let (fid, rest) = take_u32(b" fid=", rest)?;
    Ok((TBody::Remove { fid }, rest))
}

#[tactic(auto, unfolding(crate::specs::Reading::t_stat_at))]
fn take_t_stat(rest: &[u8]) -> Result<(TBody, &[u8]), Unread>
    ensures { Gives (λ x. (x.0, x.1.now)) result (t_stat_at rest.now) }
{
    let (fid, rest) = take_u32(b" fid=", rest)?;
    Ok((TBody::Stat { fid }, rest))
}

#[tactic(auto, unfolding(crate::specs::Reading::t_wstat_at))]
fn take_t_wstat(alloc: Global, rest: &[u8]) -> Result<(TBody, &[u8]), Unread>
    ensures { Gives (λ x. (x.0, x.1.now)) result (t_wstat_at rest.now) }
{
    let (fid, rest) = take_u32(b" fid=", rest)?;
    let (stat, rest) = take_bytes(alloc, b" stat=", SHORT, rest)?;
    Ok((TBody::Wstat { fid, stat }, rest))
}

#[tactic(auto, unfolding(crate::specs::Reading::t_body_at))]
fn take_t_body<'a>(alloc: Global, name: &[u8], rest: &'a [u8]) -> Result<(TBody, &'a [u8]), Unread>
    ensures { Gives (λ x. (x.0, x.1.now)) result (t_body_at name.now rest.now) }
{
    if name == b"Tversion".as_slice() {
        take_t_version(alloc, rest)
    } else if name == b"Tauth".as_slice() {
        take_t_auth(alloc, rest)
    } else if name == b"Tflush".as_slice() {
        take_t_flush(rest)
    } else if name == b"Tattach".as_slice() {
        take_t_attach(alloc, rest)
    } else if name == b"Twalk".as_slice() {
        take_t_walk(alloc, rest)
    } else if name == b"Topen".as_slice() {
        take_t_open(rest)
    } else if name == b"Tcreate".as_slice() {
        take_t_create(alloc, rest)
    } else if name == b"Tread".as_slice() {
        take_t_read(rest)
    } else if name == b"Twrite".as_slice() {
        take_t_write(alloc, rest)
    } else if name == b"Tclunk".as_slice() {
        take_t_clunk(rest)
    } else if name == b"Tremove".as_slice() {
        take_t_remove(rest)
    } else if name == b"Tstat".as_slice() {
        take_t_stat(rest)
    } else if name == b"Twstat".as_slice() {
        take_t_wstat(alloc, rest)
    } else {
        Err(Unread::NotWords)
    }
}

/// The message that the words after the connection spell, all of them.
#[tactic(auto, using(ninep_wire::proofs::Sizes::t_sizes), unfolding(crate::specs::Reading::t_message_at))]
pub(crate) fn take_t_message(alloc: Global, words: &[u8]) -> Result<TMsg, Unread>
    ensures { Gives (λ m. m) result (t_message_at words.now) }
{
    let (name, rest) = cut_field(words);
    let (tag, rest) = take_u16(b"tag=", rest)?;
    let (body, rest) = take_t_body(alloc, name, rest)?;
    let msg = TMsg { tag, body };
    if !rest.is_empty() || t_size(&msg) > MAX_MSIZE as usize {
        return Err(Unread::NotWords);
    }
    Ok(msg)
}
