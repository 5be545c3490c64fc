//! Messages from the server, from words.

ghost use Rattle.std.specs.Prelude.{◌≡◌, ◌<◌, ◌^◌};
ghost use Rattle.ninep_types.specs.Spelling.{size_r};
ghost use Rattle.ninep_trace.specs.Fields.{Gives};
ghost use Rattle.ninep_trace.specs.Reading.{r_version_at, r_auth_at, r_error_at, r_attach_at, r_walk_at, r_open_at};
ghost use Rattle.ninep_trace.specs.Reading.{r_create_at, r_read_at, r_write_at, r_stat_at, r_body_at, r_message_at};

use crate::fields::{SHORT, take_bytes, take_qid, take_qids, take_text, take_u16, take_u32};
use crate::unread::Unread;
use am_text::cut_field;
use ninep_types::{MAX_MSIZE, RBody, RMsg};
use std::alloc::Global;

#[tactic(auto, unfolding(crate::specs::Reading::r_version_at))]
fn take_r_version(alloc: Global, rest: &[u8]) -> Result<(RBody, &[u8]), Unread>
    ensures { Gives (λ x. (x.0, x.1.now)) result (r_version_at rest.now) }
{
    let (msize, rest) = take_u32(b" msize=", rest)?;
    let (version, rest) = take_text(alloc, b" version=", rest)?;
    Ok((RBody::Version { msize, version }, rest))
}

#[tactic(auto, unfolding(crate::specs::Reading::r_auth_at))]
fn take_r_auth(rest: &[u8]) -> Result<(RBody, &[u8]), Unread>
    ensures { Gives (λ x. (x.0, x.1.now)) result (r_auth_at rest.now) }
{
    let (aqid, rest) = take_qid(b" aqid=", rest)?;
    Ok((RBody::Auth { aqid }, rest))
}

#[tactic(auto, unfolding(crate::specs::Reading::r_error_at))]
fn take_r_error(alloc: Global, rest: &[u8]) -> Result<(RBody, &[u8]), Unread>
    ensures { Gives (λ x. (x.0, x.1.now)) result (r_error_at rest.now) }
{
    let (ename, rest) = take_text(alloc, b" ename=", rest)?;
    Ok((RBody::Error { ename }, rest))
}

#[tactic(auto, unfolding(crate::specs::Reading::r_attach_at))]
fn take_r_attach(rest: &[u8]) -> Result<(RBody, &[u8]), Unread>
    ensures { Gives (λ x. (x.0, x.1.now)) result (r_attach_at rest.now) }
{
    let (qid, rest) = take_qid(b" qid=", rest)?;
    Ok((RBody::Attach { qid }, rest))
}

#[tactic(auto, unfolding(crate::specs::Reading::r_walk_at))]
fn take_r_walk(alloc: Global, rest: &[u8]) -> Result<(RBody, &[u8]), Unread>
    ensures { Gives (λ x. (x.0, x.1.now)) result (r_walk_at rest.now) }
{
    let (qids, rest) = take_qids(alloc, b" qids=", rest)?;
    Ok((RBody::Walk { qids }, rest))
}

#[tactic(auto, unfolding(crate::specs::Reading::r_open_at))]
fn take_r_open(rest: &[u8]) -> Result<(RBody, &[u8]), Unread>
    ensures { Gives (λ x. (x.0, x.1.now)) result (r_open_at rest.now) }
{
    let (qid, rest) = take_qid(b" qid=", rest)?;
    let (iounit, rest) = take_u32(b" iounit=", rest)?;
    Ok((RBody::Open { qid, iounit }, rest))
}

#[tactic(auto, unfolding(crate::specs::Reading::r_create_at))]
fn take_r_create(rest: &[u8]) -> Result<(RBody, &[u8]), Unread>
    ensures { Gives (λ x. (x.0, x.1.now)) result (r_create_at rest.now) }
{
    let (qid, rest) = take_qid(b" qid=", rest)?;
    let (iounit, rest) = take_u32(b" iounit=", rest)?;
    Ok((RBody::Create { qid, iounit }, rest))
}

#[tactic(auto, unfolding(crate::specs::Reading::r_read_at))]
fn take_r_read(alloc: Global, rest: &[u8]) -> Result<(RBody, &[u8]), Unread>
    ensures { Gives (λ x. (x.0, x.1.now)) result (r_read_at rest.now) }
{
    let (bytes, rest) = take_bytes(alloc, b" data=", MAX_MSIZE as usize + 1, rest)?;
    Ok((RBody::Read { bytes }, rest))
}

#[tactic(auto, unfolding(crate::specs::Reading::r_write_at))]
fn take_r_write(rest: &[u8]) -> Result<(RBody, &[u8]), Unread>
    ensures { Gives (λ x. (x.0, x.1.now)) result (r_write_at rest.now) }
{
    let (count, rest) = take_u32(b" count=", rest)?;
    Ok((RBody::Write { count }, rest))
}

#[tactic(auto, unfolding(crate::specs::Reading::r_stat_at))]
fn take_r_stat(alloc: Global, rest: &[u8]) -> Result<(RBody, &[u8]), Unread>
    ensures { Gives (λ x. (x.0, x.1.now)) result (r_stat_at rest.now) }
{
    let (stat, rest) = take_bytes(alloc, b" stat=", SHORT, rest)?;
    Ok((RBody::Stat { stat }, rest))
}

#[tactic(auto, unfolding(crate::specs::Reading::r_body_at))]
fn take_r_body<'a>(alloc: Global, name: &[u8], rest: &'a [u8]) -> Result<(RBody, &'a [u8]), Unread>
    ensures { Gives (λ x. (x.0, x.1.now)) result (r_body_at name.now rest.now) }
{
    if name == b"Rversion".as_slice() {
        take_r_version(alloc, rest)
    } else if name == b"Rauth".as_slice() {
        take_r_auth(rest)
    } else if name == b"Rerror".as_slice() {
        take_r_error(alloc, rest)
    } else if name == b"Rflush".as_slice() {
        Ok((RBody::Flush, rest))
    } else if name == b"Rattach".as_slice() {
        take_r_attach(rest)
    } else if name == b"Rwalk".as_slice() {
        take_r_walk(alloc, rest)
    } else if name == b"Ropen".as_slice() {
        take_r_open(rest)
    } else if name == b"Rcreate".as_slice() {
        take_r_create(rest)
    } else if name == b"Rread".as_slice() {
        take_r_read(alloc, rest)
    } else if name == b"Rwrite".as_slice() {
        take_r_write(rest)
    } else if name == b"Rclunk".as_slice() {
        Ok((RBody::Clunk, rest))
    } else if name == b"Rremove".as_slice() {
        Ok((RBody::Remove, rest))
    } else if name == b"Rstat".as_slice() {
        take_r_stat(alloc, rest)
    } else if name == b"Rwstat".as_slice() {
        Ok((RBody::Wstat, rest))
    } else {
        Err(Unread::NotWords)
    }
}

/// The number of bytes of a message with this body.
fn r_body_size(body: &RBody) -> usize
    requires { size_r body.now < 2 ^ 32 }
    ensures { result ≡ size_r body.now }
{
    match body {
        RBody::Version { version, .. } => 13 + version.len(),
        RBody::Auth { .. } => 20,
        RBody::Error { ename } => 9 + ename.len(),
        RBody::Flush => 7,
        RBody::Attach { .. } => 20,
        RBody::Walk { qids } => 9 + 13 * qids.len(),
        RBody::Open { .. } => 24,
        RBody::Create { .. } => 24,
        RBody::Read { bytes } => 11 + bytes.len(),
        RBody::Write { .. } => 11,
        RBody::Clunk => 7,
        RBody::Remove => 7,
        RBody::Stat { stat } => 9 + stat.len(),
        RBody::Wstat => 7,
    }
}

/// The message that the words after the connection spell, all of them.
#[tactic(auto, unfolding(crate::specs::Reading::r_message_at))]
pub(crate) fn take_r_message(alloc: Global, words: &[u8]) -> Result<RMsg, Unread>
    ensures { Gives (λ m. m) result (r_message_at words.now) }
{
    let (name, rest) = cut_field(words);
    let (tag, rest) = take_u16(b"tag=", rest)?;
    let (body, rest) = take_r_body(alloc, name, rest)?;
    if !rest.is_empty() || r_body_size(&body) > MAX_MSIZE as usize {
        return Err(Unread::NotWords);
    }
    Ok(RMsg { tag, body })
}
