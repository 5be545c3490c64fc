//! Messages from the server, from their bytes.

ghost use Rattle.std.specs.Prelude.{◌≡◌, IfOk, Ok};
ghost use Rattle.ninep_types.specs.declared.message.RMsg.{RMsg};
ghost use Rattle.ninep_types.specs.Fields.{Gives};
ghost use Rattle.ninep_types.specs.Reading.{r_version_at, r_auth_at, r_error_at, r_attach_at, r_walk_at, r_open_at};
ghost use Rattle.ninep_types.specs.Reading.{r_create_at, r_read_at, r_write_at, r_stat_at, r_body_at, r_of};
ghost use Rattle.ninep_types.specs.Spelling.{spelling_r, Fits_r, InRange_r};

use crate::fields::{take_data, take_head, take_qid, take_qids, take_stat, take_string, take_u32};
use ninep_types::{
    RATTACH, RAUTH, RBody, RCLUNK, RCREATE, RERROR, RFLUSH, RMsg, ROPEN, RREAD, RREMOVE, RSTAT,
    RVERSION, RWALK, RWRITE, RWSTAT, WireError, WireFault,
};
use std::alloc::Global;

#[tactic(auto, unfolding(ninep_types::specs::Reading::r_version_at))]
fn take_r_version(alloc: Global, rest: &[u8]) -> Result<(RBody, &[u8]), WireError>
    ensures { Gives (λ x. (x.0, x.1.now)) result (r_version_at rest.now) }
{
    let (msize, rest) = take_u32(rest)?;
    let (version, rest) = take_string(alloc, rest)?;
    Ok((RBody::Version { msize, version }, rest))
}

#[tactic(auto, unfolding(ninep_types::specs::Reading::r_auth_at))]
fn take_r_auth(rest: &[u8]) -> Result<(RBody, &[u8]), WireError>
    ensures { Gives (λ x. (x.0, x.1.now)) result (r_auth_at rest.now) }
{
    let (aqid, rest) = take_qid(rest)?;
    Ok((RBody::Auth { aqid }, rest))
}

#[tactic(auto, unfolding(ninep_types::specs::Reading::r_error_at))]
fn take_r_error(alloc: Global, rest: &[u8]) -> Result<(RBody, &[u8]), WireError>
    ensures { Gives (λ x. (x.0, x.1.now)) result (r_error_at rest.now) }
{
    let (ename, rest) = take_string(alloc, rest)?;
    Ok((RBody::Error { ename }, rest))
}

#[tactic(auto, unfolding(ninep_types::specs::Reading::r_attach_at))]
fn take_r_attach(rest: &[u8]) -> Result<(RBody, &[u8]), WireError>
    ensures { Gives (λ x. (x.0, x.1.now)) result (r_attach_at rest.now) }
{
    let (qid, rest) = take_qid(rest)?;
    Ok((RBody::Attach { qid }, rest))
}

#[tactic(auto, unfolding(ninep_types::specs::Reading::r_walk_at))]
fn take_r_walk(alloc: Global, rest: &[u8]) -> Result<(RBody, &[u8]), WireError>
    ensures { Gives (λ x. (x.0, x.1.now)) result (r_walk_at rest.now) }
{
    let (qids, rest) = take_qids(alloc, rest)?;
    Ok((RBody::Walk { qids }, rest))
}

#[tactic(auto, unfolding(ninep_types::specs::Reading::r_open_at))]
fn take_r_open(rest: &[u8]) -> Result<(RBody, &[u8]), WireError>
    ensures { Gives (λ x. (x.0, x.1.now)) result (r_open_at rest.now) }
{
    let (qid, rest) = take_qid(rest)?;
    let (iounit, rest) = take_u32(rest)?;
    Ok((RBody::Open { qid, iounit }, rest))
}

#[tactic(auto, unfolding(ninep_types::specs::Reading::r_create_at))]
fn take_r_create(rest: &[u8]) -> Result<(RBody, &[u8]), WireError>
    ensures { Gives (λ x. (x.0, x.1.now)) result (r_create_at rest.now) }
{
    let (qid, rest) = take_qid(rest)?;
    let (iounit, rest) = take_u32(rest)?;
    Ok((RBody::Create { qid, iounit }, rest))
}

#[tactic(auto, unfolding(ninep_types::specs::Reading::r_read_at))]
fn take_r_read(alloc: Global, rest: &[u8]) -> Result<(RBody, &[u8]), WireError>
    ensures { Gives (λ x. (x.0, x.1.now)) result (r_read_at rest.now) }
{
    let (bytes, rest) = take_data(alloc, rest)?;
    Ok((RBody::Read { bytes }, rest))
}

#[tactic(auto, unfolding(ninep_types::specs::Reading::r_write_at))]
fn take_r_write(rest: &[u8]) -> Result<(RBody, &[u8]), WireError>
    ensures { Gives (λ x. (x.0, x.1.now)) result (r_write_at rest.now) }
{
    let (count, rest) = take_u32(rest)?;
    Ok((RBody::Write { count }, rest))
}

#[tactic(auto, unfolding(ninep_types::specs::Reading::r_stat_at))]
fn take_r_stat(alloc: Global, rest: &[u8]) -> Result<(RBody, &[u8]), WireError>
    ensures { Gives (λ x. (x.0, x.1.now)) result (r_stat_at rest.now) }
{
    let (stat, rest) = take_stat(alloc, rest)?;
    Ok((RBody::Stat { stat }, rest))
}

#[tactic(auto, unfolding(ninep_types::specs::Reading::r_body_at))]
fn take_r_body(alloc: Global, kind: u8, rest: &[u8]) -> Result<(RBody, &[u8]), WireError>
    ensures { Gives (λ x. (x.0, x.1.now)) result (r_body_at kind rest.now) }
{
    match kind {
        RVERSION => take_r_version(alloc, rest),
        RAUTH => take_r_auth(rest),
        RATTACH => take_r_attach(rest),
        RERROR => take_r_error(alloc, rest),
        RFLUSH => Ok((RBody::Flush, rest)),
        RWALK => take_r_walk(alloc, rest),
        ROPEN => take_r_open(rest),
        RCREATE => take_r_create(rest),
        RREAD => take_r_read(alloc, rest),
        RWRITE => take_r_write(rest),
        RCLUNK => Ok((RBody::Clunk, rest)),
        RREMOVE => Ok((RBody::Remove, rest)),
        RSTAT => take_r_stat(alloc, rest),
        RWSTAT => Ok((RBody::Wstat, rest)),
        _ => Err(WireError::Fault(WireFault::Kind)),
    }
}

#[tactic(auto, unfolding(ninep_types::specs::Reading::r_of))]
fn take_r_message(alloc: Global, bytes: &[u8]) -> Result<RMsg, WireError>
    ensures { Gives (λ m. m) result (r_of bytes.now) }
{
    let (kind, tag, rest) = take_head(bytes)?;
    let (body, rest) = take_r_body(alloc, kind, rest)?;
    if !rest.is_empty() {
        return Err(WireError::Fault(WireFault::Long));
    }
    Ok(RMsg { tag, body })
}

/// The message from the server that the bytes spell, all of them.
///
/// Errors: `Size` where fewer than 7 bytes are given or the size field isn't their number. Then
/// `Kind` where the type byte is of no message from the server. Then the fields are read from
/// left to right, and the first that fails decides: `Short` where it passes the end, `Text` where a
/// string isn't UTF-8 or has a NUL, `Names` where a walk has more than 16 qids. Then `Long`
/// where bytes are left over. `NoMemory` may come before a fault that stands later.
pub fn read_r(alloc: Global, bytes: &[u8]) -> Result<RMsg, WireError>
    // What is read is spelled so.
    ensures found { IfOk result (λ m. Fits_r m × (bytes.now ≡ spelling_r m)) }
    // Its numbers are within their fields.
    ensures in_range { IfOk result (λ m. InRange_r m) }
    // What is spelled so is read, unless memory runs out.
    ensures only { (m : RMsg) → Fits_r m → InRange_r m → bytes.now ≡ spelling_r m
        → Gives (λ x. x) result (Ok m) }
    // Which fault it is.
    ensures exact { Gives (λ m. m) result (r_of bytes.now) }
{
    take_r_message(alloc, bytes)
}
