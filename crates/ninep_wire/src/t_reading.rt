//! Messages to the server, from their bytes.

ghost use Rattle.std.specs.Prelude.{◌≡◌, IfOk, Ok};
ghost use Rattle.ninep_types.specs.declared.message.TMsg.{TMsg};
ghost use Rattle.ninep_types.specs.Fields.{Gives};
ghost use Rattle.ninep_types.specs.Reading.{t_version_at, t_auth_at, t_flush_at, t_attach_at, t_walk_at, t_open_at};
ghost use Rattle.ninep_types.specs.Reading.{t_create_at, t_read_at, t_write_at, t_clunk_at, t_remove_at, t_stat_at};
ghost use Rattle.ninep_types.specs.Reading.{t_wstat_at, t_body_at, t_of};
ghost use Rattle.ninep_types.specs.Spelling.{spelling_t, Fits_t, InRange_t};

use crate::fields::{
    take_data, take_head, take_names, take_stat, take_string, take_u8, take_u16, take_u32, take_u64,
};
use ninep_types::{
    TATTACH, TAUTH, TBody, TCLUNK, TCREATE, TFLUSH, TMsg, TOPEN, TREAD, TREMOVE, TSTAT, TVERSION,
    TWALK, TWRITE, TWSTAT, WireError, WireFault,
};
use std::alloc::Global;

#[tactic(auto, unfolding(ninep_types::specs::Reading::t_version_at))]
fn take_t_version(alloc: Global, rest: &[u8]) -> Result<(TBody, &[u8]), WireError>
    ensures { Gives (λ x. (x.0, x.1.now)) result (t_version_at rest.now) }
{
    let (msize, rest) = take_u32(rest)?;
    let (version, rest) = take_string(alloc, rest)?;
    Ok((TBody::Version { msize, version }, rest))
}

#[tactic(auto, unfolding(ninep_types::specs::Reading::t_auth_at))]
fn take_t_auth(alloc: Global, rest: &[u8]) -> Result<(TBody, &[u8]), WireError>
    ensures { Gives (λ x. (x.0, x.1.now)) result (t_auth_at rest.now) }
{
    let (afid, rest) = take_u32(rest)?;
    let (uname, rest) = take_string(alloc, rest)?;
    let (aname, rest) = take_string(alloc, rest)?;
    Ok((TBody::Auth { afid, uname, aname }, rest))
}

#[tactic(auto, unfolding(ninep_types::specs::Reading::t_flush_at))]
fn take_t_flush(rest: &[u8]) -> Result<(TBody, &[u8]), WireError>
    ensures { Gives (λ x. (x.0, x.1.now)) result (t_flush_at rest.now) }
{
    let (oldtag, rest) = take_u16(rest)?;
    Ok((TBody::Flush { oldtag }, rest))
}

#[tactic(auto, unfolding(ninep_types::specs::Reading::t_attach_at))]
fn take_t_attach(alloc: Global, rest: &[u8]) -> Result<(TBody, &[u8]), WireError>
    ensures { Gives (λ x. (x.0, x.1.now)) result (t_attach_at rest.now) }
{
    let (fid, rest) = take_u32(rest)?;
    let (afid, rest) = take_u32(rest)?;
    let (uname, rest) = take_string(alloc, rest)?;
    let (aname, rest) = take_string(alloc, rest)?;
    Ok((
        TBody::Attach {
            fid,
            afid,
            uname,
            aname,
        },
        rest,
    ))
}

#[tactic(auto, unfolding(ninep_types::specs::Reading::t_walk_at))]
fn take_t_walk(alloc: Global, rest: &[u8]) -> Result<(TBody, &[u8]), WireError>
    ensures { Gives (λ x. (x.0, x.1.now)) result (t_walk_at rest.now) }
{
    let (fid, rest) = take_u32(rest)?;
    let (newfid, rest) = take_u32(rest)?;
    let (names, rest) = take_names(alloc, rest)?;
    Ok((TBody::Walk { fid, newfid, names }, rest))
}

#[tactic(auto, unfolding(ninep_types::specs::Reading::t_open_at))]
fn take_t_open(rest: &[u8]) -> Result<(TBody, &[u8]), WireError>
    ensures { Gives (λ x. (x.0, x.1.now)) result (t_open_at rest.now) }
{
    let (fid, rest) = take_u32(rest)?;
    let (mode, rest) = take_u8(rest)?;
    Ok((TBody::Open { fid, mode }, rest))
}

#[tactic(auto, unfolding(ninep_types::specs::Reading::t_create_at))]
fn take_t_create(alloc: Global, rest: &[u8]) -> Result<(TBody, &[u8]), WireError>
    ensures { Gives (λ x. (x.0, x.1.now)) result (t_create_at rest.now) }
{
    let (fid, rest) = take_u32(rest)?;
    let (name, rest) = take_string(alloc, rest)?;
    let (perm, rest) = take_u32(rest)?;
    let (mode, rest) = take_u8(rest)?;
    Ok((
        TBody::Create {
            fid,
            name,
            perm,
            mode,
        },
        rest,
    ))
}

#[tactic(auto, unfolding(ninep_types::specs::Reading::t_read_at))]
fn take_t_read(rest: &[u8]) -> Result<(TBody, &[u8]), WireError>
    ensures { Gives (λ x. (x.0, x.1.now)) result (t_read_at rest.now) }
{
    let (fid, rest) = take_u32(rest)?;
    let (offset, rest) = take_u64(rest)?;
    let (count, rest) = take_u32(rest)?;
    Ok((TBody::Read { fid, offset, count }, rest))
}

#[tactic(auto, unfolding(ninep_types::specs::Reading::t_write_at))]
fn take_t_write(alloc: Global, rest: &[u8]) -> Result<(TBody, &[u8]), WireError>
    ensures { Gives (λ x. (x.0, x.1.now)) result (t_write_at rest.now) }
{
    let (fid, rest) = take_u32(rest)?;
    let (offset, rest) = take_u64(rest)?;
    let (bytes, rest) = take_data(alloc, rest)?;
    Ok((TBody::Write { fid, offset, bytes }, rest))
}

#[tactic(auto, unfolding(ninep_types::specs::Reading::t_clunk_at))]
fn take_t_clunk(rest: &[u8]) -> Result<(TBody, &[u8]), WireError>
    ensures { Gives (λ x. (x.0, x.1.now)) result (t_clunk_at rest.now) }
{
    let (fid, rest) = take_u32(rest)?;
    Ok((TBody::Clunk { fid }, rest))
}

#[tactic(auto, unfolding(ninep_types::specs::Reading::t_remove_at))]
fn take_t_remove(rest: &[u8]) -> Result<(TBody, &[u8]), WireError>
    ensures { Gives (λ x. (x.0, x.1.now)) result (t_remove_at rest.now) }
{
    let (fid, rest) = take_u32(rest)?;
    Ok((TBody::Remove { fid }, rest))
}

#[tactic(auto, unfolding(ninep_types::specs::Reading::t_stat_at))]
fn take_t_stat(rest: &[u8]) -> Result<(TBody, &[u8]), WireError>
    ensures { Gives (λ x. (x.0, x.1.now)) result (t_stat_at rest.now) }
{
    let (fid, rest) = take_u32(rest)?;
    Ok((TBody::Stat { fid }, rest))
}

#[tactic(auto, unfolding(ninep_types::specs::Reading::t_wstat_at))]
fn take_t_wstat(alloc: Global, rest: &[u8]) -> Result<(TBody, &[u8]), WireError>
    ensures { Gives (λ x. (x.0, x.1.now)) result (t_wstat_at rest.now) }
{
    let (fid, rest) = take_u32(rest)?;
    let (stat, rest) = take_stat(alloc, rest)?;
    Ok((TBody::Wstat { fid, stat }, rest))
}

#[tactic(auto, unfolding(ninep_types::specs::Reading::t_body_at))]
fn take_t_body(alloc: Global, kind: u8, rest: &[u8]) -> Result<(TBody, &[u8]), WireError>
    ensures { Gives (λ x. (x.0, x.1.now)) result (t_body_at kind rest.now) }
{
    match kind {
        TVERSION => take_t_version(alloc, rest),
        TAUTH => take_t_auth(alloc, rest),
        TATTACH => take_t_attach(alloc, rest),
        TFLUSH => take_t_flush(rest),
        TWALK => take_t_walk(alloc, rest),
        TOPEN => take_t_open(rest),
        TCREATE => take_t_create(alloc, rest),
        TREAD => take_t_read(rest),
        TWRITE => take_t_write(alloc, rest),
        TCLUNK => take_t_clunk(rest),
        TREMOVE => take_t_remove(rest),
        TSTAT => take_t_stat(rest),
        TWSTAT => take_t_wstat(alloc, rest),
        _ => Err(WireError::Fault(WireFault::Kind)),
    }
}

#[tactic(auto, unfolding(ninep_types::specs::Reading::t_of))]
fn take_t_message(alloc: Global, bytes: &[u8]) -> Result<TMsg, WireError>
    ensures { Gives (λ m. m) result (t_of bytes.now) }
{
    let (kind, tag, rest) = take_head(bytes)?;
    let (body, rest) = take_t_body(alloc, kind, rest)?;
    if !rest.is_empty() {
        return Err(WireError::Fault(WireFault::Long));
    }
    Ok(TMsg { tag, body })
}

/// The message to the server that the bytes spell, all of them.
///
/// Errors: `Size` where fewer than 7 bytes are given or the size field isn't their number. Then
/// `Kind` where the type byte is of no message to the server. Then the fields are read from
/// left to right, and the first that fails decides: `Short` where it passes the end, `Text` where a
/// string isn't UTF-8 or has a NUL, `Names` where a walk has more than 16 names. Then `Long`
/// where bytes are left over. `NoMemory` may come before a fault that stands later.
pub fn read_t(alloc: Global, bytes: &[u8]) -> Result<TMsg, WireError>
    // What is read is spelled so.
    ensures found { IfOk result (λ m. Fits_t m × (bytes.now ≡ spelling_t m)) }
    // Its numbers are within their fields.
    ensures in_range { IfOk result (λ m. InRange_t m) }
    // What is spelled so is read, unless memory runs out.
    ensures only { (m : TMsg) → Fits_t m → InRange_t m → bytes.now ≡ spelling_t m
        → Gives (λ x. x) result (Ok m) }
    // Which fault it is.
    ensures exact { Gives (λ m. m) result (t_of bytes.now) }
{
    take_t_message(alloc, bytes)
}
