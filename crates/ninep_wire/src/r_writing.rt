//! Messages from the server, to their bytes.

ghost use Rattle.std.specs.Prelude.{◌≡◌, ◌<◌, ◌≤◌, ◌^◌, ◌++◌, ◌+◌, length, OnOk, IfOk};
ghost use Rattle.ninep_types.specs.Limits.{max_names};
ghost use Rattle.ninep_types.specs.Spelling.{kind_r, fields_r, size_r, spelling_r, Fits_r, BodyFits_r, IsString};

use crate::puts::{begun, put_data, put_qid, put_qids, put_stat, put_string, put_u32};
use am_text::{Bytes, NoMemory};
use ninep_types::{
    Qid, RATTACH, RAUTH, RBody, RCLUNK, RCREATE, RERROR, RFLUSH, RMsg, ROPEN, RREAD, RREMOVE,
    RSTAT, RVERSION, RWALK, RWRITE, RWSTAT,
};
use std::alloc::Global;

#[tactic(auto, using(crate::proofs::Joins::joins))]
fn put_r_version(out: &mut Bytes, msize: u32, version: &[u8]) -> Result<(), NoMemory>
    requires { IsString version.now }
    ensures { OnOk result (out.new ≡ out.old ++ fields_r (RBody.Version msize version.now)) }
{
    put_u32(out, msize)?;
    put_string(out, version)?;
    Ok(())
}

#[tactic(auto, using(crate::proofs::Joins::joins))]
fn put_r_auth(out: &mut Bytes, aqid: Qid) -> Result<(), NoMemory>
    ensures { OnOk result (out.new ≡ out.old ++ fields_r (RBody.Auth aqid)) }
{
    put_qid(out, aqid)?;
    Ok(())
}

#[tactic(auto, using(crate::proofs::Joins::joins))]
fn put_r_error(out: &mut Bytes, ename: &[u8]) -> Result<(), NoMemory>
    requires { IsString ename.now }
    ensures { OnOk result (out.new ≡ out.old ++ fields_r (RBody.Error ename.now)) }
{
    put_string(out, ename)?;
    Ok(())
}

#[tactic(auto, using(crate::proofs::Joins::joins))]
fn put_r_attach(out: &mut Bytes, qid: Qid) -> Result<(), NoMemory>
    ensures { OnOk result (out.new ≡ out.old ++ fields_r (RBody.Attach qid)) }
{
    put_qid(out, qid)?;
    Ok(())
}

#[tactic(auto, using(crate::proofs::Joins::joins))]
fn put_r_walk(out: &mut Bytes, qids: &[Qid]) -> Result<(), NoMemory>
    requires { length qids.now ≤ max_names }
    ensures { OnOk result (out.new ≡ out.old ++ fields_r (RBody.Walk qids.now)) }
{
    put_qids(out, qids)?;
    Ok(())
}

#[tactic(auto, using(crate::proofs::Joins::joins))]
fn put_r_open(out: &mut Bytes, qid: Qid, iounit: u32) -> Result<(), NoMemory>
    ensures { OnOk result (out.new ≡ out.old ++ fields_r (RBody.Open qid iounit)) }
{
    put_qid(out, qid)?;
    put_u32(out, iounit)?;
    Ok(())
}

#[tactic(auto, using(crate::proofs::Joins::joins))]
fn put_r_create(out: &mut Bytes, qid: Qid, iounit: u32) -> Result<(), NoMemory>
    ensures { OnOk result (out.new ≡ out.old ++ fields_r (RBody.Create qid iounit)) }
{
    put_qid(out, qid)?;
    put_u32(out, iounit)?;
    Ok(())
}

#[tactic(auto, using(crate::proofs::Joins::joins))]
fn put_r_read(out: &mut Bytes, bytes: &[u8]) -> Result<(), NoMemory>
    requires { length bytes.now < 2 ^ 32 }
    ensures { OnOk result (out.new ≡ out.old ++ fields_r (RBody.Read bytes.now)) }
{
    put_data(out, bytes)?;
    Ok(())
}

#[tactic(auto, using(crate::proofs::Joins::joins))]
fn put_r_write(out: &mut Bytes, count: u32) -> Result<(), NoMemory>
    ensures { OnOk result (out.new ≡ out.old ++ fields_r (RBody.Write count)) }
{
    put_u32(out, count)?;
    Ok(())
}

#[tactic(auto, using(crate::proofs::Joins::joins))]
fn put_r_stat(out: &mut Bytes, stat: &[u8]) -> Result<(), NoMemory>
    requires { length stat.now < 2 ^ 16 }
    ensures { OnOk result (out.new ≡ out.old ++ fields_r (RBody.Stat stat.now)) }
{
    put_stat(out, stat)?;
    Ok(())
}

fn put_r_body(out: &mut Bytes, body: &RBody) -> Result<(), NoMemory>
    requires { BodyFits_r body.now }
    ensures { OnOk result (out.new ≡ out.old ++ fields_r body.now) }
{
    match body {
        RBody::Version { msize, version } => put_r_version(out, *msize, version.as_slice()),
        RBody::Auth { aqid } => put_r_auth(out, *aqid),
        RBody::Error { ename } => put_r_error(out, ename.as_slice()),
        RBody::Flush => Ok(()),
        RBody::Attach { qid } => put_r_attach(out, *qid),
        RBody::Walk { qids } => put_r_walk(out, qids.as_slice()),
        RBody::Open { qid, iounit } => put_r_open(out, *qid, *iounit),
        RBody::Create { qid, iounit } => put_r_create(out, *qid, *iounit),
        RBody::Read { bytes } => put_r_read(out, bytes.as_slice()),
        RBody::Write { count } => put_r_write(out, *count),
        RBody::Clunk => Ok(()),
        RBody::Remove => Ok(()),
        RBody::Stat { stat } => put_r_stat(out, stat.as_slice()),
        RBody::Wstat => Ok(()),
    }
}

/// The type byte of a message from the server. It takes no memory.
pub fn r_kind(body: &RBody) -> u8
    ensures { result ≡ kind_r body.now }
{
    match body {
        RBody::Version { .. } => RVERSION,
        RBody::Auth { .. } => RAUTH,
        RBody::Error { .. } => RERROR,
        RBody::Flush => RFLUSH,
        RBody::Attach { .. } => RATTACH,
        RBody::Walk { .. } => RWALK,
        RBody::Open { .. } => ROPEN,
        RBody::Create { .. } => RCREATE,
        RBody::Read { .. } => RREAD,
        RBody::Write { .. } => RWRITE,
        RBody::Clunk => RCLUNK,
        RBody::Remove => RREMOVE,
        RBody::Stat { .. } => RSTAT,
        RBody::Wstat => RWSTAT,
    }
}

/// The number of bytes of a message.
fn r_size(body: &RBody) -> usize
    requires { size_r body.now < 2 ^ 32 }
    ensures { result ≡ size_r body.now }
{
    match body {
        RBody::Version { version, .. } => 13 + version.len(),
        RBody::Auth { .. } => 20,
        RBody::Error { ename } => 9 + ename.len(),
        RBody::Flush => 7,
        RBody::Attach { .. } => 20,
        RBody::Walk { qids } => 9 + 13 * qids.len(),
        RBody::Open { .. } => 24,
        RBody::Create { .. } => 24,
        RBody::Read { bytes } => 11 + bytes.len(),
        RBody::Write { .. } => 11,
        RBody::Clunk => 7,
        RBody::Remove => 7,
        RBody::Stat { stat } => 9 + stat.len(),
        RBody::Wstat => 7,
    }
}

/// The one spelling of a message from the server. It takes memory once, for all of its bytes.
#[tactic(auto, using(crate::proofs::Sizes::r_sizes))]
pub fn write_r(alloc: Global, msg: &RMsg) -> Result<Bytes, NoMemory>
    requires { Fits_r msg.now }
    ensures spelled { IfOk result (λ bytes. bytes ≡ spelling_r msg.now) }
    ensures size { IfOk result (λ bytes. length bytes ≡ size_r msg.now.body) }
{
    let mut out = begun(alloc, r_size(&msg.body), r_kind(&msg.body), msg.tag)?;
    put_r_body(&mut out, &msg.body)?;
    Ok(out)
}
