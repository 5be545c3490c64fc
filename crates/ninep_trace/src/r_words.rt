//! Messages from the server, in words.

ghost use Rattle.std.specs.Prelude.{◌≡◌, ◌<◌, ◌≤◌, ◌++◌, length, OnOk, IfOk, Some};
ghost use Rattle.ninep_types.specs.Limits.{max_msize};
ghost use Rattle.ninep_types.specs.Spelling.{spelling_r, Fits_r};
ghost use Rattle.ninep_trace.specs.Words.{name_r, fields_r, words_r};
ghost use Rattle.ninep_trace.specs.Reading.{line_of};

use crate::puts::{put_bytes, put_number, put_qid, put_qids, put_text};
use am_text::{Bytes, Items, NoMemory, put_around};
use ninep_types::{Qid, RBody, RMsg};
use std::alloc::Global;

#[tactic(auto, using(crate::proofs::Joins::joins))]
fn put_r_version(alloc: Global, out: &mut Bytes, msize: u32, version: &[u8]) -> Result<(), NoMemory>
    ensures { OnOk result (out.new ≡ out.old ++ fields_r (RBody.Version msize version.now)) }
{
    put_number(alloc, out, b" msize=", u64::from(msize))?;
    put_text(out, b" version=", version)
}

#[tactic(auto, using(crate::proofs::Joins::joins))]
fn put_r_auth(alloc: Global, out: &mut Bytes, aqid: Qid) -> Result<(), NoMemory>
    ensures { OnOk result (out.new ≡ out.old ++ fields_r (RBody.Auth aqid)) }
{
    put_qid(alloc, out, b" aqid=", aqid)
}

#[tactic(auto, using(crate::proofs::Joins::joins))]
fn put_r_error(out: &mut Bytes, ename: &[u8]) -> Result<(), NoMemory>
    ensures { OnOk result (out.new ≡ out.old ++ fields_r (RBody.Error ename.now)) }
{
    put_text(out, b" ename=", ename)
}

#[tactic(auto, using(crate::proofs::Joins::joins))]
fn put_r_attach(alloc: Global, out: &mut Bytes, qid: Qid) -> Result<(), NoMemory>
    ensures { OnOk result (out.new ≡ out.old ++ fields_r (RBody.Attach qid)) }
{
    put_qid(alloc, out, b" qid=", qid)
}

#[tactic(auto, using(crate::proofs::Joins::joins))]
fn put_r_walk(alloc: Global, out: &mut Bytes, qids: &[Qid]) -> Result<(), NoMemory>
    ensures { OnOk result (out.new ≡ out.old ++ fields_r (RBody.Walk qids.now)) }
{
    put_qids(alloc, out, b" qids=", qids)
}

#[tactic(auto, using(crate::proofs::Joins::joins))]
fn put_r_open(alloc: Global, out: &mut Bytes, qid: Qid, iounit: u32) -> Result<(), NoMemory>
    ensures { OnOk result (out.new ≡ out.old ++ fields_r (RBody.Open qid iounit)) }
{
    put_qid(alloc, out, b" qid=", qid)?;
    put_number(alloc, out, b" iounit=", u64::from(iounit))
}

#[tactic(auto, using(crate::proofs::Joins::joins))]
fn put_r_create(alloc: Global, out: &mut Bytes, qid: Qid, iounit: u32) -> Result<(), NoMemory>
    ensures { OnOk result (out.new ≡ out.old ++ fields_r (RBody.Create qid iounit)) }
{
    put_qid(alloc, out, b" qid=", qid)?;
    put_number(alloc, out, b" iounit=", u64::from(iounit))
}

#[tactic(auto, using(crate::proofs::Joins::joins))]
fn put_r_read(out: &mut Bytes, bytes: &[u8]) -> Result<(), NoMemory>
    ensures { OnOk result (out.new ≡ out.old ++ fields_r (RBody.Read bytes.now)) }
{
    put_bytes(out, b" data=", bytes)
}

#[tactic(auto, using(crate::proofs::Joins::joins))]
fn put_r_write(alloc: Global, out: &mut Bytes, count: u32) -> Result<(), NoMemory>
    ensures { OnOk result (out.new ≡ out.old ++ fields_r (RBody.Write count)) }
{
    put_number(alloc, out, b" count=", u64::from(count))
}

#[tactic(auto, using(crate::proofs::Joins::joins))]
fn put_r_stat(out: &mut Bytes, stat: &[u8]) -> Result<(), NoMemory>
    ensures { OnOk result (out.new ≡ out.old ++ fields_r (RBody.Stat stat.now)) }
{
    put_bytes(out, b" stat=", stat)
}

#[tactic(auto, using(crate::proofs::Joins::joins))]
fn put_r_fields(alloc: Global, out: &mut Bytes, body: &RBody) -> Result<(), NoMemory>
    ensures { OnOk result (out.new ≡ out.old ++ fields_r body.now) }
{
    match body {
        RBody::Version { msize, version } => put_r_version(alloc, out, *msize, version.as_slice()),
        RBody::Auth { aqid } => put_r_auth(alloc, out, *aqid),
        RBody::Error { ename } => put_r_error(out, ename.as_slice()),
        RBody::Flush => Ok(()),
        RBody::Attach { qid } => put_r_attach(alloc, out, *qid),
        RBody::Walk { qids } => put_r_walk(alloc, out, qids.as_slice()),
        RBody::Open { qid, iounit } => put_r_open(alloc, out, *qid, *iounit),
        RBody::Create { qid, iounit } => put_r_create(alloc, out, *qid, *iounit),
        RBody::Read { bytes } => put_r_read(out, bytes.as_slice()),
        RBody::Write { count } => put_r_write(alloc, out, *count),
        RBody::Clunk => Ok(()),
        RBody::Remove => Ok(()),
        RBody::Stat { stat } => put_r_stat(out, stat.as_slice()),
        RBody::Wstat => Ok(()),
    }
}

/// The name.
fn r_name(body: &RBody) -> &'static [u8]
    ensures { result.now ≡ name_r body.now }
{
    match body {
        RBody::Version { .. } => b"Rversion",
        RBody::Auth { .. } => b"Rauth",
        RBody::Error { .. } => b"Rerror",
        RBody::Flush => b"Rflush",
        RBody::Attach { .. } => b"Rattach",
        RBody::Walk { .. } => b"Rwalk",
        RBody::Open { .. } => b"Ropen",
        RBody::Create { .. } => b"Rcreate",
        RBody::Read { .. } => b"Rread",
        RBody::Write { .. } => b"Rwrite",
        RBody::Clunk => b"Rclunk",
        RBody::Remove => b"Rremove",
        RBody::Stat { .. } => b"Rstat",
        RBody::Wstat => b"Rwstat",
    }
}

/// The one line in words of a message from the server, without its newline.
#[tactic(auto, using(crate::proofs::Joins::joins), unfolding(crate::specs::Words::words_r))]
pub fn words_r(alloc: Global, conn: u32, msg: &RMsg) -> Result<Bytes, NoMemory>
    requires fits { Fits_r msg.now }
    requires short { length (spelling_r msg.now) ≤ max_msize }
    requires conn { conn < 64 }
    ensures exact { IfOk result (λ line. line ≡ words_r conn msg.now) }
{
    let mut line = Items::new(alloc);
    put_around(alloc, &mut line, b"reply ", u64::from(conn), b" ")?;
    line.append(r_name(&msg.body))?;
    line.push(b' ')?;
    put_number(alloc, &mut line, b"tag=", u64::from(msg.tag))?;
    put_r_fields(alloc, &mut line, &msg.body)?;
    Ok(line)
}
