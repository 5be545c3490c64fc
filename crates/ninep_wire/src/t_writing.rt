//! Messages to the server, to their bytes.

ghost use Rattle.std.specs.Prelude.{◌≡◌, ◌<◌, ◌≤◌, ◌^◌, ◌++◌, ◌+◌, length, OnOk, IfOk};
ghost use Rattle.ninep_types.specs.Spelling.{kind_t, fields_t, size_t, spelling_t, Fits_t, BodyFits_t, IsString};
ghost use Rattle.ninep_types.specs.Spelling.{AreNames};

use crate::puts::{
    begun, put_data, put_names, put_stat, put_string, put_u16, put_u32, put_u64, strings_len,
};
use am_text::{Bytes, NoMemory};
use ninep_types::{
    TATTACH, TAUTH, TBody, TCLUNK, TCREATE, TFLUSH, TMsg, TOPEN, TREAD, TREMOVE, TSTAT, TVERSION,
    TWALK, TWRITE, TWSTAT,
};
use std::alloc::Global;

#[tactic(auto, using(crate::proofs::Joins::joins))]
fn put_t_version(out: &mut Bytes, msize: u32, version: &[u8]) -> Result<(), NoMemory>
    requires { IsString version.now }
    ensures { OnOk result (out.new ≡ out.old ++ fields_t (TBody.Version msize version.now)) }
{
    put_u32(out, msize)?;
    put_string(out, version)?;
    Ok(())
}

#[tactic(auto, using(crate::proofs::Joins::joins))]
fn put_t_auth(out: &mut Bytes, afid: u32, uname: &[u8], aname: &[u8]) -> Result<(), NoMemory>
    requires { IsString uname.now × IsString aname.now }
    ensures { OnOk result (out.new ≡ out.old ++ fields_t (TBody.Auth afid uname.now aname.now)) }
{
    put_u32(out, afid)?;
    put_string(out, uname)?;
    put_string(out, aname)?;
    Ok(())
}

#[tactic(auto, using(crate::proofs::Joins::joins))]
fn put_t_flush(out: &mut Bytes, oldtag: u16) -> Result<(), NoMemory>
    ensures { OnOk result (out.new ≡ out.old ++ fields_t (TBody.Flush oldtag)) }
{
    put_u16(out, oldtag)?;
    Ok(())
}

#[tactic(auto, using(crate::proofs::Joins::joins))]
fn put_t_attach(
    out: &mut Bytes,
    fid: u32,
    afid: u32,
    uname: &[u8],
    aname: &[u8],
) -> Result<(), NoMemory>
    requires { IsString uname.now × IsString aname.now }
    ensures { OnOk result (out.new ≡ out.old ++ fields_t (TBody.Attach fid afid uname.now aname.now)) }
{
    put_u32(out, fid)?;
    put_u32(out, afid)?;
    put_string(out, uname)?;
    put_string(out, aname)?;
    Ok(())
}

#[tactic(auto, using(crate::proofs::Joins::joins))]
fn put_t_walk(out: &mut Bytes, fid: u32, newfid: u32, names: &[Bytes]) -> Result<(), NoMemory>
    requires { AreNames names.now }
    ensures { OnOk result (out.new ≡ out.old ++ fields_t (TBody.Walk fid newfid names.now)) }
{
    put_u32(out, fid)?;
    put_u32(out, newfid)?;
    put_names(out, names)?;
    Ok(())
}

#[tactic(auto, using(crate::proofs::Joins::joins))]
fn put_t_open(out: &mut Bytes, fid: u32, mode: u8) -> Result<(), NoMemory>
    ensures { OnOk result (out.new ≡ out.old ++ fields_t (TBody.Open fid mode)) }
{
    put_u32(out, fid)?;
    out.push(mode)?;
    Ok(())
}

#[tactic(auto, using(crate::proofs::Joins::joins))]
fn put_t_create(out: &mut Bytes, fid: u32, name: &[u8], perm: u32, mode: u8) -> Result<(), NoMemory>
    requires { IsString name.now }
    ensures { OnOk result (out.new ≡ out.old ++ fields_t (TBody.Create fid name.now perm mode)) }
{
    put_u32(out, fid)?;
    put_string(out, name)?;
    put_u32(out, perm)?;
    out.push(mode)?;
    Ok(())
}

#[tactic(auto, using(crate::proofs::Joins::joins))]
fn put_t_read(out: &mut Bytes, fid: u32, offset: u64, count: u32) -> Result<(), NoMemory>
    ensures { OnOk result (out.new ≡ out.old ++ fields_t (TBody.Read fid offset count)) }
{
    put_u32(out, fid)?;
    put_u64(out, offset)?;
    put_u32(out, count)?;
    Ok(())
}

#[tactic(auto, using(crate::proofs::Joins::joins))]
fn put_t_write(out: &mut Bytes, fid: u32, offset: u64, bytes: &[u8]) -> Result<(), NoMemory>
    requires { length bytes.now < 2 ^ 32 }
    ensures { OnOk result (out.new ≡ out.old ++ fields_t (TBody.Write fid offset bytes.now)) }
{
    put_u32(out, fid)?;
    put_u64(out, offset)?;
    put_data(out, bytes)?;
    Ok(())
}

#[tactic(auto, using(crate::proofs::Joins::joins))]
fn put_t_clunk(out: &mut Bytes, fid: u32) -> Result<(), NoMemory>
    ensures { OnOk result (out.new ≡ out.old ++ fields_t (TBody.Clunk fid)) }
{
    put_u32(out, fid)?;
    Ok(())
}

#[tactic(auto, using(crate::proofs::Joins::joins))]
fn put_t_remove(out: &mut Bytes, fid: u32) -> Result<(), NoMemory>
    ensures { OnOk result (out.new ≡ out.old ++ fields_t (TBody.Remove fid)) }
{
    put_u32(out, fid)?;
    Ok(())
}

#[tactic(auto, using(crate::proofs::Joins::joins))]
fn put_t_stat(out: &mut Bytes, fid: u32) -> Result<(), NoMemory>
    ensures { OnOk result (out.new ≡ out.old ++ fields_t (TBody.Stat fid)) }
{
    put_u32(out, fid)?;
    Ok(())
}

#[tactic(auto, using(crate::proofs::Joins::joins))]
fn put_t_wstat(out: &mut Bytes, fid: u32, stat: &[u8]) -> Result<(), NoMemory>
    requires { length stat.now < 2 ^ 16 }
    ensures { OnOk result (out.new ≡ out.old ++ fields_t (TBody.Wstat fid stat.now)) }
{
    put_u32(out, fid)?;
    put_stat(out, stat)?;
    Ok(())
}

fn put_t_body(out: &mut Bytes, body: &TBody) -> Result<(), NoMemory>
    requires { BodyFits_t body.now }
    ensures { OnOk result (out.new ≡ out.old ++ fields_t body.now) }
{
    match body {
        TBody::Version { msize, version } => put_t_version(out, *msize, version.as_slice()),
        TBody::Auth { afid, uname, aname } => put_t_auth(
            out,
            *afid,
            uname.as_slice(),
            aname.as_slice(),
        ),
        TBody::Flush { oldtag } => put_t_flush(out, *oldtag),
        TBody::Attach {
            fid,
            afid,
            uname,
            aname,
        } => put_t_attach(out, *fid, *afid, uname.as_slice(), aname.as_slice()),
        TBody::Walk { fid, newfid, names } => put_t_walk(out, *fid, *newfid, names.as_slice()),
        TBody::Open { fid, mode } => put_t_open(out, *fid, *mode),
        TBody::Create {
            fid,
            name,
            perm,
            mode,
        } => put_t_create(out, *fid, name.as_slice(), *perm, *mode),
        TBody::Read { fid, offset, count } => put_t_read(out, *fid, *offset, *count),
        TBody::Write { fid, offset, bytes } => put_t_write(out, *fid, *offset, bytes.as_slice()),
        TBody::Clunk { fid } => put_t_clunk(out, *fid),
        TBody::Remove { fid } => put_t_remove(out, *fid),
        TBody::Stat { fid } => put_t_stat(out, *fid),
        TBody::Wstat { fid, stat } => put_t_wstat(out, *fid, stat.as_slice()),
    }
}

/// The type byte of a message to the server. It takes no memory.
pub fn t_kind(body: &TBody) -> u8
    ensures { result ≡ kind_t body.now }
{
    match body {
        TBody::Version { .. } => TVERSION,
        TBody::Auth { .. } => TAUTH,
        TBody::Flush { .. } => TFLUSH,
        TBody::Attach { .. } => TATTACH,
        TBody::Walk { .. } => TWALK,
        TBody::Open { .. } => TOPEN,
        TBody::Create { .. } => TCREATE,
        TBody::Read { .. } => TREAD,
        TBody::Write { .. } => TWRITE,
        TBody::Clunk { .. } => TCLUNK,
        TBody::Remove { .. } => TREMOVE,
        TBody::Stat { .. } => TSTAT,
        TBody::Wstat { .. } => TWSTAT,
    }
}

/// The number of bytes of a message with this body.
fn t_body_size(body: &TBody) -> usize
    requires { size_t body.now < 2 ^ 32 }
    ensures { result ≡ size_t body.now }
{
    match body {
        TBody::Version { version, .. } => 13 + version.len(),
        TBody::Auth { uname, aname, .. } => 15 + uname.len() + aname.len(),
        TBody::Flush { .. } => 9,
        TBody::Attach { uname, aname, .. } => 19 + uname.len() + aname.len(),
        TBody::Walk { names, .. } => 17 + strings_len(names.as_slice()),
        TBody::Open { .. } => 12,
        TBody::Create { name, .. } => 18 + name.len(),
        TBody::Read { .. } => 23,
        TBody::Write { bytes, .. } => 23 + bytes.len(),
        TBody::Clunk { .. } => 11,
        TBody::Remove { .. } => 11,
        TBody::Stat { .. } => 11,
        TBody::Wstat { stat, .. } => 13 + stat.len(),
    }
}

/// How many bytes the spelling of a message to the server has. It takes no memory.
#[tactic(auto, using(crate::proofs::Sizes::t_sizes))]
pub fn t_size(msg: &TMsg) -> usize
    requires { Fits_t msg.now }
    ensures exact { result ≡ length (spelling_t msg.now) }
{
    t_body_size(&msg.body)
}

/// The one spelling of a message to the server. It takes memory once, for all of its bytes.
#[tactic(auto, using(crate::proofs::Sizes::t_sizes))]
pub fn write_t(alloc: Global, msg: &TMsg) -> Result<Bytes, NoMemory>
    requires { Fits_t msg.now }
    ensures spelled { IfOk result (λ bytes. bytes ≡ spelling_t msg.now) }
    ensures size { IfOk result (λ bytes. length bytes ≡ size_t msg.now.body) }
{
    let mut out = begun(alloc, t_body_size(&msg.body), t_kind(&msg.body), msg.tag)?;
    put_t_body(&mut out, &msg.body)?;
    Ok(out)
}
