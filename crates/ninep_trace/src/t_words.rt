//! Messages to the server, in words.

ghost use Rattle.std.specs.Prelude.{◌≡◌, ◌<◌, ◌≤◌, ◌++◌, length, OnOk, IfOk, Some};
ghost use Rattle.ninep_types.specs.Limits.{max_msize};
ghost use Rattle.ninep_types.specs.Spelling.{spelling_t, Fits_t};
ghost use Rattle.ninep_trace.specs.Words.{name_t, fields_t, words_t};
ghost use Rattle.ninep_trace.specs.Reading.{line_of};

use crate::puts::{put_bytes, put_names, put_number, put_text};
use am_text::{Bytes, Items, NoMemory, put_around};
use ninep_types::{TBody, TMsg};
use std::alloc::Global;

#[tactic(auto, using(crate::proofs::Joins::joins))]
fn put_t_version(alloc: Global, out: &mut Bytes, msize: u32, version: &[u8]) -> Result<(), NoMemory>
    ensures { OnOk result (out.new ≡ out.old ++ fields_t (TBody.Version msize version.now)) }
{
    put_number(alloc, out, b" msize=", u64::from(msize))?;
    put_text(out, b" version=", version)
}

#[tactic(auto, using(crate::proofs::Joins::joins))]
fn put_t_auth(
    alloc: Global,
    out: &mut Bytes,
    afid: u32,
    uname: &[u8],
    aname: &[u8],
) -> Result<(), NoMemory>
    ensures { OnOk result (out.new ≡ out.old ++ fields_t (TBody.Auth afid uname.now aname.now)) }
{
    put_number(alloc, out, b" afid=", u64::from(afid))?;
    put_text(out, b" uname=", uname)?;
    put_text(out, b" aname=", aname)
}

#[tactic(auto, using(crate::proofs::Joins::joins))]
fn put_t_flush(alloc: Global, out: &mut Bytes, oldtag: u16) -> Result<(), NoMemory>
    ensures { OnOk result (out.new ≡ out.old ++ fields_t (TBody.Flush oldtag)) }
{
    put_number(alloc, out, b" oldtag=", u64::from(oldtag))
}

#[tactic(auto, using(crate::proofs::Joins::joins))]
fn put_t_attach(
    alloc: Global,
    out: &mut Bytes,
    fid: u32,
    afid: u32,
    uname: &[u8],
    aname: &[u8],
) -> Result<(), NoMemory>
    ensures { OnOk result (out.new ≡ out.old ++ fields_t (TBody.Attach fid afid uname.now aname.now)) }
{
    put_number(alloc, out, b" fid=", u64::from(fid))?;
    put_number(alloc, out, b" afid=", u64::from(afid))?;
    put_text(out, b" uname=", uname)?;
    put_text(out, b" aname=", aname)
}

#[tactic(auto, using(crate::proofs::Joins::joins))]
fn put_t_walk(
    alloc: Global,
    out: &mut Bytes,
    fid: u32,
    newfid: u32,
    names: &[Bytes],
) -> Result<(), NoMemory>
    ensures { OnOk result (out.new ≡ out.old ++ fields_t (TBody.Walk fid newfid names.now)) }
{
    put_number(alloc, out, b" fid=", u64::from(fid))?;
    put_number(alloc, out, b" newfid=", u64::from(newfid))?;
    put_names(alloc, out, b" names=", names)
}

#[tactic(auto, using(crate::proofs::Joins::joins))]
fn put_t_open(alloc: Global, out: &mut Bytes, fid: u32, mode: u8) -> Result<(), NoMemory>
    ensures { OnOk result (out.new ≡ out.old ++ fields_t (TBody.Open fid mode)) }
{
    put_number(alloc, out, b" fid=", u64::from(fid))?;
    put_number(alloc, out, b" mode=", u64::from(mode))
}

#[tactic(auto, using(crate::proofs::Joins::joins))]
fn put_t_create(
    alloc: Global,
    out: &mut Bytes,
    fid: u32,
    name: &[u8],
    perm: u32,
    mode: u8,
) -> Result<(), NoMemory>
    ensures { OnOk result (out.new ≡ out.old ++ fields_t (TBody.Create fid name.now perm mode)) }
{
    put_number(alloc, out, b" fid=", u64::from(fid))?;
    put_text(out, b" name=", name)?;
    put_number(alloc, out, b" perm=", u64::from(perm))?;
    put_number(alloc, out, b" mode=", u64::from(mode))
}

#[tactic(auto, using(crate::proofs::Joins::joins))]
fn put_t_read(
    alloc: Global,
    out: &mut Bytes,
    fid: u32,
    offset: u64,
    count: u32,
) -> Result<(), NoMemory>
    ensures { OnOk result (out.new ≡ out.old ++ fields_t (TBody.Read fid offset count)) }
{
    put_number(alloc, out, b" fid=", u64::from(fid))?;
    put_number(alloc, out, b" offset=", offset)?;
    put_number(alloc, out, b" count=", u64::from(count))
}

#[tactic(auto, using(crate::proofs::Joins::joins))]
fn put_t_write(
    alloc: Global,
    out: &mut Bytes,
    fid: u32,
    offset: u64,
    bytes: &[u8],
) -> Result<(), NoMemory>
    ensures { OnOk result (out.new ≡ out.old ++ fields_t (TBody.Write fid offset bytes.now)) }
{
    put_number(alloc, out, b" fid=", u64::from(fid))?;
    put_number(alloc, out, b" offset=", offset)?;
    put_bytes(out, b" data=", bytes)
}

#[tactic(auto, using(crate::proofs::Joins::joins))]
fn put_t_clunk(alloc: Global, out: &mut Bytes, fid: u32) -> Result<(), NoMemory>
    ensures { OnOk result (out.new ≡ out.old ++ fields_t (TBody.Clunk fid)) }
{
    put_number(alloc, out, b" fid=", u64::from(fid))
}

#[tactic(auto, using(crate::proofs::Joins::joins))]
fn put_t_remove(alloc: Global, out: &mut Bytes, fid: u32) -> Result<(), NoMemory>
    ensures { OnOk result (out.new ≡ out.old ++ fields_t (TBody.Remove fid)) }
{
    put_number(alloc, out, b" fid=", u64::from(fid))
}

#[tactic(auto, using(crate::proofs::Joins::joins))]
fn put_t_stat(alloc: Global, out: &mut Bytes, fid: u32) -> Result<(), NoMemory>
    ensures { OnOk result (out.new ≡ out.old ++ fields_t (TBody.Stat fid)) }
{
    put_number(alloc, out, b" fid=", u64::from(fid))
}

#[tactic(auto, using(crate::proofs::Joins::joins))]
fn put_t_wstat(alloc: Global, out: &mut Bytes, fid: u32, stat: &[u8]) -> Result<(), NoMemory>
    ensures { OnOk result (out.new ≡ out.old ++ fields_t (TBody.Wstat fid stat.now)) }
{
    put_number(alloc, out, b" fid=", u64::from(fid))?;
    put_bytes(out, b" stat=", stat)
}

#[tactic(auto, using(crate::proofs::Joins::joins))]
fn put_t_fields(alloc: Global, out: &mut Bytes, body: &TBody) -> Result<(), NoMemory>
    ensures { OnOk result (out.new ≡ out.old ++ fields_t body.now) }
{
    match body {
        TBody::Version { msize, version } => put_t_version(alloc, out, *msize, version.as_slice()),
        TBody::Auth { afid, uname, aname } => put_t_auth(
            alloc,
            out,
            *afid,
            uname.as_slice(),
            aname.as_slice(),
        ),
        TBody::Flush { oldtag } => put_t_flush(alloc, out, *oldtag),
        TBody::Attach {
            fid,
            afid,
            uname,
            aname,
        } => put_t_attach(alloc, out, *fid, *afid, uname.as_slice(), aname.as_slice()),
        TBody::Walk { fid, newfid, names } => put_t_walk(
            alloc,
            out,
            *fid,
            *newfid,
            names.as_slice(),
        ),
        TBody::Open { fid, mode } => put_t_open(alloc, out, *fid, *mode),
        TBody::Create {
            fid,
            name,
            perm,
            mode,
        } => put_t_create(alloc, out, *fid, name.as_slice(), *perm, *mode),
        TBody::Read { fid, offset, count } => put_t_read(alloc, out, *fid, *offset, *count),
        TBody::Write { fid, offset, bytes } => put_t_write(
            alloc,
            out,
            *fid,
            *offset,
            bytes.as_slice(),
        ),
        TBody::Clunk { fid } => put_t_clunk(alloc, out, *fid),
        TBody::Remove { fid } => put_t_remove(alloc, out, *fid),
        TBody::Stat { fid } => put_t_stat(alloc, out, *fid),
        TBody::Wstat { fid, stat } => put_t_wstat(alloc, out, *fid, stat.as_slice()),
    }
}

/// The name.
fn t_name(body: &TBody) -> &'static [u8]
    ensures { result.now ≡ name_t body.now }
{
    match body {
        TBody::Version { .. } => b"Tversion",
        TBody::Auth { .. } => b"Tauth",
        TBody::Flush { .. } => b"Tflush",
        TBody::Attach { .. } => b"Tattach",
        TBody::Walk { .. } => b"Twalk",
        TBody::Open { .. } => b"Topen",
        TBody::Create { .. } => b"Tcreate",
        TBody::Read { .. } => b"Tread",
        TBody::Write { .. } => b"Twrite",
        TBody::Clunk { .. } => b"Tclunk",
        TBody::Remove { .. } => b"Tremove",
        TBody::Stat { .. } => b"Tstat",
        TBody::Wstat { .. } => b"Twstat",
    }
}

/// The one line in words of a message to the server, without its newline.
#[tactic(auto, using(crate::proofs::Joins::joins), unfolding(crate::specs::Words::words_t))]
pub fn words_t(alloc: Global, conn: u32, msg: &TMsg) -> Result<Bytes, NoMemory>
    requires fits { Fits_t msg.now }
    requires short { length (spelling_t msg.now) ≤ max_msize }
    requires conn { conn < 64 }
    ensures exact { IfOk result (λ line. line ≡ words_t conn msg.now) }
{
    let mut line = Items::new(alloc);
    put_around(alloc, &mut line, b"msg ", u64::from(conn), b" ")?;
    line.append(t_name(&msg.body))?;
    line.push(b' ')?;
    put_number(alloc, &mut line, b"tag=", u64::from(msg.tag))?;
    put_t_fields(alloc, &mut line, &msg.body)?;
    Ok(line)
}
