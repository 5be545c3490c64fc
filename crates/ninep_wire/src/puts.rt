//! The kinds of fields, each put at the end of the bytes.

ghost use Rattle.std.specs.Prelude.{◌≡◌, ◌<◌, ◌≤◌, ◌^◌, ◌++◌, ◌+◌, ◌∷◌, length, OnOk, IfOk, All};
ghost use Rattle.std.specs.List.{flat_map};
ghost use Rattle.std.specs.Int.{w16, w32, w64, to_le_bytes};
ghost use Rattle.ninep_types.specs.Fields.{string, counted, listed, qid_bytes};
ghost use Rattle.ninep_types.specs.Limits.{max_names};
ghost use Rattle.ninep_types.specs.Spelling.{head, IsString, AreNames};

use am_text::{Bytes, Items, NoMemory};
use ninep_types::Qid;
use std::alloc::Global;

pub(crate) fn put_u16(out: &mut Bytes, number: u16) -> Result<(), NoMemory>
    ensures { OnOk result (out.new ≡ out.old ++ to_le_bytes w16 number) }
{
    out.append(&number.to_le_bytes())
}

pub(crate) fn put_u32(out: &mut Bytes, number: u32) -> Result<(), NoMemory>
    ensures { OnOk result (out.new ≡ out.old ++ to_le_bytes w32 number) }
{
    out.append(&number.to_le_bytes())
}

pub(crate) fn put_u64(out: &mut Bytes, number: u64) -> Result<(), NoMemory>
    ensures { OnOk result (out.new ≡ out.old ++ to_le_bytes w64 number) }
{
    out.append(&number.to_le_bytes())
}

pub(crate) fn put_string(out: &mut Bytes, text: &[u8]) -> Result<(), NoMemory>
    requires { length text.now < 2 ^ 16 }
    ensures { OnOk result (out.new ≡ out.old ++ string text.now) }
{
    put_u16(out, text.len() as u16)?;
    out.append(text)
}

pub(crate) fn put_data(out: &mut Bytes, bytes: &[u8]) -> Result<(), NoMemory>
    requires { length bytes.now < 2 ^ 32 }
    ensures { OnOk result (out.new ≡ out.old ++ counted w32 bytes.now) }
{
    put_u32(out, bytes.len() as u32)?;
    out.append(bytes)
}

pub(crate) fn put_stat(out: &mut Bytes, stat: &[u8]) -> Result<(), NoMemory>
    requires { length stat.now < 2 ^ 16 }
    ensures { OnOk result (out.new ≡ out.old ++ counted w16 stat.now) }
{
    put_u16(out, stat.len() as u16)?;
    out.append(stat)
}

#[tactic(auto, using(crate::proofs::Joins::joins))]
pub(crate) fn put_qid(out: &mut Bytes, qid: Qid) -> Result<(), NoMemory>
    ensures { OnOk result (out.new ≡ out.old ++ qid_bytes qid) }
{
    out.push(qid.kind)?;
    put_u32(out, qid.vers)?;
    put_u64(out, qid.path)?;
    Ok(())
}

#[tactic(auto, using(crate::proofs::Lists::lists))]
fn put_strings(out: &mut Bytes, names: &[Bytes]) -> Result<(), NoMemory>
    requires { All IsString names.now }
    ensures { OnOk result (out.new ≡ out.old ++ flat_map string names.now) }
{
    for name in names {
        put_string(out, name.as_slice())?;
    }
    Ok(())
}

#[tactic(auto, using(crate::proofs::Joins::joins))]
pub(crate) fn put_names(out: &mut Bytes, names: &[Bytes]) -> Result<(), NoMemory>
    requires { AreNames names.now }
    ensures { OnOk result (out.new ≡ out.old ++ listed string names.now) }
{
    put_u16(out, names.len() as u16)?;
    put_strings(out, names)
}

#[tactic(auto, using(crate::proofs::Lists::lists))]
fn put_several_qids(out: &mut Bytes, qids: &[Qid]) -> Result<(), NoMemory>
    ensures { OnOk result (out.new ≡ out.old ++ flat_map qid_bytes qids.now) }
{
    for qid in qids {
        put_qid(out, *qid)?;
    }
    Ok(())
}

#[tactic(auto, using(crate::proofs::Joins::joins))]
pub(crate) fn put_qids(out: &mut Bytes, qids: &[Qid]) -> Result<(), NoMemory>
    requires { length qids.now ≤ max_names }
    ensures { OnOk result (out.new ≡ out.old ++ listed qid_bytes qids.now) }
{
    put_u16(out, qids.len() as u16)?;
    put_several_qids(out, qids)
}

/// How many bytes the names take as strings.
pub(crate) fn strings_len(names: &[Bytes]) -> usize
    requires { length (flat_map string names.now) < 2 ^ 32 }
    ensures { result ≡ length (flat_map string names.now) }
{
    let mut len = 0;
    for name in names {
        len += 2 + name.len();
    }
    len
}

/// The first seven bytes of a message, with room for all of it.
pub(crate) fn begun(alloc: Global, size: usize, kind: u8, tag: u16) -> Result<Bytes, NoMemory>
    requires { size < 2 ^ 32 }
    ensures { IfOk result (λ made. made ≡ head size kind tag) }
{
    let mut out = Items::from_vec(Vec::with_capacity(alloc, size)?);
    put_u32(&mut out, size as u32)?;
    out.push(kind)?;
    put_u16(&mut out, tag)?;
    Ok(out)
}
