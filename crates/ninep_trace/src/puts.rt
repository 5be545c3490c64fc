//! The kinds of fields, each put at the end of the line.

ghost use Rattle.std.specs.Prelude.{◌≡◌, ◌++◌, ◌∷◌, [], OnOk};
ghost use Rattle.std.specs.Fmt.{decimal};
ghost use Rattle.std.specs.List.{flat_map};
ghost use Rattle.ninep_trace.specs.Fields.{number, marked, quoted, text, bytes_in_hex, qid_text, qid_field, blank_and};
ghost use Rattle.ninep_trace.specs.Fields.{listed};

use am_journal::put_hex;
use am_text::{Bytes, NoMemory, decimal};
use ninep_types::Qid;
use std::alloc::Global;

fn put_decimal(alloc: Global, out: &mut Bytes, n: u64) -> Result<(), NoMemory>
    ensures { OnOk result (out.new ≡ out.old ++ decimal n) }
{
    out.append(decimal(alloc, n)?.as_slice())
}

#[tactic(auto, using(crate::proofs::Joins::joins), unfolding(crate::specs::Fields::number))]
pub(crate) fn put_number(
    alloc: Global,
    out: &mut Bytes,
    front: &[u8],
    n: u64,
) -> Result<(), NoMemory>
    ensures { OnOk result (out.new ≡ out.old ++ number front.now n) }
{
    out.append(front)?;
    put_decimal(alloc, out, n)
}

fn put_marked(out: &mut Bytes, byte: u8) -> Result<(), NoMemory>
    ensures { OnOk result (out.new ≡ out.old ++ marked byte) }
{
    match byte {
        b'\n' => out.append(b"\\n"),
        b'\\' => out.append(b"\\\\"),
        b'\'' => out.append(b"\\q"),
        other => out.push(other),
    }
}

#[tactic(auto, using(crate::proofs::Lists::lists))]
fn put_all_marked(out: &mut Bytes, bytes: &[u8]) -> Result<(), NoMemory>
    ensures { OnOk result (out.new ≡ out.old ++ flat_map marked bytes.now) }
{
    for byte in bytes {
        put_marked(out, *byte)?;
    }
    Ok(())
}

#[tactic(auto, using(crate::proofs::Joins::joins), unfolding(crate::specs::Fields::quoted))]
fn put_quoted(out: &mut Bytes, bytes: &[u8]) -> Result<(), NoMemory>
    ensures { OnOk result (out.new ≡ out.old ++ quoted bytes.now) }
{
    out.push(b'\'')?;
    put_all_marked(out, bytes)?;
    out.push(b'\'')
}

#[tactic(auto, using(crate::proofs::Joins::joins), unfolding(crate::specs::Fields::text))]
pub(crate) fn put_text(out: &mut Bytes, front: &[u8], bytes: &[u8]) -> Result<(), NoMemory>
    ensures { OnOk result (out.new ≡ out.old ++ text front.now bytes.now) }
{
    out.append(front)?;
    put_quoted(out, bytes)
}

#[tactic(auto, using(crate::proofs::Joins::joins), unfolding(crate::specs::Fields::bytes_in_hex))]
pub(crate) fn put_bytes(out: &mut Bytes, front: &[u8], bytes: &[u8]) -> Result<(), NoMemory>
    ensures { OnOk result (out.new ≡ out.old ++ bytes_in_hex front.now bytes.now) }
{
    out.append(front)?;
    put_hex(out, bytes)
}

#[tactic(auto, using(crate::proofs::Joins::joins), unfolding(crate::specs::Fields::qid_text))]
fn put_qid_text(alloc: Global, out: &mut Bytes, qid: Qid) -> Result<(), NoMemory>
    ensures { OnOk result (out.new ≡ out.old ++ qid_text qid) }
{
    put_decimal(alloc, out, u64::from(qid.kind))?;
    out.push(b'.')?;
    put_decimal(alloc, out, u64::from(qid.vers))?;
    out.push(b'.')?;
    put_decimal(alloc, out, qid.path)
}

#[tactic(auto, using(crate::proofs::Joins::joins), unfolding(crate::specs::Fields::qid_field))]
pub(crate) fn put_qid(
    alloc: Global,
    out: &mut Bytes,
    front: &[u8],
    qid: Qid,
) -> Result<(), NoMemory>
    ensures { OnOk result (out.new ≡ out.old ++ qid_field front.now qid) }
{
    out.append(front)?;
    put_qid_text(alloc, out, qid)
}

#[tactic(auto, using(crate::proofs::Lists::lists))]
fn put_each_name(out: &mut Bytes, names: &[Bytes]) -> Result<(), NoMemory>
    ensures { OnOk result (out.new ≡ out.old ++ flat_map (blank_and quoted) names.now) }
{
    for name in names {
        out.push(b' ')?;
        put_quoted(out, name.as_slice())?;
    }
    Ok(())
}

#[tactic(auto, using(crate::proofs::Joins::joins), unfolding(crate::specs::Fields::listed))]
pub(crate) fn put_names(
    alloc: Global,
    out: &mut Bytes,
    front: &[u8],
    names: &[Bytes],
) -> Result<(), NoMemory>
    ensures { OnOk result (out.new ≡ out.old ++ listed front.now quoted names.now) }
{
    put_number(alloc, out, front, names.len() as u64)?;
    put_each_name(out, names)
}

#[tactic(auto, using(crate::proofs::Lists::lists))]
fn put_each_qid(alloc: Global, out: &mut Bytes, qids: &[Qid]) -> Result<(), NoMemory>
    ensures { OnOk result (out.new ≡ out.old ++ flat_map (blank_and qid_text) qids.now) }
{
    for qid in qids {
        out.push(b' ')?;
        put_qid_text(alloc, out, *qid)?;
    }
    Ok(())
}

#[tactic(auto, using(crate::proofs::Joins::joins), unfolding(crate::specs::Fields::listed))]
pub(crate) fn put_qids(
    alloc: Global,
    out: &mut Bytes,
    front: &[u8],
    qids: &[Qid],
) -> Result<(), NoMemory>
    ensures { OnOk result (out.new ≡ out.old ++ listed front.now qid_text qids.now) }
{
    put_number(alloc, out, front, qids.len() as u64)?;
    put_each_qid(alloc, out, qids)
}
