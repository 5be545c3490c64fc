//! The fields of a record, each put at the end of the bytes.

ghost use Rattle.std.specs.Prelude.{◌≡◌, ◌<◌, ◌^◌, ◌++◌, length, OnOk};
ghost use Rattle.std.specs.Int.{w16, w32, w64, to_le_bytes};
ghost use Rattle.ninep_types.specs.Fields.{string, qid_bytes};
ghost use Rattle.ninep_frame.specs.Records.{no_device, no_times, owners};

use am_text::{Bytes, NoMemory};
use ninep_types::Qid;

pub(crate) fn put_u16(out: &mut Bytes, number: u16) -> Result<(), NoMemory>
    ensures { OnOk result (out.new ≡ out.old ++ to_le_bytes w16 number) }
{
    out.append(&number.to_le_bytes())
}

pub(crate) fn put_u32(out: &mut Bytes, number: u32) -> Result<(), NoMemory>
    ensures { OnOk result (out.new ≡ out.old ++ to_le_bytes w32 number) }
{
    out.append(&number.to_le_bytes())
}

pub(crate) fn put_u64(out: &mut Bytes, number: u64) -> Result<(), NoMemory>
    ensures { OnOk result (out.new ≡ out.old ++ to_le_bytes w64 number) }
{
    out.append(&number.to_le_bytes())
}

pub(crate) fn put_string(out: &mut Bytes, text: &[u8]) -> Result<(), NoMemory>
    requires { length text.now < 2 ^ 16 }
    ensures { OnOk result (out.new ≡ out.old ++ string text.now) }
{
    put_u16(out, text.len() as u16)?;
    out.append(text)
}

#[tactic(auto, using(crate::proofs::Joins::joins))]
pub(crate) fn put_qid(out: &mut Bytes, qid: Qid) -> Result<(), NoMemory>
    ensures { OnOk result (out.new ≡ out.old ++ qid_bytes qid) }
{
    out.push(qid.kind)?;
    put_u32(out, qid.vers)?;
    put_u64(out, qid.path)?;
    Ok(())
}

/// The type and the number of the kernel's device, which are 0.
#[tactic(auto, using(crate::proofs::Joins::joins), unfolding(crate::specs::Records::no_device))]
pub(crate) fn put_no_device(out: &mut Bytes) -> Result<(), NoMemory>
    ensures { OnOk result (out.new ≡ out.old ++ no_device) }
{
    put_u16(out, 0)?;
    put_u32(out, 0)?;
    Ok(())
}

/// The times of the last read and write, which are 0.
#[tactic(auto, using(crate::proofs::Joins::joins), unfolding(crate::specs::Records::no_times))]
pub(crate) fn put_no_times(out: &mut Bytes) -> Result<(), NoMemory>
    ensures { OnOk result (out.new ≡ out.old ++ no_times) }
{
    put_u32(out, 0)?;
    put_u32(out, 0)?;
    Ok(())
}

/// The owner, the group, and who wrote last.
#[tactic(auto, using(crate::proofs::Joins::joins), unfolding(crate::specs::Records::owners))]
pub(crate) fn put_owners(out: &mut Bytes) -> Result<(), NoMemory>
    ensures { OnOk result (out.new ≡ out.old ++ owners) }
{
    put_string(out, b"acme")?;
    put_string(out, b"acme")?;
    put_string(out, b"acme")?;
    Ok(())
}
