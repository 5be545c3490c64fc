//! A record, put at the end of the bytes.

ghost use Rattle.std.specs.Prelude.{◌≡◌, ◌<◌, ◌+◌, ◌^◌, ◌++◌, length, OnOk};
ghost use Rattle.ninep_frame.specs.Layout.{fixed_size};
ghost use Rattle.ninep_frame.specs.Records.{record_of, record_size, stat_fields};

use crate::layout::FIXED_SIZE;
use crate::puts::{
    put_no_device, put_no_times, put_owners, put_qid, put_string, put_u16, put_u32, put_u64,
};
use crate::stat::Stat;
use am_text::{Bytes, NoMemory};

/// How many bytes the record of a stat has.
pub(crate) fn record_size(stat: &Stat) -> usize
    requires { length stat.now.name < 2 ^ 16 }
    ensures { result ≡ record_size stat.now }
{
    2 + FIXED_SIZE + stat.name.len()
}

/// The fields after the size.
#[tactic(auto, using(crate::proofs::Joins::joins), unfolding(crate::specs::Records::stat_fields))]
fn put_fields(out: &mut Bytes, stat: &Stat) -> Result<(), NoMemory>
    requires { length stat.now.name < 2 ^ 16 }
    ensures { OnOk result (out.new ≡ out.old ++ stat_fields stat.now) }
{
    put_no_device(out)?;
    put_qid(out, stat.qid)?;
    put_u32(out, stat.mode)?;
    put_no_times(out)?;
    put_u64(out, stat.length)?;
    put_string(out, stat.name.as_slice())?;
    put_owners(out)?;
    Ok(())
}

/// The record of a stat.
pub(crate) fn put_record(out: &mut Bytes, stat: &Stat) -> Result<(), NoMemory>
    requires { fixed_size + length stat.now.name < 2 ^ 16 }
    ensures { OnOk result (out.new ≡ out.old ++ record_of stat.now) }
{
    put_u16(out, (FIXED_SIZE + stat.name.len()) as u16)?;
    put_fields(out, stat)?;
    Ok(())
}
