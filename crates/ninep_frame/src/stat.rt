//! Stat records.

ghost use Rattle.std.specs.Prelude.{◌≡◌, ◌<◌, ◌+◌, ◌^◌, IfOk, IfSome, Some, length};
ghost use Rattle.ninep_frame.specs.declared.stat.Stat.{Stat};
ghost use Rattle.ninep_frame.specs.Layout.{fixed_size};
ghost use Rattle.ninep_frame.specs.Places.{stat_of};
ghost use Rattle.ninep_frame.specs.Records.{record_of, record_size, HasName, IsRecord, InRange};

use crate::places::{is_formed, stat_at};
use crate::record::{put_record, record_size};
use am_text::{Bytes, Items, NoMemory};
use ninep_types::Qid;
use std::alloc::Global;

/// What a stat record says of a file.
#[derive(Drop)]
pub struct Stat {
    /// The file.
    pub qid: Qid,
    /// Its permissions, and the bits of directories and of append-only files.
    pub mode: u32,
    /// How many bytes it has.
    pub length: u64,
    /// Its name in its directory.
    pub name: Bytes,
}

/// A list of stats, as of the files of a directory.
pub type Stats = Items<Stat>;

fn written(alloc: Global, stat: &Stat) -> Result<Bytes, NoMemory>
    requires { fixed_size + length stat.now.name < 2 ^ 16 }
    ensures { IfOk result (λ bytes. bytes ≡ record_of stat.now) }
{
    let mut out = Items::from_vec(Vec::with_capacity(alloc, record_size(stat))?);
    put_record(&mut out, stat)?;
    Ok(out)
}

/// The record of a stat. It takes memory once, for all of its bytes.
#[tactic(auto, using(crate::proofs::Sizes::sizes))]
pub fn stat_write(alloc: Global, stat: &Stat) -> Result<Bytes, NoMemory>
    requires { HasName stat.now }
    ensures record { IfOk result (λ bytes. bytes ≡ record_of stat.now) }
    ensures size { IfOk result (λ bytes. length bytes ≡ record_size stat.now) }
{
    written(alloc, stat)
}

#[tactic(auto, unfolding(crate::specs::Places::stat_of))]
fn read(alloc: Global, bytes: &[u8]) -> Result<Option<Stat>, NoMemory>
    ensures { IfOk result (λ found. found ≡ stat_of bytes.now) }
{
    if !is_formed(bytes) {
        return Ok(None);
    }
    let stat = stat_at(alloc, bytes)?;
    if written(alloc, &stat)?.as_slice() != bytes {
        return Ok(None);
    }
    Ok(Some(stat))
}

/// The stat whose record the bytes are, all of them; `None` where they are no record of a stat.
pub fn stat_read(alloc: Global, bytes: &[u8]) -> Result<Option<Stat>, NoMemory>
    // What is read has this record.
    ensures found { IfOk result (λ found. IfSome found (λ stat. IsRecord stat bytes.now)) }
    // Its numbers are within their fields.
    ensures in_range { IfOk result (λ found. IfSome found InRange) }
    // A record is read as its stat.
    ensures only { (stat : Stat) → InRange stat → IsRecord stat bytes.now → IfOk result (λ found. found ≡ Some stat) }
{
    read(alloc, bytes)
}
