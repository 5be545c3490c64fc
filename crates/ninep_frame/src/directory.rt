//! Directory reads.

ghost use Rattle.std.specs.Prelude.{◌≡◌, ◌≤◌, ◌-◌, All, IfOk, drop, length};
ghost use Rattle.ninep_frame.specs.Records.{HasName};
ghost use Rattle.ninep_frame.specs.Directories.{fitting, records};

use crate::record::{put_record, record_size};
use crate::stat::{Stat, Stats};
use am_text::{Bytes, Items, NoMemory};
use std::alloc::Global;

/// The records of the stats from the front that fit into so many bytes, and how many they are.
#[tactic(auto, using(crate::proofs::Fits::fits))]
fn part_of(alloc: Global, stats: &[Stat], count: usize) -> Result<(Bytes, usize), NoMemory>
    requires { All HasName stats.now }
    ensures bytes { IfOk result (λ part. part.0 ≡ records (fitting count stats.now)) }
    ensures given { IfOk result (λ part. part.1 ≡ length (fitting count stats.now)) }
{
    let mut bytes = Items::new(alloc);
    let mut room = count;
    for (given, stat) in stats.iter().enumerate() {
        let size = record_size(stat);
        if size > room {
            return Ok((bytes, given));
        }
        put_record(&mut bytes, stat)?;
        room -= size;
    }
    Ok((bytes, stats.len()))
}

/// The part of a directory that a read gives: the records of the stats after the first `skip`, as
/// many whole ones as fit into `count` bytes, and how many they are.
///
/// It looks at the stats that it gives, and at one more.
#[tactic(auto, using(crate::proofs::Longest::bounds))]
pub fn dir_read(
    alloc: Global,
    all: &Stats,
    skip: usize,
    count: u32,
) -> Result<(Bytes, usize), NoMemory>
    requires { All HasName all.now }
    ensures bytes { IfOk result (λ part. part.0 ≡ records (fitting count (drop skip all.now))) }
    ensures given { IfOk result (λ part. part.1 ≡ length (fitting count (drop skip all.now))) }
    // They are at most as many bytes, and records, as there are.
    ensures fits { IfOk result (λ part. length part.0 ≤ count) }
    ensures within { IfOk result (λ part. part.1 ≤ length all.now - skip) }
{
    let stats = all.as_slice();
    let (_, rest) = stats.split_at(skip.min(stats.len()));
    part_of(alloc, rest, count as usize)
}
