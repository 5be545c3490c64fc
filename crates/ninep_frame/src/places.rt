//! The fields of a record, each taken from its place.

ghost use Rattle.std.specs.Prelude.{◌≡◌, ◌≤◌, ◌<◌, ◌+◌, ◌^◌, IfOk, IsTrue, length, take, drop, true};
ghost use Rattle.ninep_types.specs.Fields.{is_text};
ghost use Rattle.ninep_frame.specs.Layout.{fixed_size, name_len_place};
ghost use Rattle.ninep_frame.specs.Places.{u16_at, u32_at, u64_at, name_at, stat_at, is_formed};

use crate::layout::{
    LENGTH_PLACE, MODE_PLACE, NAME_LEN_PLACE, NAME_PLACE, QID_KIND_PLACE, QID_PATH_PLACE,
    QID_VERS_PLACE, UNNAMED_SIZE,
};
use crate::stat::Stat;
use am_text::{Items, NoMemory, is_utf8};
use ninep_types::Qid;
use std::alloc::Global;

// So many bytes from a place on.
fn part_at(bytes: &[u8], at: usize, len: usize) -> &[u8]
    requires { at + len ≤ length bytes.now }
    ensures part { result.now ≡ take len (drop at bytes.now) }
    ensures len { length result.now ≡ len }
{
    let (_, rest) = bytes.split_at(at);
    let (part, _) = rest.split_at(len);
    part
}

fn u16_at(bytes: &[u8], at: usize) -> u16
    requires { at + 2 ≤ length bytes.now }
    ensures { result ≡ u16_at at bytes.now }
{
    let part = part_at(bytes, at, 2);
    u16::from_le_bytes([part[0], part[1]])
}

fn u32_at(bytes: &[u8], at: usize) -> u32
    requires { at + 4 ≤ length bytes.now }
    ensures { result ≡ u32_at at bytes.now }
{
    let part = part_at(bytes, at, 4);
    u32::from_le_bytes([part[0], part[1], part[2], part[3]])
}

fn u64_at(bytes: &[u8], at: usize) -> u64
    requires { at + 8 ≤ length bytes.now }
    ensures { result ≡ u64_at at bytes.now }
{
    let part = part_at(bytes, at, 8);
    u64::from_le_bytes([
        part[0], part[1], part[2], part[3], part[4], part[5], part[6], part[7],
    ])
}

#[tactic(auto, unfolding(ninep_types::specs::Fields::is_text))]
fn is_text(bytes: &[u8]) -> bool
    ensures { result ≡ is_text bytes.now }
{
    is_utf8(bytes) && !bytes.contains(&0)
}

/// Whether the size and the length of the name are those of a record, and the name is UTF-8 without NUL.
#[tactic(auto, unfolding(crate::specs::Places::is_formed))]
pub(crate) fn is_formed(bytes: &[u8]) -> bool
    ensures exact { result ≡ is_formed bytes.now }
    ensures short { IsTrue result → fixed_size + u16_at name_len_place bytes.now < 2 ^ 16 }
{
    if bytes.len() < UNNAMED_SIZE {
        return false;
    }
    let size = u16_at(bytes, 0) as usize;
    let len = u16_at(bytes, NAME_LEN_PLACE) as usize;
    bytes.len() == 2 + size
        && bytes.len() == UNNAMED_SIZE + len
        && is_text(part_at(bytes, NAME_PLACE, len))
}

/// The stat that the fields say at their places, whatever the other bytes are.
#[tactic(auto, unfolding(crate::specs::Places::is_formed, crate::specs::Places::stat_at))]
pub(crate) fn stat_at(alloc: Global, bytes: &[u8]) -> Result<Stat, NoMemory>
    requires { is_formed bytes.now ≡ true }
    ensures exact { IfOk result (λ stat. stat ≡ stat_at bytes.now) }
    ensures name { IfOk result (λ stat. length stat.name ≡ u16_at name_len_place bytes.now) }
{
    let len = u16_at(bytes, NAME_LEN_PLACE) as usize;
    Ok(Stat {
        qid: Qid {
            kind: bytes[QID_KIND_PLACE],
            vers: u32_at(bytes, QID_VERS_PLACE),
            path: u64_at(bytes, QID_PATH_PLACE),
        },
        mode: u32_at(bytes, MODE_PLACE),
        length: u64_at(bytes, LENGTH_PLACE),
        name: Items::copied(alloc, part_at(bytes, NAME_PLACE, len))?,
    })
}
