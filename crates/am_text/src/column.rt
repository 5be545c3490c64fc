//! Numbers in columns.

ghost use Rattle.std.specs.Prelude.{◌≡◌, IfOk};
ghost use Rattle.am_text.specs.Column.{column11};

use crate::items::{Bytes, Items};
use crate::memory::NoMemory;
use crate::number::decimal;
use std::alloc::Global;

/// The number in decimal, right-aligned in 11 places and longer where it needs more, and a blank.
#[tactic(auto, unfolding(crate::specs::Column::column11))]
pub fn column11(alloc: Global, n: u64) -> Result<Bytes, NoMemory>
    ensures { IfOk result (λ bytes. bytes ≡ column11 n) }
{
    let digits = decimal(alloc, n)?;
    let blanks = 11usize.saturating_sub(digits.len());
    let mut bytes = Items::from_vec(vec![in alloc; b' '; blanks]?);
    bytes.append(digits.as_slice())?;
    bytes.push(b' ')?;
    Ok(bytes)
}
