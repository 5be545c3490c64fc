//! Parts of lines.

ghost use Rattle.std.specs.Prelude.{◌≡◌, ◌++◌, OnOk};
ghost use Rattle.am_text.specs.Fields.{around, text_end};

use crate::items::Bytes;
use crate::line::escape;
use crate::memory::NoMemory;
use crate::number::decimal;
use std::alloc::Global;

/// Puts a number, in decimal, between two texts at the end.
#[tactic(auto, using(crate::proofs::Joined::words), unfolding(crate::specs::Fields::around))]
pub fn put_around(
    alloc: Global,
    out: &mut Bytes,
    before: &[u8],
    n: u64,
    after: &[u8],
) -> Result<(), NoMemory>
    ensures { OnOk result (out.new ≡ out.old ++ around before.now n after.now) }
{
    out.append(before)?;
    out.append(decimal(alloc, n)?.as_slice())?;
    out.append(after)?;
    Ok(())
}

/// Puts a colon, a text in one line, and a newline at the end.
#[tactic(auto, using(crate::proofs::Joined::words), unfolding(crate::specs::Fields::text_end))]
pub fn put_text_end(alloc: Global, out: &mut Bytes, text: &[u32]) -> Result<(), NoMemory>
    ensures { OnOk result (out.new ≡ out.old ++ text_end text.now) }
{
    out.append(b":")?;
    out.append(escape(alloc, text)?.as_slice())?;
    out.append(b"\n")?;
    Ok(())
}
