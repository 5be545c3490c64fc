//! Cases of ninep_frame.
//!
//! | line | answer |
//! |---|---|
//! | `stat` BYTES | the qid, the mode, the length and the name that the record says, or `none` |

use crate::fault::Fault;
use crate::fields::line;
use am_text::Bytes;
use ninep_frame::stat_read;
use std::alloc::Global;

pub fn record(alloc: Global, bytes: &[u8]) -> Result<Bytes, Fault> {
    let Some(stat) = stat_read(alloc, bytes)? else {
        return Ok(line(format!(in alloc; "none")?));
    };
    let name = stat.name.as_slice();
    Ok(line(format!(in alloc; "{:?} {} {} {name:?}", stat.qid, stat.mode, stat.length)?))
}
