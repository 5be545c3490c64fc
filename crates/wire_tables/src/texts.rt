//! Cases of am_text.
//!
//! | line | answer |
//! |---|---|
//! | `text` BYTES | their text, escaped |
//! | `lines` BYTES | the ranges of their lines |
//! | `surrogate` | the bytes of `a`, a rune of three bytes and a surrogate, and three of them from the third on |
//! | `room` | a list with room: its length once three members are put, and once one is set; its members, the one taken
//! from its second place, whether it is empty then, and what is left |

use crate::fault::Fault;
use crate::fields::line;
use am_text::{Bytes, Items, Roomy, Rune, encode, lines, utf8_slice};
use std::alloc::Global;

const TEXT: [Rune; 3] = [0x61, 0x20AC, 0xD800];

pub fn spans(alloc: Global, bytes: &[u8]) -> Result<Bytes, Fault> {
    let spans = lines(alloc, bytes)?;
    Ok(line(format!(in alloc; "{:?}", spans.as_slice())?))
}

pub fn surrogate(alloc: Global) -> Result<Bytes, Fault> {
    let all = encode(alloc, &Items::copied(alloc, &TEXT)?)?;
    let part = utf8_slice(alloc, &TEXT, 2, 3)?;
    let mut answer = line(hex::encode(alloc, all.as_slice())?);
    answer.push(b' ')?;
    answer.append(hex::encode(alloc, part.as_slice())?.as_bytes())?;
    Ok(answer)
}

pub fn room(alloc: Global) -> Result<Bytes, Fault> {
    let mut list = Roomy::new(alloc);
    list.reserve(3)?;
    list.put(1u8);
    list.reserve(2)?;
    list.put_all(&[2, 3]);
    let put = list.len();
    list.set(0, 7);
    let set = list.len();
    let members = format!(in alloc; "{:?}", list.as_slice())?;
    let taken = list.remove(1);
    let is_empty = list.is_empty();
    let left = list.into_items();
    Ok(line(format!(in alloc;
        "{put} {set} {members} {taken} {is_empty} {:?}",
        left.as_slice()
    )?))
}
