//! Cases of win_events.
//!
//! | line | answer |
//! |---|---|
//! | `spell` CLICK | the messages of an action of the mouse, escaped; CLICK is `word`, `inside` (a word) or `argument`
//! |
//! | `back` BYTES | the event message that is written back so |

use crate::fault::Fault;
use crate::fields::{in_one_line, line};
use am_text::{Bytes, NoMemory, Range, Runes, decode_whole};
use std::alloc::Global;
use win_events::{Item, Origin, Sort, read_back, spell};

// An action in the body, without an argument.
fn exec(range: Range, flag: u32, shown: Runes) -> Item {
    Item {
        origin: Origin::M,
        sort: Sort::BodyExec,
        range,
        flag,
        text: shown,
        expanded: None,
        argument: None,
    }
}

fn inside(alloc: Global) -> Result<Item, NoMemory> {
    let mut item = exec(Range { q0: 4, q1: 4 }, 2, Runes::new(alloc));
    item.expanded = Some((Range { q0: 4, q1: 5 }, decode_whole(alloc, b"x")?));
    Ok(item)
}

fn with_argument(alloc: Global) -> Result<Item, NoMemory> {
    let text = decode_whole(alloc, b"Del")?;
    let place = decode_whole(alloc, b"/w:#0,#3")?;
    let mut item = exec(Range { q0: 4, q1: 5 }, 8, decode_whole(alloc, b"x")?);
    item.argument = Some((text, place));
    Ok(item)
}

fn click(alloc: Global, click: &str) -> Result<Item, Fault> {
    match click {
        "word" => Ok(exec(Range { q0: 0, q1: 3 }, 1, decode_whole(alloc, b"Del")?)),
        "inside" => Ok(inside(alloc)?),
        "argument" => Ok(with_argument(alloc)?),
        _ => Err(Fault::NoCase),
    }
}

pub fn spelled(alloc: Global, name: &str) -> Result<Bytes, Fault> {
    let item = click(alloc, name)?;
    in_one_line(alloc, spell(alloc, &item)?.as_slice())
}

pub fn written_back(alloc: Global, bytes: &[u8]) -> Result<Bytes, Fault> {
    Ok(line(format!(in alloc; "{:?}", read_back(bytes))?))
}
