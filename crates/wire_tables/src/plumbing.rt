//! Cases of plumb_msg.
//!
//! | line | answer |
//! |---|---|
//! | `plumb` BYTES | `More`, `Bad`, or how many bytes the message in front takes, and how it is written, escaped |
//! | `attr` BYTES | the name and the value of the one attribute that they spell, or `none` |
//! | `pair` A B | whether a message can have an attribute A, which is `it's`, and one B, which is empty, and how they
//! are spelled |

use crate::fault::Fault;
use crate::fields::{in_one_line, line};
use am_text::{Bytes, Items, NoMemory};
use plumb_msg::{
    Attr, Attrs, PlumbMsg, PlumbRead, attrs_text, can_spell, read_attrs, read_msg, write_msg,
};
use std::alloc::Global;

fn written(alloc: Global, msg: &PlumbMsg, used: usize) -> Result<Bytes, Fault> {
    if !can_spell(alloc, msg)? {
        return Err(Fault::NoCase);
    }
    let text = write_msg(alloc, msg)?;
    let mut answer = line(format!(in alloc; "{used} ")?);
    answer.append(in_one_line(alloc, text.as_slice())?.as_slice())?;
    Ok(answer)
}

pub fn message(alloc: Global, bytes: &[u8]) -> Result<Bytes, Fault> {
    match read_msg(alloc, bytes)? {
        PlumbRead::Whole(msg, used) => written(alloc, &msg, used),
        PlumbRead::More => Ok(line(format!(in alloc; "More")?)),
        PlumbRead::Bad => Ok(line(format!(in alloc; "Bad")?)),
    }
}

pub fn attribute(alloc: Global, bytes: &[u8]) -> Result<Bytes, Fault> {
    let Some(attrs) = read_attrs(alloc, bytes)? else {
        return Ok(line(format!(in alloc; "none")?));
    };
    let [attr] = attrs.as_slice() else {
        return Err(Fault::NoCase);
    };
    let mut answer = Items::copied(alloc, attr.name.as_slice())?;
    answer.push(b' ')?;
    answer.append(attr.value.as_slice())?;
    Ok(answer)
}

fn attr(alloc: Global, name: &str, value: &[u8]) -> Result<Attr, NoMemory> {
    Ok(Attr {
        name: Items::copied(alloc, name.as_bytes())?,
        value: Items::copied(alloc, value)?,
    })
}

fn two_attrs(alloc: Global, first: &str, second: &str) -> Result<Attrs, NoMemory> {
    let mut attrs = Items::new(alloc);
    attrs.push(attr(alloc, first, b"it's")?)?;
    attrs.push(attr(alloc, second, b"")?)?;
    Ok(attrs)
}

pub fn pair(alloc: Global, first: &str, second: &str) -> Result<Bytes, Fault> {
    let msg = PlumbMsg {
        src: Items::new(alloc),
        dst: Items::new(alloc),
        wdir: Items::new(alloc),
        sort: Items::new(alloc),
        attrs: two_attrs(alloc, first, second)?,
        body: Items::new(alloc),
    };
    let mut answer = line(format!(in alloc; "{} ", can_spell(alloc, &msg)?)?);
    answer.append(attrs_text(alloc, msg.attrs.as_slice())?.as_slice())?;
    Ok(answer)
}
