//! Cases of win_ctl: the texts of a window. Texts are escaped: a newline as `\n`, a backslash as `\\`. FLAGS are
//! letters.
//!
//! | line | answer |
//! |---|---|
//! | `tag` FLAGS NAME RIGHT | the tag of a window; `u`: something can be undone, `r`: redone, `m`: it is modified, `d`:
//! it is a directory |
//! | `index` NUMBER BODY FLAGS TAG | its line in `index`, where its body has so many runes; `d` and `m` as above |

use crate::fault::Fault;
use crate::fields::{cut, in_one_line, number_of, text_of};
use am_text::{Bytes, escape};
use std::alloc::Global;
use win_ctl::{Shown, Tag, index_line, tag_text};

/// The text of a tag.
pub fn tag(alloc: Global, fields: &str) -> Result<Bytes, Fault> {
    let (flags, fields) = cut(fields)?;
    let (name, right) = cut(fields)?;
    let tag = Tag {
        name: text_of(alloc, name)?,
        right: text_of(alloc, right)?,
    };
    let shown = Shown {
        undo: flags.contains('u'),
        redo: flags.contains('r'),
        modified: flags.contains('m'),
        dir: flags.contains('d'),
    };
    Ok(escape(alloc, tag_text(alloc, &tag, shown)?.as_slice())?)
}

/// A line of `index`.
pub fn index(alloc: Global, fields: &str) -> Result<Bytes, Fault> {
    let (number, fields) = cut(fields)?;
    let (body, fields) = cut(fields)?;
    let (flags, tag) = cut(fields)?;
    let tag = text_of(alloc, tag)?;
    let number = number_of(number)?;
    let body = number_of(body)?;
    let line = index_line(
        alloc,
        number,
        &tag,
        body,
        flags.contains('d'),
        flags.contains('m'),
    )?;
    in_one_line(alloc, line.as_slice())
}
