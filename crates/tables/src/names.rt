//! What Exec and Look read, names made whole, and the tree of files. A line is `names`, a word and its fields.
//!
//! | word | answer |
//! |---|---|
//! | `whole` DIR NAME | the name made whole, escaped |
//! | `classify` TEXT | the built-in command and the range of its argument; `pipe`, `from` or `to` and the range of the
//! command; or `external` |
//! | `exec` AT Q0 Q1 TEXT, `look` likewise | the range of a click at AT where dot is Q0,Q1 (no dot, where Q0 is `-`),
//! or `none` |
//! | `file` PATH TEXT, `dir` PATH | `ok` or `clash` |
//! | `get` PATH | `file` TEXT, `dir` TEXT, or `none` |
//! | `kind` PATH | `file`, `directory` or `none` |
//! | `keep`, `back` | `ok` |

use crate::fault::Fault;
use crate::fields::{cut, cut_twice, kind_word, number_of, put, range_line, says, text_of};
use acme_cmd::{Click, Command, classify, expand, whole};
use am_text::{Range, decode_whole, encode, escape};
use name_tree::{Found, Tree, TreeFault};
use std::alloc::Global;

impl From<TreeFault> for Fault {
    fn from(fault: TreeFault) -> Fault {
        match fault {
            TreeFault::Clash => Fault::Says("clash"),
            TreeFault::NoMemory => Fault::NoMemory,
        }
    }
}

fn whole_name(alloc: Global, fields: &str) -> Result<Vec<u8>, Fault> {
    let (dir, name) = cut(fields)?;
    let dir = text_of(alloc, dir)?;
    let name = text_of(alloc, name)?;
    let made = whole(alloc, dir.as_slice(), name.as_slice())?;
    Ok(escape(alloc, made.as_slice())?.into_vec())
}

fn command(alloc: Global, field: &str) -> Result<Vec<u8>, Fault> {
    let text = text_of(alloc, field)?;
    let line = match classify(text.as_slice()) {
        Command::Builtin(builtin, range) => {
            format!(in alloc; "{builtin:?} {} {}", range.q0, range.q1)?
        }
        Command::Pipe(kind, range) => {
            format!(in alloc; "{} {} {}", kind_word(kind), range.q0, range.q1)?
        }
        Command::External => format!(in alloc; "external")?,
    };
    Ok(line.into_bytes())
}

fn dot_of(q0: &str, q1: &str) -> Result<Option<Range>, Fault> {
    if q0 == "-" {
        return Ok(None);
    }
    Ok(Some(Range {
        q0: number_of(q0)?,
        q1: number_of(q1)?,
    }))
}

fn expansion(alloc: Global, fields: &str, click: Click) -> Result<Vec<u8>, Fault> {
    let (at, q0, fields) = cut_twice(fields)?;
    let (q1, text) = cut(fields)?;
    let at: usize = number_of(at)?;
    let dot = dot_of(q0, q1)?;
    let text = text_of(alloc, text)?;
    if text.len() < at {
        return Err(Fault::NoCase);
    }
    match expand(&text, dot, at, click) {
        Some(range) => range_line(alloc, range),
        None => says(alloc, "none"),
    }
}

fn file(alloc: Global, tree: &mut Tree, fields: &str) -> Result<Vec<u8>, Fault> {
    let (path, text) = cut(fields)?;
    let bytes = encode(alloc, &text_of(alloc, text)?)?;
    tree.file(path.as_bytes(), bytes.as_slice())?;
    says(alloc, "ok")
}

fn directory(alloc: Global, tree: &mut Tree, path: &str) -> Result<Vec<u8>, Fault> {
    tree.dir(path.as_bytes())?;
    says(alloc, "ok")
}

// A word, and the bytes as an escaped text.
fn with_text(alloc: Global, word: &str, bytes: &[u8]) -> Result<Vec<u8>, Fault> {
    let mut line = Vec::new(alloc);
    put(
        alloc,
        &mut line,
        word,
        decode_whole(alloc, bytes)?.as_slice(),
    )?;
    Ok(line)
}

fn found(alloc: Global, tree: &Tree, path: &str) -> Result<Vec<u8>, Fault> {
    match tree.get(path.as_bytes())? {
        Found::File(bytes) => with_text(alloc, "file ", bytes.as_slice()),
        Found::Dir(listing) => with_text(alloc, "dir ", listing.as_slice()),
        Found::None => says(alloc, "none"),
    }
}

fn kind(alloc: Global, tree: &Tree, path: &str) -> Result<Vec<u8>, Fault> {
    let path = path.as_bytes();
    if tree.is_file(path) {
        says(alloc, "file")
    } else if tree.is_directory(path) {
        says(alloc, "directory")
    } else {
        says(alloc, "none")
    }
}

fn with_fields(alloc: Global, tree: &mut Tree, line: &str) -> Result<Vec<u8>, Fault> {
    let (word, fields) = cut(line)?;
    match word {
        "whole" => whole_name(alloc, fields),
        "classify" => command(alloc, fields),
        "exec" => expansion(alloc, fields, Click::Exec),
        "look" => expansion(alloc, fields, Click::Look),
        "file" => file(alloc, tree, fields),
        "dir" => directory(alloc, tree, fields),
        "get" => found(alloc, tree, fields),
        "kind" => kind(alloc, tree, fields),
        _ => Err(Fault::NoCase),
    }
}

/// The answer to a line.
pub fn answer(alloc: Global, tree: &mut Tree, line: &str) -> Result<Vec<u8>, Fault> {
    match line {
        "keep" => tree.keep(),
        "back" => tree.back(),
        _ => return with_fields(alloc, tree, line),
    }
    says(alloc, "ok")
}
