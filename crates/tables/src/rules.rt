//! The plumber's rules, and the routes of messages.
//!
//! | line | answer |
//! |---|---|
//! | `rules` FILES MESSAGE RULES | where the message goes |
//! | `bytes` FILES MESSAGE RULES | the same, where each rune of the message, here and in the answer, is a byte |
//! | `sets` RULES | `SETS VARS`, how many sets and variables there are; the variables are known to the lines after it |
//!
//! The files are paths with a blank after each, and a path with a `/` at its end is a directory.
//!
//! | where a message goes | is |
//! |---|---|
//! | `PORT`, `WAY`, `MESSAGE`, with one tab between | where the message goes, and the message, escaped |
//! | `none` | it goes nowhere |
//! | `bad LINE`, `nodes` | why the text isn't rules |
//!
//! PORT is `-` where there is none. WAY is `port`, or `start` or `client` and the command.

use crate::fault::Fault;
use crate::fields::{cut_twice, put, says, text_of};
use am_text::{Bytes, Rune, Runes, decode_whole, encode};
use name_tree::{Tree, TreeFault};
use plumb_msg::{PlumbMsg, PlumbRead, can_spell, read_msg, write_msg};
use plumb_rules::{Route, RuleFault, RuleSets, Vars, Way, parse_rules, route};
use std::alloc::Global;

/// How the bytes of a message stand in a line.
#[derive(Clone, Copy)]
pub enum Coding {
    /// As the text whose UTF-8 they are.
    Utf8,
    /// As a rune each.
    Bytes,
}

impl From<RuleFault> for Fault {
    fn from(fault: RuleFault) -> Fault {
        match fault {
            RuleFault::Bad(number) => Fault::Bad(number),
            RuleFault::Nodes => Fault::Says("nodes"),
            RuleFault::NoMemory => Fault::NoMemory,
        }
    }
}

fn put_path(tree: &mut Tree, path: &str) -> Result<(), TreeFault> {
    match path.strip_suffix('/') {
        Some(dir) => tree.dir(dir.as_bytes()),
        None => tree.file(path.as_bytes(), b""),
    }
}

fn tree_of(alloc: Global, field: &str) -> Result<Tree, Fault> {
    let mut tree = Tree::new(alloc);
    for path in field.split_terminator(' ') {
        put_path(&mut tree, path)?;
    }
    Ok(tree)
}

fn narrowed(alloc: Global, runes: &[Rune]) -> Result<Bytes, Fault> {
    let mut bytes = Bytes::new(alloc);
    for rune in runes {
        match u8::try_from(*rune) {
            Ok(byte) => bytes.push(byte)?,
            Err(_) => return Err(Fault::NoCase),
        }
    }
    Ok(bytes)
}

fn widened(alloc: Global, bytes: &[u8]) -> Result<Runes, Fault> {
    let mut runes = Runes::new(alloc);
    for byte in bytes {
        runes.push(Rune::from(*byte))?;
    }
    Ok(runes)
}

fn bytes_of(alloc: Global, field: &str, coding: Coding) -> Result<Bytes, Fault> {
    let text = text_of(alloc, field)?;
    match coding {
        Coding::Utf8 => Ok(encode(alloc, &text)?),
        Coding::Bytes => narrowed(alloc, text.as_slice()),
    }
}

fn runes_of(alloc: Global, bytes: &[u8], coding: Coding) -> Result<Runes, Fault> {
    match coding {
        Coding::Utf8 => Ok(decode_whole(alloc, bytes)?),
        Coding::Bytes => widened(alloc, bytes),
    }
}

fn msg_of(alloc: Global, field: &str, coding: Coding) -> Result<PlumbMsg, Fault> {
    let bytes = bytes_of(alloc, field, coding)?;
    match read_msg(alloc, bytes.as_slice())? {
        PlumbRead::Whole(msg, used) if used == bytes.len() => Ok(msg),
        _ => Err(Fault::NoCase),
    }
}

fn rules_of(alloc: Global, field: &str, known: &Vars) -> Result<(RuleSets, Vars), Fault> {
    let text = bytes_of(alloc, field, Coding::Utf8)?;
    Ok(parse_rules(alloc, text.as_slice(), known)?)
}

// An answer that begins with the port and the way.
fn way_line(alloc: Global, found: &Route) -> Result<Vec<u8>, Fault> {
    let mut line = match &found.port {
        Some(port) => port.as_slice().to_vec(alloc)?,
        None => says(alloc, "-")?,
    };
    match &found.way {
        Way::Port => put(alloc, &mut line, "\tport", &[])?,
        Way::Start(text) => put(alloc, &mut line, "\tstart ", text.as_slice())?,
        Way::Client(text) => put(alloc, &mut line, "\tclient ", text.as_slice())?,
    }
    Ok(line)
}

fn route_line(alloc: Global, found: &Route, coding: Coding) -> Result<Vec<u8>, Fault> {
    if !can_spell(alloc, &found.msg)? {
        return says(alloc, "not spelled");
    }
    let msg = write_msg(alloc, &found.msg)?;
    let mut line = way_line(alloc, found)?;
    let text = runes_of(alloc, msg.as_slice(), coding)?;
    put(alloc, &mut line, "\t", text.as_slice())?;
    Ok(line)
}

/// Where a message goes.
pub fn routed(alloc: Global, known: &Vars, case: &str, coding: Coding) -> Result<Vec<u8>, Fault> {
    let (files, msg, rules) = cut_twice(case)?;
    let msg = msg_of(alloc, msg, coding)?;
    let (sets, _) = rules_of(alloc, rules, known)?;
    let tree = tree_of(alloc, files)?;
    match route(alloc, &sets, &msg, &tree)? {
        Some(found) => route_line(alloc, &found, coding),
        None => says(alloc, "none"),
    }
}

/// How many sets and variables there are.
pub fn counted(alloc: Global, known: &mut Vars, field: &str) -> Result<Vec<u8>, Fault> {
    let (sets, vars) = rules_of(alloc, field, known)?;
    let line = format!(in alloc; "{} {}", sets.len(), vars.len())?;
    *known = vars;
    Ok(line.into_bytes())
}
