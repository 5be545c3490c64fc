//! Attributes in one line.

ghost use Rattle.std.specs.Prelude.{◌≡◌, IfOk, is_some};
ghost use Rattle.plumb_msg.specs.Attributes.{is_name_byte, is_special, with_stage, named, name_ended, put, plain};
ghost use Rattle.plumb_msg.specs.Attributes.{attr_of, attrs_with, ended, step_value, step_plain, step_quoted};
ghost use Rattle.plumb_msg.specs.Attributes.{step_closed, step, start, scan, finished, attrs_of, is_attrs_front};

use crate::message::{Attr, Attrs};
use crate::names::NamedAttrs;
use crate::texts::is_text_front;
use am_text::{Bytes, NoMemory, is_utf8};
use std::alloc::Global;

/// Which bytes may come next.
#[derive(Clone, Copy, Debug, PartialEq, Eq)]
pub enum Stage {
    /// A name, or the end: nothing was read.
    Start,
    /// A name: an attribute and a blank were read.
    Next,
    /// The rest of a name, or `=`.
    Name,
    /// A value: the `=` was read.
    Value,
    /// The rest of a value that stands as it is.
    Plain,
    /// The rest of a value in quotes.
    Quoted,
    /// A second quote, or what may follow a value in quotes.
    Closed,
}

/// What was read of a line of attributes: the whole attributes, and the name and the value that are being read.
#[derive(Drop)]
pub struct Scan {
    pub attrs: NamedAttrs,
    pub name: Bytes,
    pub value: Bytes,
    pub stage: Stage,
}

pub(crate) fn is_name_byte(b: u8) -> bool
    ensures { result ≡ is_name_byte b }
{
    b.is_ascii_alphanumeric() || b == b'_'
}

pub(crate) fn is_special(b: u8) -> bool
    ensures { result ≡ is_special b }
{
    b == b' ' || b == b'\t' || b == b'\'' || b == b'='
}

fn with_stage(scan: Scan, stage: Stage) -> Scan
    ensures { result ≡ with_stage scan stage }
{
    let mut scan = scan;
    scan.stage = stage;
    scan
}

fn named(scan: Scan, b: u8) -> Result<Option<Scan>, NoMemory>
    ensures { IfOk result (λ s. s ≡ named scan b) }
{
    if !is_name_byte(b) {
        return Ok(None);
    }
    let mut scan = scan;
    scan.name.push(b)?;
    Ok(Some(with_stage(scan, Stage::Name)))
}

fn name_ended(scan: Scan) -> Option<Scan>
    ensures { result ≡ name_ended scan }
{
    if scan.attrs.has(scan.name.as_slice()) {
        return None;
    }
    Some(with_stage(scan, Stage::Value))
}

fn put(scan: Scan, b: u8, stage: Stage) -> Result<Scan, NoMemory>
    ensures { IfOk result (λ s. s ≡ put scan b stage) }
{
    let mut scan = scan;
    scan.value.push(b)?;
    Ok(with_stage(scan, stage))
}

fn plain(scan: Scan, b: u8) -> Result<Option<Scan>, NoMemory>
    ensures { IfOk result (λ s. s ≡ plain scan b) }
{
    if is_special(b) {
        return Ok(None);
    }
    Ok(Some(put(scan, b, Stage::Plain)?))
}

// The attributes, with the one that was read last.
fn attrs_with(alloc: Global, scan: Scan) -> Result<NamedAttrs, NoMemory>
    ensures { IfOk result (λ attrs. attrs ≡ attrs_with scan) }
{
    let Scan {
        attrs,
        name,
        value,
        ..
    } = scan;
    attrs.with(alloc, Attr { name, value })
}

fn ended(alloc: Global, scan: Scan) -> Result<Scan, NoMemory>
    ensures { IfOk result (λ s. s ≡ ended scan) }
{
    Ok(Scan {
        attrs: attrs_with(alloc, scan)?,
        name: Bytes::new(alloc),
        value: Bytes::new(alloc),
        stage: Stage::Next,
    })
}

fn step_value(alloc: Global, scan: Scan, b: u8) -> Result<Option<Scan>, NoMemory>
    ensures { IfOk result (λ s. s ≡ step_value scan b) }
{
    match b {
        b'\'' => Ok(Some(with_stage(scan, Stage::Quoted))),
        b' ' => Ok(Some(ended(alloc, scan)?)),
        other => plain(scan, other),
    }
}

fn step_plain(alloc: Global, scan: Scan, b: u8) -> Result<Option<Scan>, NoMemory>
    ensures { IfOk result (λ s. s ≡ step_plain scan b) }
{
    match b {
        b' ' => Ok(Some(ended(alloc, scan)?)),
        other => plain(scan, other),
    }
}

fn step_quoted(scan: Scan, b: u8) -> Result<Option<Scan>, NoMemory>
    ensures { IfOk result (λ s. s ≡ step_quoted scan b) }
{
    match b {
        b'\'' => Ok(Some(with_stage(scan, Stage::Closed))),
        other => Ok(Some(put(scan, other, Stage::Quoted)?)),
    }
}

fn step_closed(alloc: Global, scan: Scan, b: u8) -> Result<Option<Scan>, NoMemory>
    ensures { IfOk result (λ s. s ≡ step_closed scan b) }
{
    match b {
        b'\'' => Ok(Some(put(scan, b, Stage::Quoted)?)),
        b' ' => Ok(Some(ended(alloc, scan)?)),
        _ => Ok(None),
    }
}

// What one more byte makes of it. There is nothing where no line goes on so.
fn step(alloc: Global, scan: Scan, b: u8) -> Result<Option<Scan>, NoMemory>
    ensures { IfOk result (λ s. s ≡ step scan b) }
{
    match scan.stage {
        Stage::Start => named(scan, b),
        Stage::Next => named(scan, b),
        Stage::Name => {
            if b == b'=' {
                Ok(name_ended(scan))
            } else {
                named(scan, b)
            }
        }
        Stage::Value => step_value(alloc, scan, b),
        Stage::Plain => step_plain(alloc, scan, b),
        Stage::Quoted => step_quoted(scan, b),
        Stage::Closed => step_closed(alloc, scan, b),
    }
}

/// Nothing was read.
pub(crate) fn start(alloc: Global) -> Scan
    ensures { result ≡ start }
{
    Scan {
        attrs: NamedAttrs::new(alloc),
        name: Bytes::new(alloc),
        value: Bytes::new(alloc),
        stage: Stage::Start,
    }
}

/// All these bytes of a line further, where a line goes on so.
#[tactic(auto, using(crate::proofs::ScanLemmas::scans))]
pub(crate) fn scanned(alloc: Global, from: Scan, bytes: &[u8]) -> Result<Option<Scan>, NoMemory>
    ensures { IfOk result (λ s. s ≡ scan from bytes.now) }
{
    let mut scan = from;
    for b in bytes {
        let Some(next) = step(alloc, scan, *b)? else {
            return Ok(None);
        };
        scan = next;
    }
    Ok(Some(scan))
}

fn finished(alloc: Global, scan: Option<Scan>) -> Result<Option<Attrs>, NoMemory>
    ensures { IfOk result (λ attrs. attrs ≡ finished scan) }
{
    let Some(scan) = scan else {
        return Ok(None);
    };
    match scan.stage {
        Stage::Start => Ok(Some(scan.attrs.into_attrs())),
        Stage::Next => Ok(None),
        Stage::Name => Ok(None),
        Stage::Value => Ok(Some(attrs_with(alloc, scan)?.into_attrs())),
        Stage::Plain => Ok(Some(attrs_with(alloc, scan)?.into_attrs())),
        Stage::Quoted => Ok(None),
        Stage::Closed => Ok(Some(attrs_with(alloc, scan)?.into_attrs())),
    }
}

/// The attributes of a line, where it is one: `name=value` with single blanks between. A value may stand in quotes,
/// with each quote inside twice, and one with a blank, a tab, a quote or `=` has to. Names are letters, digits and `_`,
/// and differ.
pub fn read_attrs(alloc: Global, line: &[u8]) -> Result<Option<Attrs>, NoMemory>
    ensures { IfOk result (λ attrs. attrs ≡ attrs_of line.now) }
{
    if !is_utf8(line) {
        return Ok(None);
    }
    finished(alloc, scanned(alloc, start(alloc), line)?)
}

/// Whether more bytes can make the bytes a line of attributes.
pub(crate) fn is_attrs_front(alloc: Global, bytes: &[u8]) -> Result<bool, NoMemory>
    ensures { IfOk result (λ b. b ≡ is_attrs_front bytes.now) }
{
    if !is_text_front(bytes) {
        return Ok(false);
    }
    Ok(scanned(alloc, start(alloc), bytes)?.is_some())
}
