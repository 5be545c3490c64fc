//! Fids: which numbers may be given, and what a message makes of a fid.

ghost use Rattle.std.specs.Prelude.{◌≡◌, ◌+◌, ◌≤◌, IfOk, length};
ghost use Rattle.am_text.specs.Part.{part_bytes};
ghost use Rattle.core_fids.specs.Limits.{max_fids};
ghost use Rattle.core_fids.specs.Servers.{tables_in};
ghost use Rattle.core_fids.specs.Fids.{is_used, fids_full, fresh, is_open, is_for_reading, is_for_writing};
ghost use Rattle.core_fids.specs.Fids.{event_opening, port_opening, opened_fid, fid_with_part, held_with, emptied_fid};
ghost use Rattle.core_fids.specs.Fids.{is_rules, holds_rules, opening_on, placed_fid, watch_opening};

use crate::directory::DirPart;
use crate::effect::WatchOpening;
use crate::server::Server;
use acme_tree::{Node, WinFile};
use acme_watch::WatchFile;
use am_journal::Format;
use am_text::{NoMemory, Part};
use fid_table::{Fid, Held};
use std::alloc::Global;

/// The bits of a mode that say how a file is used, and what they are for reading alone and for writing alone (open(5)).
const HOW: u8 = 3;

const FOR_READING: u8 = 0;

const FOR_WRITING: u8 = 1;

// The most fids that a connection may have.
fn max_fids(format: Format) -> usize
    ensures { result ≡ max_fids format }
{
    match format {
        Format::One => 1024,
        Format::Two => 16_384,
    }
}

/// Whether the number is in use.
pub(crate) fn is_used(server: &Server, number: u32) -> bool
    ensures { result ≡ is_used (tables_in server.now) server.now.conn number }
{
    server.sessions.fid(server.conn, number).is_some()
}

/// Whether the connection can have no more fids.
pub(crate) fn fids_full(server: &Server) -> bool
    ensures { result ≡ fids_full (tables_in server.now) server.now.conn }
{
    server.sessions.count(server.conn) >= max_fids(server.sessions.format())
}

/// A fid of a node, not opened.
pub(crate) fn fresh(alloc: Global, node: Node) -> Fid
    ensures { result ≡ fresh node }
{
    Fid {
        node,
        mode: None,
        opening: None,
        given: 0,
        skip: 0,
        part: Part::empty(),
        held: Held::new(alloc),
    }
}

/// Whether the fid was opened.
pub(crate) fn is_open(fid: &Fid) -> bool
    ensures { result ≡ is_open fid.now }
{
    fid.mode.is_some()
}

/// Whether a file is read with this mode.
pub fn is_for_reading(mode: u8) -> bool
    ensures { result ≡ is_for_reading mode }
{
    mode & HOW != FOR_WRITING
}

/// Whether a file is written with this mode.
pub fn is_for_writing(mode: u8) -> bool
    ensures { result ≡ is_for_writing mode }
{
    mode & HOW != FOR_READING
}

fn is_rules(node: Node) -> bool
    ensures { result ≡ is_rules node }
{
    match node {
        Node::Rules => true,
        _ => false,
    }
}

/// The opening of an event file that the fid is.
pub fn event_opening(fid: &Fid) -> Option<u32>
    ensures { result ≡ event_opening fid.now }
{
    match fid.node {
        Node::File(_, WinFile::Event) => fid.opening,
        _ => None,
    }
}

/// The opening of a port that the fid is.
pub fn port_opening(fid: &Fid) -> Option<u32>
    ensures { result ≡ port_opening fid.now }
{
    match fid.node {
        Node::Port(_) => fid.opening,
        _ => None,
    }
}

fn opening_on(file: WatchFile, opening: Option<u32>) -> Option<WatchOpening>
    ensures { result ≡ opening_on file opening }
{
    match opening {
        Some(opening) => Some(WatchOpening { file, opening }),
        None => None,
    }
}

/// The opening of `log` or of `jobs` that the fid is.
pub fn watch_opening(fid: &Fid) -> Option<WatchOpening>
    ensures { result ≡ watch_opening fid.now }
{
    match fid.node {
        Node::Log => opening_on(WatchFile::Log, fid.opening),
        Node::Jobs => opening_on(WatchFile::Jobs, fid.opening),
        _ => None,
    }
}

/// Whether the fid is one of `rules`, and what was written to it last isn't added yet.
pub(crate) fn holds_rules(fid: &Fid) -> bool
    ensures { result ≡ holds_rules fid.now }
{
    is_rules(fid.node) && !fid.held.is_empty()
}

/// A fid that is equal.
pub fn copy(alloc: Global, fid: &Fid) -> Result<Fid, NoMemory>
    ensures { IfOk result (λ f. f ≡ fid.now) }
{
    Ok(Fid {
        node: fid.node,
        mode: fid.mode,
        opening: fid.opening,
        given: fid.given,
        skip: fid.skip,
        part: fid.part,
        held: fid.held.copy(alloc)?,
    })
}

/// The fid, opened with a mode, and with the number of its opening of a file whose reads wait, where it is one.
pub(crate) fn opened_fid(
    alloc: Global,
    fid: &Fid,
    mode: u8,
    opening: Option<u32>,
) -> Result<Fid, NoMemory>
    ensures { IfOk result (λ f. f ≡ opened_fid fid.now mode opening) }
{
    Ok(Fid {
        mode: Some(mode),
        opening,
        ..copy(alloc, fid)?
    })
}

/// The fid with the bytes of a rune that a write left unfinished.
pub fn fid_with_part(alloc: Global, fid: &Fid, part: Part) -> Result<Fid, NoMemory>
    ensures { IfOk result (λ f. f ≡ fid_with_part fid.now part) }
{
    Ok(Fid {
        part,
        ..copy(alloc, fid)?
    })
}

/// What the fid holds, with these bytes behind it.
pub fn held_with(alloc: Global, fid: &Fid, bytes: &[u8]) -> Result<Held, NoMemory>
    ensures { IfOk result (λ text. text ≡ held_with fid.now bytes.now) }
{
    fid.held.with(alloc, bytes)
}

/// The fid that holds nothing.
pub fn emptied_fid(alloc: Global, fid: &Fid) -> Fid
    ensures { result ≡ emptied_fid fid.now }
{
    Fid {
        node: fid.node,
        mode: fid.mode,
        opening: fid.opening,
        given: fid.given,
        skip: fid.skip,
        part: fid.part,
        held: Held::new(alloc),
    }
}

/// The fid after a read of its directory at an offset, behind `skip` records, which gave this part.
pub(crate) fn placed_fid(
    alloc: Global,
    fid: &Fid,
    offset: u64,
    skip: usize,
    part: &DirPart,
) -> Result<Fid, NoMemory>
    ensures { IfOk result (λ f. f ≡ placed_fid fid.now (offset + length part.now.bytes) (skip + part.now.count)) }
{
    Ok(Fid {
        given: offset.saturating_add(part.bytes.len() as u64),
        skip: skip.saturating_add(part.count),
        ..copy(alloc, fid)?
    })
}

/// The part as one of three bytes at most, which holds the same bytes.
pub fn at_most_three(part: Part) -> Part
    ensures bytes { part_bytes result ≡ part_bytes part }
    ensures few { result.count ≤ 3 }
{
    if part.count <= 3 {
        part
    } else {
        Part { count: 3, ..part }
    }
}
