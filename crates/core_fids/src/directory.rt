//! The records of directories.

ghost use Rattle.std.specs.Prelude.{◌≡◌, ◌+◌, ◌<◌, ◌≤◌, ◌^◌, All, IfOk, IfSome, drop, false, length, map, slice_get};
ghost use Rattle.std.specs.Prelude.{take, true};
ghost use Rattle.ninep_frame.specs.Records.{IsName};
ghost use Rattle.ninep_frame.specs.Directories.{records};
ghost use Rattle.acme_tree.specs.Trees.{entries, files, plumber_entries, ports_from, root_entries, root_front};
ghost use Rattle.core_fids.specs.Directories.{dir_part, first_record, plumber_front};

use acme_tree::{Node, WinFile, World, stat_of};
use am_text::{Bytes, Items, NoMemory};
use ninep_frame::stat_write;
use std::alloc::Global;

/// Whole records of a directory: their bytes, and how many they are.
#[derive(Drop)]
pub struct DirPart {
    pub bytes: Bytes,
    pub count: usize,
}

/// How many ports have a number: it has 32 bits.
const PORTS: usize = 1 << 32;

fn file_at(window: u32, k: usize) -> Option<Node>
    ensures exact { result ≡ slice_get (map (Node.File window) files) k }
    ensures within { IfSome result (λ n. k < 8) }
{
    let file = match k {
        0 => WinFile::Addr,
        1 => WinFile::Body,
        2 => WinFile::Ctl,
        3 => WinFile::Data,
        4 => WinFile::Errors,
        5 => WinFile::Event,
        6 => WinFile::Tag,
        7 => WinFile::Xdata,
        _ => return None,
    };
    Some(Node::File(window, file))
}

fn plain_in_root(k: usize) -> Option<Node>
    ensures exact { result ≡ slice_get (root_front false) k }
    ensures within { IfSome result (λ n. k < 5) }
{
    match k {
        0 => Some(Node::Cons),
        1 => Some(Node::ConsCtl),
        2 => Some(Node::Index),
        3 => Some(Node::Label),
        4 => Some(Node::NewDir),
        _ => None,
    }
}

fn watched_in_root(k: usize) -> Option<Node>
    ensures exact { result ≡ slice_get (root_front true) k }
    ensures within { IfSome result (λ n. k < 7) }
{
    match k {
        0 => Some(Node::Cons),
        1 => Some(Node::ConsCtl),
        2 => Some(Node::Index),
        3 => Some(Node::Jobs),
        4 => Some(Node::Label),
        5 => Some(Node::Log),
        6 => Some(Node::NewDir),
        _ => None,
    }
}

fn fixed_in_root(watched: bool, k: usize) -> Option<Node>
    ensures exact { result ≡ slice_get (root_front watched) k }
    ensures within { IfSome result (λ n. k < 7) }
{
    if watched {
        watched_in_root(k)
    } else {
        plain_in_root(k)
    }
}

// How many nodes the root has before its windows.
fn fixed_count(watched: bool) -> usize
    ensures exact { result ≡ length (root_front watched) }
    ensures few { result ≤ 7 }
{
    if watched { 7 } else { 5 }
}

#[tactic(auto, using(crate::proofs::Entries::placed))]
fn window_at(windows: &[u32], k: usize) -> Option<Node>
    ensures exact { result ≡ slice_get (map Node.Window windows.now) k }
    ensures within { IfSome result (λ n. k + 8 < 2 ^ 64) }
{
    // law: the windows are fewer than 2^64, known once their number is asked
    let _len = windows.len();
    match windows.get(k) {
        Some(window) => Some(Node::Window(*window)),
        None => None,
    }
}

#[tactic(auto, using(crate::proofs::Entries::placed))]
fn in_root(world: &World, k: usize) -> Option<Node>
    ensures exact { result ≡ slice_get (root_entries world.now) k }
    ensures within { IfSome result (λ n. k + 1 < 2 ^ 64) }
{
    let fixed = fixed_count(world.watched);
    if k < fixed {
        fixed_in_root(world.watched, k)
    } else {
        window_at(world.windows.as_slice(), k - fixed)
    }
}

fn fixed_in_plumber(k: usize) -> Option<Node>
    ensures exact { result ≡ slice_get plumber_front k }
    ensures within { IfSome result (λ n. k < 2) }
{
    match k {
        0 => Some(Node::Send),
        1 => Some(Node::Rules),
        _ => None,
    }
}

#[tactic(auto, using(crate::proofs::Entries::placed))]
fn port_at(ports: &[Bytes], k: usize) -> Option<Node>
    ensures exact { result ≡ slice_get (ports_from 0 (take (2 ^ 32) ports.now)) k }
    ensures within { IfSome result (λ n. k < 2 ^ 32) }
{
    if k < ports.len().min(PORTS) {
        Some(Node::Port(k as u32))
    } else {
        None
    }
}

#[tactic(auto, using(crate::proofs::Entries::placed))]
fn in_plumber(ports: &[Bytes], k: usize) -> Option<Node>
    ensures exact { result ≡ slice_get (plumber_entries ports.now) k }
    ensures within { IfSome result (λ n. k + 1 < 2 ^ 64) }
{
    if k < 2 {
        fixed_in_plumber(k)
    } else {
        port_at(ports, k - 2)
    }
}

/// The entry of a directory at a place, from 0.
#[tactic(auto, using(crate::proofs::Entries::placed), unfolding(acme_tree::specs::Trees::entries))]
fn entry_at(world: &World, ports: &[Bytes], dir: Node, k: usize) -> Option<Node>
    ensures exact { result ≡ slice_get (entries world.now ports.now dir) k }
    ensures within { IfSome result (λ n. k + 1 < 2 ^ 64) }
{
    match dir {
        Node::Root => in_root(world, k),
        Node::Window(window) => file_at(window, k),
        Node::PlumbRoot => in_plumber(ports, k),
        _ => None,
    }
}

// The next record of a directory, if there is one that fits.
#[tactic(auto, using(crate::proofs::Parted::next))]
fn next_record(
    alloc: Global,
    world: &World,
    ports: &[Bytes],
    dir: Node,
    at: usize,
    room: usize,
) -> Result<Option<Bytes>, NoMemory>
    requires { All IsName ports.now }
    ensures exact { IfOk result (λ r. r ≡ first_record (dir_part world.now ports.now dir at room)) }
    ensures within { IfOk result (λ r. IfSome r (λ bytes. at + 1 < 2 ^ 64)) }
{
    let Some(node) = entry_at(world, ports, dir, at) else {
        return Ok(None);
    };
    let stat = stat_of(alloc, ports, node)?;
    let record = stat_write(alloc, &stat)?;
    if record.len() > room {
        return Ok(None);
    }
    Ok(Some(record))
}

/// The records of a directory after the first `skip`, as many whole ones as fit into `count` bytes. It looks at
/// those alone, and at one more.
#[tactic(auto, using(crate::proofs::Parted::parts))]
pub(crate) fn dir_part(
    alloc: Global,
    world: &World,
    ports: &[Bytes],
    dir: Node,
    skip: usize,
    count: u32,
) -> Result<DirPart, NoMemory>
    requires { All IsName ports.now }
    ensures bytes { IfOk result (λ part. part.bytes ≡ records (dir_part world.now ports.now dir skip count)) }
    ensures given { IfOk result (λ part. part.count ≡ length (dir_part world.now ports.now dir skip count)) }
    ensures few { IfOk result (λ part. length part.bytes ≤ count) }
{
    let mut bytes = Items::new(alloc);
    let mut at = skip;
    while let Some(record) = next_record(
        alloc,
        world,
        ports,
        dir,
        at,
        count as usize - bytes.len(),
    )? {
        bytes.append(record.as_slice())?;
        at += 1;
    }
    Ok(DirPart {
        bytes,
        count: at - skip,
    })
}
