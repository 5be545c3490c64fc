//! What a node's stat says, and what a directory lists.

ghost use Rattle.std.specs.Prelude.{◌≡◌, All, IfOk, map, true};
ghost use Rattle.ninep_frame.specs.Records.{HasName, IsName};
ghost use Rattle.acme_tree.specs.Trees.{IsNamed, entries, file_kind, file_mode, file_number, is_dir, is_live, kind_of};
ghost use Rattle.acme_tree.specs.Trees.{mode_of, path_of, qid_of, stat_of};

use crate::entries::entries;
use crate::modes::{APPEND_KIND, APPEND_MODE, DIR_KIND, DIR_MODE, READS, READS_AND_WRITES, WRITES};
use crate::names::name_of;
use crate::node::{Node, WinFile, World};
use am_text::{Bytes, Items, NoMemory};
use ninep_frame::{Stat, Stats};
use ninep_types::Qid;
use std::alloc::Global;

/// How far the paths of two windows with numbers side by side lie apart.
const WINDOW_PATHS: u64 = 256;

/// The path of the first port.
const FIRST_PORT_PATH: u64 = 1 << 40;

fn file_mode(file: WinFile) -> u32
    ensures { result ≡ file_mode file }
{
    match file {
        WinFile::Body | WinFile::Tag => APPEND_MODE,
        WinFile::Errors => WRITES,
        _ => READS_AND_WRITES,
    }
}

pub(crate) fn mode_of(node: Node) -> u32
    ensures { result ≡ mode_of node }
{
    match node {
        Node::Root | Node::NewDir | Node::Window(_) | Node::PlumbRoot => DIR_MODE,
        Node::Cons | Node::Jobs | Node::Label | Node::Rules => READS_AND_WRITES,
        Node::ConsCtl | Node::Index | Node::Log | Node::Port(_) => READS,
        Node::Send => WRITES,
        Node::File(_, file) => file_mode(file),
    }
}

fn file_number(file: WinFile) -> u64
    ensures { result ≡ file_number file }
{
    match file {
        WinFile::Addr => 1,
        WinFile::Body => 2,
        WinFile::Ctl => 3,
        WinFile::Data => 4,
        WinFile::Errors => 5,
        WinFile::Event => 6,
        WinFile::Tag => 7,
        WinFile::Xdata => 8,
    }
}

fn path_of(node: Node) -> u64
    ensures { result ≡ path_of node }
{
    match node {
        Node::Root => 0,
        Node::Cons => 1,
        Node::ConsCtl => 2,
        Node::Index => 3,
        Node::Label => 4,
        Node::NewDir => 5,
        Node::Log => 6,
        Node::Jobs => 7,
        Node::Window(window) => u64::from(window) * WINDOW_PATHS,
        Node::File(window, file) => u64::from(window) * WINDOW_PATHS + file_number(file),
        Node::PlumbRoot => 16,
        Node::Send => 17,
        Node::Rules => 18,
        Node::Port(port) => FIRST_PORT_PATH + u64::from(port),
    }
}

fn file_kind(file: WinFile) -> u8
    ensures { result ≡ file_kind file }
{
    match file {
        WinFile::Body | WinFile::Tag => APPEND_KIND,
        _ => 0,
    }
}

fn kind_of(node: Node) -> u8
    ensures { result ≡ kind_of node }
{
    match node {
        Node::Root | Node::NewDir | Node::Window(_) | Node::PlumbRoot => DIR_KIND,
        Node::File(_, file) => file_kind(file),
        _ => 0,
    }
}

/// The qid of a node.
#[tactic(auto, unfolding(crate::specs::Trees::qid_of))]
pub fn qid_of(node: Node) -> Qid
    ensures { result ≡ qid_of node }
{
    Qid {
        kind: kind_of(node),
        vers: 0,
        path: path_of(node),
    }
}

/// The stat of a node. The ports are their names, in the order in which they were first seen.
#[tactic(auto, unfolding(crate::specs::Trees::stat_of))]
pub fn stat_of(alloc: Global, ports: &[Bytes], node: Node) -> Result<Stat, NoMemory>
    requires { IsNamed ports.now node }
    ensures exact { IfOk result (λ stat. stat ≡ stat_of ports.now node) }
    // It has a record.
    ensures named { All IsName ports.now → IfOk result HasName }
{
    Ok(Stat {
        qid: qid_of(node),
        mode: mode_of(node),
        length: 0,
        name: name_of(alloc, ports, node)?,
    })
}

fn stats_of(alloc: Global, ports: &[Bytes], nodes: &[Node]) -> Result<Stats, NoMemory>
    requires { All (IsNamed ports.now) nodes.now }
    ensures exact { IfOk result (λ stats. stats ≡ map (stat_of ports.now) nodes.now) }
    ensures named { All IsName ports.now → IfOk result (All HasName) }
{
    let mut stats = Items::new(alloc);
    for node in nodes {
        stats.push(stat_of(alloc, ports, *node)?)?;
    }
    Ok(stats)
}

/// The stats of what a live directory lists, in order.
#[tactic(auto, using(crate::proofs::Live::entries_named))]
pub fn children(
    alloc: Global,
    world: &World,
    ports: &[Bytes],
    node: Node,
) -> Result<Stats, NoMemory>
    requires live { is_live world.now ports.now node ≡ true }
    requires dir { is_dir node ≡ true }
    ensures exact { IfOk result (λ stats. stats ≡ map (stat_of ports.now) (entries world.now ports.now node)) }
    // Each has a record.
    ensures named { All IsName ports.now → IfOk result (All HasName) }
{
    let nodes = entries(alloc, world, ports, node)?;
    stats_of(alloc, ports, nodes.as_slice())
}
