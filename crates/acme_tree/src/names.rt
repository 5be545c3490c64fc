//! The names of nodes.

ghost use Rattle.std.specs.Prelude.{◌≡◌, ◌<◌, [], All, IfOk, length, slice_index_or};
ghost use Rattle.ninep_frame.specs.Records.{IsName};
ghost use Rattle.acme_tree.specs.Trees.{file_name, name_of, IsNamed};

use crate::node::{Node, WinFile};
use am_text::{Bytes, Items, NoMemory, decimal};
use std::alloc::Global;

pub(crate) fn file_name(file: WinFile) -> &'static [u8]
    ensures { result.now ≡ file_name file }
{
    match file {
        WinFile::Addr => b"addr",
        WinFile::Body => b"body",
        WinFile::Ctl => b"ctl",
        WinFile::Data => b"data",
        WinFile::Errors => b"errors",
        WinFile::Event => b"event",
        WinFile::Tag => b"tag",
        WinFile::Xdata => b"xdata",
    }
}

#[tactic(auto, using(crate::proofs::Spelled::spelled))]
fn port_name(alloc: Global, ports: &[Bytes], port: u32) -> Result<Bytes, NoMemory>
    requires { port < length ports.now }
    ensures exact { IfOk result (λ name. name ≡ slice_index_or ports.now port []) }
    ensures named { All IsName ports.now → IfOk result IsName }
{
    Items::copied(alloc, ports[port as usize].as_slice())
}

/// The name of a node. Where those of the ports have records, it has one.
#[tactic(auto, using(crate::proofs::Spelled::spelled))]
pub(crate) fn name_of(alloc: Global, ports: &[Bytes], node: Node) -> Result<Bytes, NoMemory>
    requires { IsNamed ports.now node }
    ensures exact { IfOk result (λ name. name ≡ name_of ports.now node) }
    ensures named { All IsName ports.now → IfOk result IsName }
{
    match node {
        Node::Root => Items::copied(alloc, b"acme"),
        Node::Cons => Items::copied(alloc, b"cons"),
        Node::ConsCtl => Items::copied(alloc, b"consctl"),
        Node::Index => Items::copied(alloc, b"index"),
        Node::Jobs => Items::copied(alloc, b"jobs"),
        Node::Label => Items::copied(alloc, b"label"),
        Node::Log => Items::copied(alloc, b"log"),
        Node::NewDir => Items::copied(alloc, b"new"),
        Node::Window(window) => decimal(alloc, u64::from(window)),
        Node::File(_, file) => Items::copied(alloc, file_name(file)),
        Node::PlumbRoot => Items::copied(alloc, b"plumb"),
        Node::Send => Items::copied(alloc, b"send"),
        Node::Rules => Items::copied(alloc, b"rules"),
        Node::Port(port) => port_name(alloc, ports, port),
    }
}
