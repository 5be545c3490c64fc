//! The nodes that a directory lists.

ghost use Rattle.std.specs.Prelude.{◌≡◌, ◌≤◌, ◌^◌, ◌++◌, IfOk, OnOk, length, map, take};
ghost use Rattle.acme_tree.specs.Trees.{entries, files, plumber_entries, ports_from, root_entries, root_front};

use crate::node::{Node, WinFile, World};
use am_text::{Bytes, Items, NoMemory};
use std::alloc::Global;

/// How many ports have a number: it has 32 bits.
const PORTS: usize = 1 << 32;

#[tactic(auto, using(crate::proofs::Listed::steps))]
fn put_windows(nodes: &mut Items<Node>, windows: &[u32]) -> Result<(), NoMemory>
    ensures { OnOk result (nodes.new ≡ nodes.old ++ map Node.Window windows.now) }
{
    for window in windows {
        nodes.push(Node::Window(*window))?;
    }
    Ok(())
}

#[tactic(auto, using(crate::proofs::Listed::steps))]
fn put_ports(nodes: &mut Items<Node>, ports: &[Bytes]) -> Result<(), NoMemory>
    requires { length ports.now ≤ 2 ^ 32 }
    ensures { OnOk result (nodes.new ≡ nodes.old ++ ports_from 0 ports.now) }
{
    for k in 0..ports.len() {
        nodes.push(Node::Port(k as u32))?;
    }
    Ok(())
}

/// The ports that have a number.
pub(crate) fn numbered_ports(ports: &[Bytes]) -> &[Bytes]
    ensures ports { result.now ≡ take (2 ^ 32) ports.now }
    ensures len { length result.now ≤ 2 ^ 32 }
{
    let (numbered, _) = ports.split_at(ports.len().min(PORTS));
    numbered
}

fn front_of_root(alloc: Global, watched: bool) -> Result<Items<Node>, NoMemory>
    ensures { IfOk result (λ nodes. nodes ≡ root_front watched) }
{
    let plain = [
        Node::Cons,
        Node::ConsCtl,
        Node::Index,
        Node::Label,
        Node::NewDir,
    ];
    let all = [
        Node::Cons,
        Node::ConsCtl,
        Node::Index,
        Node::Jobs,
        Node::Label,
        Node::Log,
        Node::NewDir,
    ];
    if watched {
        Items::copied(alloc, &all)
    } else {
        Items::copied(alloc, &plain)
    }
}

fn of_root(alloc: Global, world: &World) -> Result<Items<Node>, NoMemory>
    ensures { IfOk result (λ nodes. nodes ≡ root_entries world.now) }
{
    let mut nodes = front_of_root(alloc, world.watched)?;
    put_windows(&mut nodes, world.windows.as_slice())?;
    Ok(nodes)
}

fn of_window(alloc: Global, window: u32) -> Result<Items<Node>, NoMemory>
    ensures { IfOk result (λ nodes. nodes ≡ map (Node.File window) files) }
{
    let fixed = [
        Node::File(window, WinFile::Addr),
        Node::File(window, WinFile::Body),
        Node::File(window, WinFile::Ctl),
        Node::File(window, WinFile::Data),
        Node::File(window, WinFile::Errors),
        Node::File(window, WinFile::Event),
        Node::File(window, WinFile::Tag),
        Node::File(window, WinFile::Xdata),
    ];
    Items::copied(alloc, &fixed)
}

fn of_plumber(alloc: Global, ports: &[Bytes]) -> Result<Items<Node>, NoMemory>
    ensures { IfOk result (λ nodes. nodes ≡ plumber_entries ports.now) }
{
    let mut nodes = Items::copied(alloc, &[Node::Send, Node::Rules])?;
    put_ports(&mut nodes, numbered_ports(ports))?;
    Ok(nodes)
}

/// The nodes that a directory lists, in order.
#[tactic(auto, unfolding(crate::specs::Trees::entries))]
pub(crate) fn entries(
    alloc: Global,
    world: &World,
    ports: &[Bytes],
    dir: Node,
) -> Result<Items<Node>, NoMemory>
    ensures { IfOk result (λ nodes. nodes ≡ entries world.now ports.now dir) }
{
    match dir {
        Node::Root => of_root(alloc, world),
        Node::Window(window) => of_window(alloc, window),
        Node::PlumbRoot => of_plumber(alloc, ports),
        _ => Ok(Items::new(alloc)),
    }
}
