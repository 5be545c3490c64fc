//! Walks.

ghost use Rattle.std.specs.Prelude.{◌≡◌, ◌==◌, ◌≤◌, ◌^◌, [], find, length, position};
ghost use Rattle.std.specs.Fmt.{decimal};
ghost use Rattle.std.specs.Option.{option_map};
ghost use Rattle.std.specs.Str.{bytes_eq};
ghost use Rattle.acme_tree.specs.Trees.{plumber_entries, root_entries, root_front};
ghost use Rattle.acme_tree.specs.Walks.{above, below, entry_named, file_named, named_in, to_entry, to_new, walk_one};

use crate::entries::numbered_ports;
use crate::node::{Node, WinFile, World, is_dir, is_live, world_is_full};
use am_text::{Bytes, read_decimal};

/// Where one name of a walk leads.
#[derive(Clone, Copy, Debug, PartialEq, Eq)]
pub enum Step {
    /// To this node.
    Found(Node),
    /// To this file of a window that is to be made.
    Make(WinFile),
    /// `file not found`: the directory has no such entry.
    NotFound,
    /// `not a directory`: the name is walked from a file.
    NotDir,
    /// `window deleted`: the directory is that of a deleted window.
    Deleted,
    /// `too many windows`: no further window can be made.
    Windows,
}

#[tactic(auto, unfolding(crate::specs::Walks::file_named))]
fn file_named(name: &[u8]) -> Option<WinFile>
    ensures { result ≡ file_named name.now }
{
    if name == b"addr".as_slice() {
        Some(WinFile::Addr)
    } else if name == b"body".as_slice() {
        Some(WinFile::Body)
    } else if name == b"ctl".as_slice() {
        Some(WinFile::Ctl)
    } else if name == b"data".as_slice() {
        Some(WinFile::Data)
    } else if name == b"errors".as_slice() {
        Some(WinFile::Errors)
    } else if name == b"event".as_slice() {
        Some(WinFile::Event)
    } else if name == b"tag".as_slice() {
        Some(WinFile::Tag)
    } else if name == b"xdata".as_slice() {
        Some(WinFile::Xdata)
    } else {
        None
    }
}

/// The first of the windows whose number is this.
fn numbered(windows: &[u32], number: u64) -> Option<u32>
    ensures { result ≡ find (λ w. w == number) windows.now }
{
    windows.iter().copied().find(|w| u64::from(*w) == number)
}

/// The window whose decimal the name is.
fn window_named(windows: &[u32], name: &[u8]) -> Option<u32>
    ensures { result ≡ find (λ w. bytes_eq name.now (decimal w)) windows.now }
{
    match read_decimal(name) {
        Some(number) => numbered(windows, number),
        None => None,
    }
}

/// The number of the port of this name.
#[tactic(auto, using(crate::proofs::Named::positions))]
fn port_named(ports: &[Bytes], name: &[u8]) -> Option<u32>
    requires { length ports.now ≤ 2 ^ 32 }
    ensures { result ≡ position (λ port. bytes_eq name.now port) ports.now }
{
    for (k, port) in ports.iter().enumerate() {
        if name == port.as_slice() {
            return Some(k as u32);
        }
    }
    None
}

fn to_window(found: Option<u32>) -> Option<Node>
    ensures { result ≡ option_map Node.Window found }
{
    found.map(Node::Window)
}

fn to_port(found: Option<u32>) -> Option<Node>
    ensures { result ≡ option_map Node.Port found }
{
    found.map(Node::Port)
}

// The file of this name in the front of the root.
fn in_front(watched: bool, name: &[u8]) -> Option<Node>
    ensures { result ≡ named_in [] (root_front watched) name.now }
{
    if name == b"cons".as_slice() {
        Some(Node::Cons)
    } else if name == b"consctl".as_slice() {
        Some(Node::ConsCtl)
    } else if name == b"index".as_slice() {
        Some(Node::Index)
    } else if watched && name == b"jobs".as_slice() {
        Some(Node::Jobs)
    } else if name == b"label".as_slice() {
        Some(Node::Label)
    } else if watched && name == b"log".as_slice() {
        Some(Node::Log)
    } else if name == b"new".as_slice() {
        Some(Node::NewDir)
    } else {
        None
    }
}

#[tactic(auto, using(crate::proofs::Named::rooted))]
fn in_root(world: &World, name: &[u8]) -> Option<Node>
    ensures { result ≡ named_in [] (root_entries world.now) name.now }
{
    match in_front(world.watched, name) {
        Some(node) => Some(node),
        None => to_window(window_named(world.windows.as_slice(), name)),
    }
}

fn in_plumber(ports: &[Bytes], name: &[u8]) -> Option<Node>
    ensures { result ≡ named_in ports.now (plumber_entries ports.now) name.now }
{
    if name == b"send".as_slice() {
        Some(Node::Send)
    } else if name == b"rules".as_slice() {
        Some(Node::Rules)
    } else {
        to_port(port_named(numbered_ports(ports), name))
    }
}

#[tactic(auto, unfolding(crate::specs::Trees::entries, crate::specs::Walks::entry_named, crate::specs::Walks::file_named))]
fn entry_named(world: &World, ports: &[Bytes], dir: Node, name: &[u8]) -> Option<Node>
    ensures { result ≡ entry_named world.now ports.now dir name.now }
{
    match dir {
        Node::Root => in_root(world, name),
        Node::Window(window) => file_named(name).map(|file| Node::File(window, file)),
        Node::PlumbRoot => in_plumber(ports, name),
        _ => None,
    }
}

fn to_entry(found: Option<Node>) -> Step
    ensures { result ≡ to_entry found }
{
    match found {
        Some(node) => Step::Found(node),
        None => Step::NotFound,
    }
}

fn to_new(world: &World, last: bool, found: Option<WinFile>) -> Step
    ensures { result ≡ to_new world.now last found }
{
    match found {
        Some(file) if last => {
            if world_is_full(world) {
                Step::Windows
            } else {
                Step::Make(file)
            }
        }
        _ => Step::NotFound,
    }
}

fn above(dir: Node) -> Node
    ensures { result ≡ above dir }
{
    match dir {
        Node::PlumbRoot => Node::PlumbRoot,
        _ => Node::Root,
    }
}

fn below(world: &World, ports: &[Bytes], dir: Node, name: &[u8], last: bool) -> Step
    ensures { result ≡ below world.now ports.now dir name.now last }
{
    match dir {
        Node::NewDir => to_new(world, last, file_named(name)),
        _ => to_entry(entry_named(world, ports, dir, name)),
    }
}

/// Where a name leads from a node. The ports are their names, in the order in which they were first seen. `last` says
/// whether it is the last name of its walk: only as such a window's file is found in `new`.
///
/// It takes no memory.
#[tactic(auto, unfolding(crate::specs::Walks::walk_one))]
pub fn walk_one(world: &World, ports: &[Bytes], from: Node, name: &[u8], last: bool) -> Step
    ensures { result ≡ walk_one world.now ports.now from name.now last }
{
    if !is_dir(from) {
        return Step::NotDir;
    }
    if !is_live(world, ports, from) {
        return Step::Deleted;
    }
    if name == b"..".as_slice() {
        return Step::Found(above(from));
    }
    below(world, ports, from, name, last)
}
