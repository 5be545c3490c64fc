//! The nodes of the trees.

ghost use Rattle.std.specs.Prelude.{◌≡◌};
ghost use Rattle.acme_tree.specs.Trees.{is_dir, world_is_full, is_live, is_window};

use am_text::{Bytes, Ids};

/// The most windows that may be live.
const MAX_WINDOWS: usize = 4096;

/// The number that no window gets.
const NEVER_GIVEN: u32 = 0xFFFF_FFFF;

/// A file of a window's directory.
#[derive(Clone, Copy, Debug, PartialEq, Eq)]
pub enum WinFile {
    Addr,
    Body,
    Ctl,
    Data,
    Errors,
    Event,
    Tag,
    Xdata,
}

/// A node of the editor's tree, whose root is `Root`, or of the plumber's, whose root is `PlumbRoot`.
#[derive(Clone, Copy, Debug, PartialEq, Eq)]
pub enum Node {
    Root,
    Cons,
    ConsCtl,
    Index,
    /// The file `jobs`: requests, which programs take and answer.
    Jobs,
    Label,
    /// The file `log`: what happens to windows.
    Log,
    /// The directory `new`, in which a walk makes a window.
    NewDir,
    /// The directory of a window.
    Window(u32),
    /// A file of a window.
    File(u32, WinFile),
    PlumbRoot,
    Send,
    Rules,
    /// The port of this number, counted from 0 in the order in which the ports were first seen.
    Port(u32),
}

/// What the editor's tree has at a moment.
#[derive(Drop)]
pub struct World {
    /// The numbers of the live windows, rising.
    pub windows: Ids,
    /// The number that the next window gets.
    pub next: u32,
    /// Whether the root has the files `log` and `jobs`.
    pub watched: bool,
}

/// Whether the node is a directory.
pub fn is_dir(node: Node) -> bool
    ensures { result ≡ is_dir node }
{
    match node {
        Node::Root | Node::NewDir | Node::Window(_) | Node::PlumbRoot => true,
        _ => false,
    }
}

fn is_window(world: &World, window: u32) -> bool
    ensures { result ≡ is_window world.now window }
{
    world.windows.as_slice().contains(&window)
}

/// Whether the node is there: its window is live, or it is one of the ports, whose names these are, in the order in
/// which they were first seen. All else is always there.
pub fn is_live(world: &World, ports: &[Bytes], node: Node) -> bool
    ensures { result ≡ is_live world.now ports.now node }
{
    match node {
        Node::Window(window) => is_window(world, window),
        Node::File(window, _) => is_window(world, window),
        Node::Port(port) => (port as usize) < ports.len(),
        _ => true,
    }
}

/// Whether no window can be made: 4,096 are live, or the next number is the one that is never given.
pub fn world_is_full(world: &World) -> bool
    ensures { result ≡ world_is_full world.now }
{
    MAX_WINDOWS <= world.windows.len() || world.next == NEVER_GIVEN
}
