//! How nodes may be opened.

ghost use Rattle.std.specs.Prelude.{◌≡◌};
ghost use Rattle.acme_tree.specs.Access.{is_open_mode, how, truncates, removes, is_readable, is_writable, allows};
ghost use Rattle.acme_tree.specs.Access.{file_allows, is_allowed, may_open};

use crate::listing::mode_of;
use crate::modes::{HOW_BITS, READS, REMOVE_BIT, TRUNCATE_BIT, WRITES};
use crate::node::{Node, is_dir};

/// Whether a node may be opened with a mode.
#[derive(Clone, Copy, Debug, PartialEq, Eq)]
pub enum May {
    Yes,
    /// The mode has a bit that no mode has.
    BadMode,
    /// The node isn't opened in this way.
    Denied,
}

fn is_open_mode(mode: u8) -> bool
    ensures { result ≡ is_open_mode mode }
{
    mode & (HOW_BITS | TRUNCATE_BIT | REMOVE_BIT) == mode
}

/// Whether a mode has the bit 0x10, which empties the file.
pub fn truncates(mode: u8) -> bool
    ensures { result ≡ truncates mode }
{
    mode & TRUNCATE_BIT != 0
}

fn removes(mode: u8) -> bool
    ensures { result ≡ removes mode }
{
    mode & REMOVE_BIT != 0
}

fn is_readable(node: Node) -> bool
    ensures { result ≡ is_readable node }
{
    mode_of(node) & READS != 0
}

fn is_writable(node: Node) -> bool
    ensures { result ≡ is_writable node }
{
    mode_of(node) & WRITES != 0
}

fn allows(node: Node, how: u8) -> bool
    ensures { result ≡ allows node how }
{
    match how {
        0 => is_readable(node),
        1 => is_writable(node),
        2 => is_readable(node) && is_writable(node),
        _ => false,
    }
}

fn file_allows(node: Node, mode: u8) -> bool
    ensures { result ≡ file_allows node mode }
{
    let how = mode & HOW_BITS;
    !removes(mode) && !(truncates(mode) && how == 0) && allows(node, how)
}

fn is_allowed(node: Node, mode: u8) -> bool
    ensures { result ≡ is_allowed node mode }
{
    if is_dir(node) {
        return mode == 0;
    }
    file_allows(node, mode)
}

/// Whether a node may be opened with a mode, after open(5): the low two bits are 0 to read, 1 to write, 2 for
/// both and 3 to execute; 0x10 truncates, and 0x40 removes on close.
#[tactic(auto, unfolding(crate::specs::Access::may_open))]
pub fn may_open(node: Node, mode: u8) -> May
    ensures { result ≡ may_open node mode }
{
    if !is_open_mode(mode) {
        return May::BadMode;
    }
    if is_allowed(node, mode) {
        May::Yes
    } else {
        May::Denied
    }
}
