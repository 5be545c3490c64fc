//! The nodes of a tree that a search goes by.

ghost use Rattle.std.specs.Prelude.{◌≡◌, IfOk};
ghost use Rattle.re_syntax.specs.Tree.{tree};
ghost use Rattle.re_syntax.specs.Nodes.{node_of};
ghost use Rattle.re_sets.specs.Readings.{read_as};
ghost use Rattle.re_machine.specs.Contexts.{has_anchor};
ghost use Rattle.re_machine.specs.Listed.{tree_of, is_anchor, IsListed};

use am_text::NoMemory;
use re_syntax::{Re, nodes_of};
use std::alloc::Global;
use std::collections::VecDeque;

/// A tree, and its nodes as a search reads them, each behind those of its parts. Backward the tree is mirrored.
#[derive(Drop)]
pub struct Nodes<'a> {
    pub re: &'a Re,
    pub back: bool,
    pub list: VecDeque<&'a Re>,
}

fn is_anchor(re: &Re) -> bool
    ensures { result ≡ is_anchor (node_of (tree re.now)) }
{
    matches!(re, Re::Start | Re::End)
}

impl<'a> Nodes<'a> {
    /// The nodes of a tree.
    pub fn build(alloc: Global, re: &'a Re, back: bool) -> Result<Nodes<'a>, NoMemory>
        ensures listed { IfOk result IsListed }
        ensures tree { IfOk result (λ nodes. tree_of nodes ≡ read_as back (tree re.now)) }
    {
        let list = nodes_of(alloc, re, back)?;
        Ok(Nodes { re, back, list })
    }

    /// Whether the tree asks for the start or the end of a line.
    pub fn has_anchor(&self) -> bool
        requires { IsListed self.now }
        ensures { result ≡ has_anchor (tree_of self.now) }
    {
        for k in 0..self.list.len() {
            if is_anchor(self.list[k]) {
                return true;
            }
        }
        false
    }
}
