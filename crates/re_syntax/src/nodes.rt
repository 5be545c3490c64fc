//! The nodes of a tree as a list, so that what goes over a tree needs no stack for its depth.

ghost use Rattle.std.specs.Prelude.{◌≡◌, ◌++◌, map, IfOk, OnOk};
ghost use Rattle.re_syntax.specs.Tree.{tree};
ghost use Rattle.re_syntax.specs.Nodes.{node_of, nodes_of, parts_before};

use crate::re::Re;
use am_text::NoMemory;
use std::alloc::Global;
use std::collections::VecDeque;

// Puts the parts of a tree before others, the last one first.
fn put_parts<'a>(re: &'a Re, back: bool, rest: &mut VecDeque<&'a Re>) -> Result<(), NoMemory>
    ensures { OnOk result (map (λ r. tree r.now) rest.new.items ≡ parts_before back (tree re.now)
        (map (λ r. tree r.now) rest.old.items)) }
{
    match re {
        Re::Lit(_) => Ok(()),
        Re::Any => Ok(()),
        Re::Class { .. } => Ok(()),
        Re::Start => Ok(()),
        Re::End => Ok(()),
        Re::Cat(a, b) => {
            if back {
                rest.push_front(b)?;
                rest.push_front(a)?;
            } else {
                rest.push_front(a)?;
                rest.push_front(b)?;
            }
            Ok(())
        }
        Re::Alt(a, b) => {
            rest.push_front(a)?;
            rest.push_front(b)?;
            Ok(())
        }
        Re::Star(a) => {
            rest.push_front(a)?;
            Ok(())
        }
        Re::Plus(a) => {
            rest.push_front(a)?;
            Ok(())
        }
        Re::Opt(a) => {
            rest.push_front(a)?;
            Ok(())
        }
        Re::Group(_, a) => {
            rest.push_front(a)?;
            Ok(())
        }
    }
}

/// The nodes of a tree, each behind those of its parts. Backward the parts of a concatenation change places.
pub fn nodes_of<'a>(alloc: Global, re: &'a Re, back: bool) -> Result<VecDeque<&'a Re>, NoMemory>
    ensures { IfOk result (λ all. map (λ r. node_of (tree r.now)) all.items ≡ nodes_of back (tree re.now)) }
{
    let mut all = VecDeque::new(alloc);
    let mut rest = VecDeque::new(alloc);
    rest.push_front(re)?;
    'nodes: while let Some(node) = rest.pop_front() {
        put_parts(node, back, &mut rest)?;
        all.push_front(node)?;
    }
    Ok(all)
}
