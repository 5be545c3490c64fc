//! Which letters take a rune.

ghost use Rattle.std.specs.Prelude.{◌≡◌, ◌<◌, ◌≤◌, ◌^◌, ◌++◌, bit_or, if◌then◌else◌, length, map, IfOk, OnOk};
ghost use Rattle.re_syntax.specs.Tree.{tree};
ghost use Rattle.re_syntax.specs.Nodes.{node_of};
ghost use Rattle.re_sets.specs.Numbers.{letters};
ghost use Rattle.re_machine.specs.Listed.{tree_of, letter_of, IsListed};
ghost use Rattle.re_machine.specs.Leaves.{leaves_of, taken_word};

use crate::copy::copied_class;
use crate::nodes::Nodes;
use crate::set::LetterSet;
use am_text::{NoMemory, Rune};
use re_spans::takes;
use re_syntax::Re;
use std::alloc::Global;

// Puts a node at the end of a list where it is a letter.
fn put_letter(alloc: Global, re: &Re, leaves: &mut Vec<Re>) -> Result<(), NoMemory>
    ensures { OnOk result (map tree leaves.new.items ≡ map tree leaves.old.items ++ letter_of (node_of (tree re.now))) }
{
    match re {
        Re::Lit(c) => leaves.push(Re::Lit(*c))?,
        Re::Any => leaves.push(Re::Any)?,
        Re::Class { not, spans } => leaves.push(copied_class(alloc, *not, spans)?)?,
        _ => {}
    }
    Ok(())
}

/// The letters of a tree.
pub fn leaves_of(alloc: Global, nodes: &Nodes) -> Result<Vec<Re>, NoMemory>
    requires { IsListed nodes.now }
    ensures { IfOk result (λ leaves. map tree leaves.items ≡ leaves_of (tree_of nodes.now)) }
{
    let mut leaves = Vec::new(alloc);
    for k in 0..nodes.list.len() {
        put_letter(alloc, nodes.list[k], &mut leaves)?;
    }
    Ok(leaves)
}

/// How many letters a tree has.
pub fn letter_count(alloc: Global, re: &Re) -> Result<usize, NoMemory>
    ensures { IfOk result (λ count. count ≡ letters (tree re.now)) }
{
    let nodes = Nodes::build(alloc, re, false)?;
    let leaves = leaves_of(alloc, &nodes)?;
    Ok(leaves.len())
}

// The set with a letter more, where that takes the rune.
fn with_letter<S: LetterSet>(set: S, takes: bool, n: usize) -> S
    requires { n < S.SIZE }
    ensures { S.bits result ≡ (if takes then bit_or (S.bits set) (2 ^ n) else S.bits set) }
{
    if takes { set.union(S::one(n)) } else { set }
}

/// The letters that take a rune.
pub fn taking<S: LetterSet>(leaves: &[Re], rune: Rune) -> S
    requires { length leaves.now ≤ S.SIZE }
    ensures { S.bits result ≡ taken_word (map tree leaves.now) rune }
{
    let mut set = S::none();
    for n in 0..leaves.len() {
        set = with_letter(set, takes(&leaves[n], rune), n);
    }
    set
}
