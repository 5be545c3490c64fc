//! A copy of a tree.

ghost use Rattle.std.specs.Prelude.{◌≡◌, ◌∷◌, map, IfOk, OnOk};
ghost use Rattle.re_syntax.specs.Tree.{tree, OneOf};
ghost use Rattle.re_syntax.specs.Nodes.{node_of, Joined, Chosen};
ghost use Rattle.re_machine.specs.Copies.{Makes, wrapped, node_over};

use am_text::{Items, NoMemory};
use re_syntax::{Re, RuneSpans, nodes_of};
use std::alloc::Global;
use std::collections::VecDeque;

/// The same class once more.
pub fn copied_class(alloc: Global, not: bool, spans: &RuneSpans) -> Result<Re, NoMemory>
    ensures { IfOk result (λ same. tree same ≡ OneOf not spans.now) }
{
    let spans = Items::copied(alloc, spans.as_slice())?;
    Ok(Re::Class { not, spans })
}

// The last two copies, one after the other.
fn join_copies(alloc: Global, copies: &mut VecDeque<Re>) -> Result<(), NoMemory>
    ensures { OnOk result (Makes Joined (map tree copies.old.items) (map tree copies.new.items)) }
{
    let Some(b) = copies.pop_front() else {
        return Ok(());
    };
    let Some(a) = copies.pop_front() else {
        return Ok(());
    };
    copies.push_front(Re::Cat(Box::new(alloc, a)?, Box::new(alloc, b)?))?;
    Ok(())
}

// The last two copies, of which either is taken.
fn choose_copy(alloc: Global, copies: &mut VecDeque<Re>) -> Result<(), NoMemory>
    ensures { OnOk result (Makes Chosen (map tree copies.old.items) (map tree copies.new.items)) }
{
    let Some(b) = copies.pop_front() else {
        return Ok(());
    };
    let Some(a) = copies.pop_front() else {
        return Ok(());
    };
    copies.push_front(Re::Alt(Box::new(alloc, a)?, Box::new(alloc, b)?))?;
    Ok(())
}

// What wraps one part.
#[derive(Clone, Copy)]
pub enum Wrap {
    Often,
    Repeated,
    Optional,
    Numbered(u32),
}

// A part that is wrapped.
fn wrapped(alloc: Global, wrap: Wrap, part: Re) -> Result<Re, NoMemory>
    ensures { IfOk result (λ whole. tree whole ≡ wrapped wrap (tree part)) }
{
    let part = Box::new(alloc, part)?;
    Ok(match wrap {
        Wrap::Often => Re::Star(part),
        Wrap::Repeated => Re::Plus(part),
        Wrap::Optional => Re::Opt(part),
        Wrap::Numbered(n) => Re::Group(n, part),
    })
}

// The last copy, wrapped.
fn wrap_copy(alloc: Global, wrap: Wrap, copies: &mut VecDeque<Re>) -> Result<(), NoMemory>
    ensures { OnOk result (Makes (node_over wrap) (map tree copies.old.items) (map tree copies.new.items)) }
{
    let Some(part) = copies.pop_front() else {
        return Ok(());
    };
    copies.push_front(wrapped(alloc, wrap, part)?)?;
    Ok(())
}

// A leaf more.
fn put_leaf(copies: &mut VecDeque<Re>, leaf: Re) -> Result<(), NoMemory>
    ensures { OnOk result (map tree copies.new.items ≡ tree leaf ∷ map tree copies.old.items) }
{
    copies.push_front(leaf)?;
    Ok(())
}

// A copy of a node, over those of its parts.
fn put_copy(alloc: Global, re: &Re, copies: &mut VecDeque<Re>) -> Result<(), NoMemory>
    ensures { OnOk result (Makes (node_of (tree re.now)) (map tree copies.old.items) (map tree copies.new.items)) }
{
    match re {
        Re::Lit(c) => put_leaf(copies, Re::Lit(*c)),
        Re::Any => put_leaf(copies, Re::Any),
        Re::Class { not, spans } => put_leaf(copies, copied_class(alloc, *not, spans)?),
        Re::Start => put_leaf(copies, Re::Start),
        Re::End => put_leaf(copies, Re::End),
        Re::Cat(..) => join_copies(alloc, copies),
        Re::Alt(..) => choose_copy(alloc, copies),
        Re::Star(_) => wrap_copy(alloc, Wrap::Often, copies),
        Re::Plus(_) => wrap_copy(alloc, Wrap::Repeated, copies),
        Re::Opt(_) => wrap_copy(alloc, Wrap::Optional, copies),
        Re::Group(n, _) => wrap_copy(alloc, Wrap::Numbered(*n), copies),
    }
}

/// The same tree once more.
pub fn copy(alloc: Global, re: &Re) -> Result<Re, NoMemory>
    ensures { IfOk result (λ same. tree same ≡ tree re.now) }
{
    let nodes = nodes_of(alloc, re, false)?;
    let mut copies = VecDeque::new(alloc);
    for k in 0..nodes.len() {
        put_copy(alloc, nodes[k], &mut copies)?;
    }
    match copies.pop_front() {
        Some(same) => Ok(same),
        None => unreachable!(),
    }
}
