//! What may begin, follow and end a match, in each kind of place.

ghost use Rattle.std.specs.Prelude.{◌≡◌, ◌<◌, ◌≤◌, ◌||◌, ℕ, false, length, map, slice_index, IfOk, IsTrue};
ghost use Rattle.re_spans.specs.declared.leaf.Here.{Here};
ghost use Rattle.re_sets.specs.Numbers.{letters};
ghost use Rattle.re_machine.specs.Ways.{reading};
ghost use Rattle.re_machine.specs.Listed.{tree_of, IsListed};
ghost use Rattle.re_machine.specs.Contexts.{kind_of, context_at, IsContext, AreContexts, HasFirsts, HaveNothing};

use crate::fill::fill;
use crate::nodes::Nodes;
use crate::set::LetterSet;
use crate::way::{Way, place_at};
use am_text::{Letters, NoMemory};
use re_spans::Here;
use std::alloc::Global;

/// What may begin, follow and end a match in one kind of place.
#[derive(Drop)]
pub struct Context<S> {
    pub null: bool,
    pub first: S,
    pub last: S,
    pub follow: Vec<S>,
}

/// The contexts of all kinds of places. Where a tree has no anchors they are the same.
#[derive(Drop)]
pub enum Contexts<S> {
    /// One for all places.
    Same(Context<S>),
    /// Inside a line, at its start, at its end, and in an empty line.
    ByPlace(Context<S>, Context<S>, Context<S>, Context<S>),
}

// So many rows without letters.
fn no_rows<S: LetterSet>(alloc: Global, count: usize) -> Result<Vec<S>, NoMemory>
    ensures len { IfOk result (λ rows. length rows.items ≡ count) }
    ensures none { IfOk result (λ rows. HaveNothing (map S.bits rows.items)) }
{
    let mut rows = Vec::with_capacity(alloc, count)?;
    for n in 0..count {
        rows.push(S::none())?;
    }
    Ok(rows)
}

impl<S: LetterSet> Context<S> {
    // The context of one kind of place, for a tree of so many letters.
    fn build(alloc: Global, nodes: &Nodes, count: usize, here: Here) -> Result<Context<S>, NoMemory>
        requires listed { IsListed nodes.now }
        requires count { letters (tree_of nodes.now) ≤ count }
        requires size { count ≤ S.SIZE }
        ensures { IfOk result (IsContext S.bits (tree_of nodes.now) here) }
    {
        let mut follow = no_rows(alloc, count)?;
        let part = fill(alloc, nodes, here, follow.as_mut_slice())?;
        Ok(Context {
            null: part.null,
            first: part.first,
            last: part.last,
            follow,
        })
    }
}

// A place that starts a line or not, and ends one or not.
fn here(starts: bool, ends: bool) -> Here
    ensures { result ≡ kind_of starts ends }
{
    Here { starts, ends }
}

impl<S: LetterSet> Contexts<S> {
    /// The contexts of a tree of so many letters.
    pub fn build(alloc: Global, nodes: &Nodes, count: usize) -> Result<Contexts<S>, NoMemory>
        requires listed { IsListed nodes.now }
        requires count { letters (tree_of nodes.now) ≤ count }
        requires size { count ≤ S.SIZE }
        ensures { IfOk result (AreContexts S.bits (tree_of nodes.now)) }
    {
        let inside = Context::build(alloc, nodes, count, here(false, false))?;
        if !nodes.has_anchor() {
            return Ok(Contexts::Same(inside));
        }
        let starts = Context::build(alloc, nodes, count, here(true, false))?;
        let ends = Context::build(alloc, nodes, count, here(false, true))?;
        let empty = Context::build(alloc, nodes, count, here(true, true))?;
        Ok(Contexts::ByPlace(inside, starts, ends, empty))
    }

    // The context of a kind of place.
    fn at(&self, here: Here) -> &Context<S>
        ensures { result.now ≡ context_at self.now here }
    {
        match self {
            Contexts::Same(context) => context,
            Contexts::ByPlace(inside, starts, ends, empty) => {
                if here.starts && here.ends {
                    empty
                } else if here.starts {
                    starts
                } else if here.ends {
                    ends
                } else {
                    inside
                }
            }
        }
    }

    /// The context of a place of a text, which isn't read where all places are alike.
    pub fn of_place<T: Letters>(&self, text: &T, way: Way, k: usize) -> &Context<S>
        requires { k ≤ length (T.letters text.now) }
        ensures { result.now ≡ context_at self.now ((reading way (T.letters text.now)).here k) }
    {
        match self {
            Contexts::Same(context) => context,
            Contexts::ByPlace(..) => self.at(place_at(text, way, k)),
        }
    }

    /// The letters with which a match may begin at some place.
    pub fn firsts(&self) -> S
        ensures { (x : Here) → HasFirsts (S.bits (context_at self.now x).first) (S.bits result) }
    {
        match self {
            Contexts::Same(context) => context.first,
            Contexts::ByPlace(inside, starts, ends, empty) => {
                let within = inside.first.union(starts.first);
                let outer = ends.first.union(empty.first);
                within.union(outer)
            }
        }
    }

    /// Whether the null text is a match at some place.
    pub fn is_ever_null(&self) -> bool
        ensures { result ≡ false → (x : Here) → (context_at self.now x).null ≡ false }
    {
        match self {
            Contexts::Same(context) => context.null,
            Contexts::ByPlace(inside, starts, ends, empty) => {
                inside.null || starts.null || ends.null || empty.null
            }
        }
    }
}
