//! What is known of each part of a tree at one place of a search.

ghost use Rattle.std.specs.Prelude.{◌≡◌, ◌&&◌, ◌∷◌, false, map, IfOk, OnOk};
ghost use Rattle.re_syntax.specs.Tree.{tree};
ghost use Rattle.re_spans.specs.Leaves.{takes};
ghost use Rattle.re_syntax.specs.Nodes.{node_of};
ghost use Rattle.re_spans.specs.Marks.{marks_of, mark_of, is_alive, with_mark, passes, left_enters, right_enters, join};
ghost use Rattle.re_spans.specs.Marks.{pair, either, wrap, leaf_mark, fresh, step, step_one, step_cat, step_alt};
ghost use Rattle.re_spans.specs.Marks.{OfLeaf};
ghost use Rattle.re_spans.specs.Fresh.{both, with_last, with_last_two, with_node};

use crate::leaf::{Here, Read, is_null, takes};
use crate::way::Way;
use am_text::NoMemory;
use re_syntax::{Re, nodes_of};
use std::alloc::Global;
use std::collections::VecDeque;

/// What is known of a part at a place: whether a match of one rune or more leads there from a place at which
/// the part was entered, and whether the null text there is a match.
#[derive(Clone, Copy)]
pub struct Mark {
    pub led: bool,
    pub null: bool,
}

/// How two parts are joined: one after the other, or either of them.
#[derive(Clone, Copy)]
pub enum Joint {
    Cat(Way),
    Alt,
}

/// The marks of a tree and its parts.
#[derive(Drop)]
pub enum Marks {
    Leaf(Mark),
    One(Mark, Box<Marks>),
    Two(Mark, Box<Marks>, Box<Marks>),
}

impl Marks {
    /// The mark of the tree itself.
    pub fn mark(&self) -> Mark
        ensures { result ≡ mark_of (marks_of self.now) }
    {
        match self {
            Marks::Leaf(mark) => *mark,
            Marks::One(mark, _) => *mark,
            Marks::Two(mark, _, _) => *mark,
        }
    }

    /// Whether a match of some part can go on from here: where none can, and nothing is entered any more, no place
    /// further on is led to.
    pub fn is_alive(&self) -> bool
        ensures { result ≡ is_alive (marks_of self.now) }
    {
        match self {
            Marks::Leaf(mark) => mark.led,
            Marks::One(mark, below) => mark.led || below.is_alive(),
            Marks::Two(mark, left, right) => mark.led || left.is_alive() || right.is_alive(),
        }
    }

    fn set(&mut self, mark: Mark)
        ensures { marks_of self.new ≡ with_mark mark (marks_of self.old) }
    {
        match self {
            Marks::Leaf(old) => *old = mark,
            Marks::One(old, _) => *old = mark,
            Marks::Two(old, _, _) => *old = mark,
        }
    }
}

/// Whether a part that is entered or not can be left here.
pub fn passes(mark: Mark, entered: bool) -> bool
    ensures { result ≡ passes mark entered }
{
    mark.led || (entered && mark.null)
}

// Of two parts one after the other the left one is entered.
fn left_enters(way: Way, entered: bool, right: Mark) -> bool
    ensures { result ≡ left_enters way entered right }
{
    match way {
        Way::On => entered,
        Way::Back => passes(right, entered),
    }
}

// The right one is entered.
fn right_enters(way: Way, entered: bool, left: Mark) -> bool
    ensures { result ≡ right_enters way entered left }
{
    match way {
        Way::On => passes(left, entered),
        Way::Back => entered,
    }
}

// The mark of two parts one after the other.
fn join(first: Mark, second: Mark) -> Mark
    ensures { result ≡ join first second }
{
    Mark {
        led: second.led || (first.led && second.null),
        null: first.null && second.null,
    }
}

fn pair(way: Way, left: Mark, right: Mark) -> Mark
    ensures { result ≡ pair way left right }
{
    match way {
        Way::On => join(left, right),
        Way::Back => join(right, left),
    }
}

fn either(left: Mark, right: Mark) -> Mark
    ensures { result ≡ either left right }
{
    Mark {
        led: left.led || right.led,
        null: left.null || right.null,
    }
}

// The mark of a tree with one part, which may be left out where optional holds.
fn wrap(part: Mark, optional: bool) -> Mark
    ensures { result ≡ wrap part optional }
{
    Mark {
        led: part.led,
        null: optional || part.null,
    }
}

fn leaf_mark(re: &Re, here: Here, led: bool) -> Mark
    ensures { result ≡ leaf_mark (tree re.now) here led }
{
    Mark {
        led,
        null: is_null(re, here),
    }
}

// Puts the marks of a leaf.
fn put_leaf(re: &Re, here: Here, made: &mut VecDeque<Marks>) -> Result<(), NoMemory>
    ensures { OnOk result (map marks_of made.new.items ≡ OfLeaf (leaf_mark (tree re.now) here false) ∷ map marks_of
        made.old.items) }
{
    made.push_front(Marks::Leaf(leaf_mark(re, here, false)))?;
    Ok(())
}

// Puts the marks of a tree over those of its part.
fn put_one(alloc: Global, optional: bool, made: &mut VecDeque<Marks>) -> Result<(), NoMemory>
    ensures { OnOk result (map marks_of made.new.items ≡ with_last optional (map marks_of made.old.items)) }
{
    let Some(part) = made.pop_front() else {
        return Ok(());
    };
    let mark = wrap(part.mark(), optional);
    made.push_front(Marks::One(mark, Box::new(alloc, part)?))?;
    Ok(())
}

// The mark of two parts, one after the other or either of them.
fn both(joint: Joint, left: Mark, right: Mark) -> Mark
    ensures { result ≡ both joint left right }
{
    match joint {
        Joint::Cat(way) => pair(way, left, right),
        Joint::Alt => either(left, right),
    }
}

// Puts the marks of a tree over those of its two parts.
fn put_two(alloc: Global, joint: Joint, made: &mut VecDeque<Marks>) -> Result<(), NoMemory>
    ensures { OnOk result (map marks_of made.new.items ≡ with_last_two joint (map marks_of made.old.items)) }
{
    let Some(right) = made.pop_front() else {
        return Ok(());
    };
    let Some(left) = made.pop_front() else {
        return Ok(());
    };
    let mark = both(joint, left.mark(), right.mark());
    made.push_front(Marks::Two(mark, Box::new(alloc, left)?, Box::new(alloc, right)?))?;
    Ok(())
}

// Puts the marks of a node over those of its parts.
fn put_node(
    alloc: Global,
    re: &Re,
    way: Way,
    here: Here,
    made: &mut VecDeque<Marks>,
) -> Result<(), NoMemory>
    ensures { OnOk result (map marks_of made.new.items ≡ with_node way here (node_of (tree re.now))
        (map marks_of made.old.items)) }
{
    match re {
        Re::Lit(_) => put_leaf(re, here, made),
        Re::Any => put_leaf(re, here, made),
        Re::Class { .. } => put_leaf(re, here, made),
        Re::Start => put_leaf(re, here, made),
        Re::End => put_leaf(re, here, made),
        Re::Cat(..) => put_two(alloc, Joint::Cat(way), made),
        Re::Alt(..) => put_two(alloc, Joint::Alt, made),
        Re::Star(_) => put_one(alloc, true, made),
        Re::Plus(_) => put_one(alloc, false, made),
        Re::Opt(_) => put_one(alloc, true, made),
        Re::Group(..) => put_one(alloc, false, made),
    }
}

/// The marks at a place before which no part was entered.
pub fn fresh(alloc: Global, re: &Re, way: Way, here: Here) -> Result<Marks, NoMemory>
    ensures { IfOk result (λ marks. marks_of marks ≡ fresh way (tree re.now) here) }
{
    let mut left = nodes_of(alloc, re, false)?;
    let mut made = VecDeque::new(alloc);
    'nodes: while let Some(node) = left.pop_front() {
        put_node(alloc, node, way, here, &mut made)?;
    }
    match made.pop_front() {
        Some(marks) => Ok(marks),
        None => unreachable!(),
    }
}

impl Marks {
    // The marks of a tree with one part, which is entered again where again holds and its matches end.
    #[cycle(step)]
    fn step_one(
        &mut self,
        part: &Re,
        way: Way,
        read: Read,
        entered: bool,
        again: bool,
        optional: bool,
    )
        ensures { marks_of self.new ≡ step_one (step way (tree part.now) read) entered again
            optional (marks_of self.old) }
    {
        match self {
            Marks::Leaf(_) => {}
            Marks::One(mark, below) => {
                let enters = entered || (again && below.mark().led);
                below.step(part, way, read, enters);
                *mark = wrap(below.mark(), optional);
            }
            Marks::Two(..) => {}
        }
    }

    // The marks of two parts one after the other.
    #[cycle(step)]
    fn step_cat(&mut self, a: &Re, b: &Re, way: Way, read: Read, entered: bool)
        ensures { marks_of self.new ≡ step_cat way (step way (tree a.now) read) (step way (tree b.now) read) entered
            (marks_of self.old) }
    {
        match self {
            Marks::Leaf(_) => {}
            Marks::One(..) => {}
            Marks::Two(mark, left, right) => {
                let left_entered = left_enters(way, entered, right.mark());
                let right_entered = right_enters(way, entered, left.mark());
                left.step(a, way, read, left_entered);
                right.step(b, way, read, right_entered);
                *mark = pair(way, left.mark(), right.mark());
            }
        }
    }

    // The marks of two parts of which either is taken.
    #[cycle(step)]
    fn step_alt(&mut self, a: &Re, b: &Re, way: Way, read: Read, entered: bool)
        ensures { marks_of self.new ≡ step_alt (step way (tree a.now) read) (step way (tree b.now) read) entered
            (marks_of self.old) }
    {
        match self {
            Marks::Leaf(_) => {}
            Marks::One(..) => {}
            Marks::Two(mark, left, right) => {
                left.step(a, way, read, entered);
                right.step(b, way, read, entered);
                *mark = either(left.mark(), right.mark());
            }
        }
    }

    fn step_leaf(&mut self, re: &Re, read: Read, entered: bool)
        ensures { marks_of self.new ≡ with_mark (leaf_mark (tree re.now) read.here
            (entered && takes (tree re.now) read.rune)) (marks_of self.old) }
    {
        self.set(leaf_mark(re, read.here, entered && takes(re, read.rune)));
    }

    /// The marks at the next place, where the tree is entered at this one or not.
    #[cycle(step)]
    pub fn step(&mut self, re: &Re, way: Way, read: Read, entered: bool)
        ensures { marks_of self.new ≡ step way (tree re.now) read entered (marks_of self.old) }
    {
        match re {
            Re::Lit(_) => self.step_leaf(re, read, entered),
            Re::Any => self.step_leaf(re, read, entered),
            Re::Class { .. } => self.step_leaf(re, read, entered),
            Re::Start => self.step_leaf(re, read, entered),
            Re::End => self.step_leaf(re, read, entered),
            Re::Cat(a, b) => self.step_cat(a, b, way, read, entered),
            Re::Alt(a, b) => self.step_alt(a, b, way, read, entered),
            Re::Star(a) => self.step_one(a, way, read, entered, true, true),
            Re::Plus(a) => self.step_one(a, way, read, entered, true, false),
            Re::Opt(a) => self.step_one(a, way, read, entered, false, true),
            Re::Group(_, a) => self.step_one(a, way, read, entered, false, false),
        }
    }
}
