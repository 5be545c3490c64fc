//! Which letters may begin and end a match, and which may follow one another.

ghost use Rattle.std.specs.Prelude.{◌≡◌, ◌<◌, ◌≤◌, ◌+◌, [], ◌∷◌, List, ℕ, length, map, slice_index, slice_set, bit_or};
ghost use Rattle.std.specs.Prelude.{IsTrue, ◌&&◌, ◌||◌, ◌^◌, true, false, IfOk, OnOk, if◌then◌else◌};
ghost use Rattle.re_syntax.specs.Tree.{Tree, tree, LineStart, LineEnd};
ghost use Rattle.re_syntax.specs.Nodes.{node_of, Alone, Joined, Chosen, Often, Repeated, Optional};
ghost use Rattle.re_spans.specs.declared.leaf.Here.{Here};
ghost use Rattle.re_sets.specs.Words.{on};
ghost use Rattle.re_sets.specs.Numbers.{letters};
ghost use Rattle.re_sets.specs.Tables.{join_rows};
ghost use Rattle.re_machine.specs.Sets.{AreAdded};
ghost use Rattle.re_machine.specs.Listed.{tree_of, IsListed};
ghost use Rattle.re_machine.specs.declared.fill.Part.{Part};
ghost use Rattle.re_machine.specs.Filling.{IsPart, AreFilled, IsLeaf, GoesOn};

use crate::nodes::Nodes;
use crate::set::LetterSet;
use am_text::NoMemory;
use re_spans::Here;
use re_syntax::Re;
use std::alloc::Global;
use std::collections::VecDeque;

// The set and what a row has. A row that isn't there has nothing.
fn with_row<S: LetterSet>(all: S, rows: &[S], n: usize) -> S
    ensures { S.bits result ≡ bit_or (S.bits all) (slice_index (map S.bits rows.now) n) }
{
    if n < rows.len() {
        all.union(rows[n])
    } else {
        all
    }
}

/// What the rows of the members of a set have. A row that isn't there has nothing.
pub fn join<S: LetterSet>(rows: &[S], set: S) -> S
    ensures { S.bits result ≡ join_rows (slice_index (map S.bits rows.now)) (S.bits set) S.SIZE }
{
    let mut all = S::none();
    let mut left = set;
    'letters: while let Some(n) = left.lowest() {
        left = left.without(n);
        all = with_row(all, rows, n);
    }
    all
}

// A row gets the members of a set. One that isn't there gets nothing.
fn put_row<S: LetterSet>(rows: &mut [S], n: usize, to: S)
    ensures len { length rows.new ≡ length rows.old }
    ensures row { n < length rows.old → map S.bits rows.new ≡ slice_set (map S.bits rows.old) n
        (bit_or (slice_index (map S.bits rows.old) n) (S.bits to)) }
{
    if n < rows.len() {
        rows[n] = rows[n].union(to);
    }
}

// Each row of a member of the one set gets the members of the other. A row that isn't there gets nothing.
fn add<S: LetterSet>(rows: &mut [S], from: S, to: S)
    ensures len { length rows.new ≡ length rows.old }
    ensures added { ((m : ℕ) → IsTrue (on (S.bits from) m) → m < length rows.old)
        → AreAdded (map S.bits rows.old) (map S.bits rows.new) (S.bits from) (S.bits to) }
{
    let mut left = from;
    'letters: while let Some(n) = left.lowest() {
        left = left.without(n);
        put_row(rows, n, to);
    }
}

/// A part of a tree in one kind of place: whether it matches the null text, and the letters by which its matches begin
/// and end.
#[derive(Clone, Copy)]
pub struct Part<S> {
    pub null: bool,
    pub first: S,
    pub last: S,
}

/// What is filled so far: the parts that no node has taken yet, the last one first, and how many letters were seen.
#[derive(Drop)]
pub struct Filling<S> {
    pub parts: VecDeque<Part<S>>,
    pub next: usize,
}

// A letter.
fn letter<S: LetterSet>(n: usize) -> Part<S>
    requires { n < S.SIZE }
    ensures null { result.null ≡ false }
    ensures first { S.bits result.first ≡ 2 ^ n }
    ensures last { S.bits result.last ≡ 2 ^ n }
{
    let set = S::one(n);
    Part {
        null: false,
        first: set,
        last: set,
    }
}

// The start or the end of a line.
fn anchor<S: LetterSet>(null: bool) -> Part<S>
    ensures null { result.null ≡ null }
    ensures first { S.bits result.first ≡ 0 }
    ensures last { S.bits result.last ≡ 0 }
{
    Part {
        null,
        first: S::none(),
        last: S::none(),
    }
}

// One part after the other.
fn after<S: LetterSet>(x: Part<S>, y: Part<S>) -> Part<S>
    ensures null { result.null ≡ (x.null && y.null) }
    ensures first { S.bits result.first ≡ (if x.null then bit_or (S.bits x.first) (S.bits y.first) else S.bits
        x.first) }
    ensures last { S.bits result.last ≡ (if y.null then bit_or (S.bits y.last) (S.bits x.last) else S.bits y.last) }
{
    Part {
        null: x.null && y.null,
        first: if x.null {
            x.first.union(y.first)
        } else {
            x.first
        },
        last: if y.null { y.last.union(x.last) } else { y.last },
    }
}

// One part or the other.
fn either<S: LetterSet>(x: Part<S>, y: Part<S>) -> Part<S>
    ensures null { result.null ≡ (x.null || y.null) }
    ensures first { S.bits result.first ≡ bit_or (S.bits x.first) (S.bits y.first) }
    ensures last { S.bits result.last ≡ bit_or (S.bits x.last) (S.bits y.last) }
{
    Part {
        null: x.null || y.null,
        first: x.first.union(y.first),
        last: x.last.union(y.last),
    }
}

// A part that may be repeated, and left out where that is said.
fn repeated<S: LetterSet>(x: Part<S>, optional: bool) -> Part<S>
    ensures null { result.null ≡ (optional || x.null) }
    ensures first { result.first ≡ x.first }
    ensures last { result.last ≡ x.last }
{
    Part {
        null: optional || x.null,
        first: x.first,
        last: x.last,
    }
}

// Takes the last part. There is always one where a node that has a part is seen.
fn take<S: LetterSet>(parts: &mut VecDeque<Part<S>>) -> Part<S>
    ensures part { (p : Part S) (more : List (Part S)) → parts.old.items ≡ p ∷ more → result ≡ p }
    ensures rest { (p : Part S) (more : List (Part S)) → parts.old.items ≡ p ∷ more → parts.new.items ≡ more }
{
    match parts.pop_front() {
        Some(part) => part,
        None => anchor(false),
    }
}

// A letter more, which has a row.
fn put_letter<S: LetterSet>(filling: &mut Filling<S>, rows: &[S]) -> Result<(), NoMemory>
    requires { length rows.now ≤ S.SIZE }
    ensures { OnOk result ((x : Here) (r : Tree) → IsLeaf r → GoesOn S.bits x (Alone r) filling.old
        (map S.bits rows.now) filling.new (map S.bits rows.now)) }
{
    let n = filling.next;
    if n < rows.len() {
        filling.parts.push_front(letter(n))?;
        filling.next = n + 1;
    }
    Ok(())
}

// The start or the end of a line more.
fn put_anchor<S: LetterSet>(filling: &mut Filling<S>, null: bool) -> Result<(), NoMemory>
    ensures start { OnOk result ((x : Here) (rows : List ℕ) → null ≡ x.starts → GoesOn S.bits x (Alone LineStart)
        filling.old rows filling.new rows) }
    ensures end { OnOk result ((x : Here) (rows : List ℕ) → null ≡ x.ends → GoesOn S.bits x (Alone LineEnd) filling.old
        rows filling.new rows) }
{
    filling.parts.push_front(anchor(null))?;
    Ok(())
}

// The last two parts, one after the other.
fn join_parts<S: LetterSet>(filling: &mut Filling<S>, rows: &mut [S]) -> Result<(), NoMemory>
    ensures len { length rows.new ≡ length rows.old }
    ensures filled { OnOk result ((x : Here) → GoesOn S.bits x Joined filling.old (map S.bits rows.old) filling.new
        (map S.bits rows.new)) }
{
    let parts = &mut filling.parts;
    let y = take(parts);
    let x = take(parts);
    add(rows, x.last, y.first);
    parts.push_front(after(x, y))?;
    Ok(())
}

// The last two parts, of which either is taken.
fn choose_part<S: LetterSet>(filling: &mut Filling<S>) -> Result<(), NoMemory>
    ensures { OnOk result ((x : Here) (rows : List ℕ) → GoesOn S.bits x Chosen filling.old rows filling.new rows) }
{
    let parts = &mut filling.parts;
    let y = take(parts);
    let x = take(parts);
    parts.push_front(either(x, y))?;
    Ok(())
}

// The last part any number of times, or once or more where it isn't optional.
fn repeat_part<S: LetterSet>(
    filling: &mut Filling<S>,
    rows: &mut [S],
    optional: bool,
) -> Result<(), NoMemory>
    ensures len { length rows.new ≡ length rows.old }
    ensures often { OnOk result ((x : Here) → optional ≡ true → GoesOn S.bits x Often filling.old (map S.bits rows.old)
        filling.new (map S.bits rows.new)) }
    ensures repeated { OnOk result ((x : Here) → optional ≡ false → GoesOn S.bits x Repeated filling.old
        (map S.bits rows.old) filling.new (map S.bits rows.new)) }
{
    let parts = &mut filling.parts;
    let x = take(parts);
    add(rows, x.last, x.first);
    parts.push_front(repeated(x, optional))?;
    Ok(())
}

// The last part, which may be left out.
fn leave_out<S: LetterSet>(filling: &mut Filling<S>) -> Result<(), NoMemory>
    ensures { OnOk result ((x : Here) (rows : List ℕ) → GoesOn S.bits x Optional filling.old rows filling.new rows) }
{
    let parts = &mut filling.parts;
    let x = take(parts);
    parts.push_front(repeated(x, true))?;
    Ok(())
}

// What is filled with one node more.
fn fill_node<S: LetterSet>(
    re: &Re,
    here: Here,
    filling: &mut Filling<S>,
    rows: &mut [S],
) -> Result<(), NoMemory>
    requires { length rows.old ≤ S.SIZE }
    ensures len { length rows.new ≡ length rows.old }
    ensures filled { OnOk result (GoesOn S.bits here (node_of (tree re.now)) filling.old (map S.bits rows.old)
        filling.new (map S.bits rows.new)) }
{
    match re {
        Re::Lit(_) => put_letter(filling, rows),
        Re::Any => put_letter(filling, rows),
        Re::Class { .. } => put_letter(filling, rows),
        Re::Start => put_anchor(filling, here.starts),
        Re::End => put_anchor(filling, here.ends),
        Re::Cat(..) => join_parts(filling, rows),
        Re::Alt(..) => choose_part(filling),
        Re::Star(_) => repeat_part(filling, rows, true),
        Re::Plus(_) => repeat_part(filling, rows, false),
        Re::Opt(_) => leave_out(filling),
        Re::Group(..) => Ok(()),
    }
}

/// Fills the rows of the letters of a tree with those that may follow them, in one kind of place.
pub fn fill<S: LetterSet>(
    alloc: Global,
    nodes: &Nodes,
    here: Here,
    rows: &mut [S],
) -> Result<Part<S>, NoMemory>
    requires listed { IsListed nodes.now }
    requires few { letters (tree_of nodes.now) ≤ length rows.old }
    requires size { length rows.old ≤ S.SIZE }
    ensures len { length rows.new ≡ length rows.old }
    ensures part { IfOk result (λ part. IsPart (tree_of nodes.now) 0 here part.null (S.bits part.first)
        (S.bits part.last)) }
    ensures rows { OnOk result (AreFilled (tree_of nodes.now) 0 here (map S.bits rows.old) (map S.bits rows.new)) }
{
    let mut filling = Filling {
        parts: VecDeque::new(alloc),
        next: 0,
    };
    for k in 0..nodes.list.len() {
        fill_node(nodes.list[k], here, &mut filling, rows)?;
    }
    Ok(take(&mut filling.parts))
}
