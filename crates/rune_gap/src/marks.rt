//! How many bytes stand before and behind places of a text, noted for each stride of runes.

ghost use Rattle.std.specs.Prelude.{◌≡◌, ◌≤◌, ◌<◌, ◌+◌, ◌-◌, ◌*◌, ◌^◌, ◌==◌, ℕ, [], true, length, take, drop, IfOk};
ghost use Rattle.std.specs.Prelude.{OnOk};
ghost use Rattle.am_text.specs.Utf8.{rune_bytes, utf8};
ghost use Rattle.rune_gap.specs.Gap.{around, IsGapIn};
ghost use Rattle.rune_gap.specs.Marks.{stride, size, noted, HasRoom, IsMarked, IsMarkedBack, IsPlain};

use am_text::{Bytes, NoMemory, Range, Rune};
use std::alloc::Global;

/// The runes from one mark to the next.
pub const STRIDE: usize = 256;

/// How many runes stand as they were, at the front of a text and at its end.
#[derive(Clone, Copy)]
pub struct Unchanged {
    pub front: usize,
    pub end: usize,
}

/// The marks of a text with a gap.
#[derive(Drop)]
pub struct Marks {
    /// For each stride that ends before the gap, how many bytes there are up to its end.
    pub before: Vec<usize>,
    /// For each stride behind the gap, counted from the end, how many bytes there are from its beginning.
    pub behind: Vec<usize>,
    /// Whether each rune is known to take one byte.
    pub plain: bool,
}

// How many bytes a rune takes in UTF-8. What is no Unicode scalar value is written as U+FFFD.
fn rune_size(rune: Rune) -> usize
    ensures exact { result ≡ length (rune_bytes rune) }
    ensures small { result ≤ 4 }
{
    match char::from_u32(rune) {
        Some(c) => c.len_utf8(),
        None => 3,
    }
}

/// How many bytes a part of a text takes in UTF-8.
pub fn size(part: &[Rune]) -> usize
    requires { length part.now < 2 ^ 61 }
    ensures exact { result ≡ size part.now }
    ensures small { result ≤ 4 * length part.now }
{
    let mut size = 0;
    for rune in part {
        size += rune_size(*rune);
    }
    size
}

// How many bytes a stride of a text takes, whose runes may be known to take one each.
fn stride_size(part: &[Rune], plain: bool) -> usize
    requires stride { length part.now ≤ stride }
    requires plain { IsPlain plain part.now }
    ensures exact { result ≡ size part.now }
    ensures small { result ≤ 4 * length part.now }
{
    if plain { part.len() } else { size(part) }
}

// Whether each rune of a text takes one byte.
fn is_plain(text: &[Rune]) -> bool
    requires { length text.now < 2 ^ 61 }
    ensures { result ≡ (size text.now == length text.now) }
{
    size(text) == text.len()
}

/// Whether a text that may be known to be plain is known to be so with these runes, too.
pub fn stays_plain(plain: bool, text: &[Rune]) -> bool
    requires { length text.now < 2 ^ 61 }
    ensures { result ≡ true → (plain ≡ true) × (size text.now ≡ length text.now) }
{
    plain && is_plain(text)
}

/// The bytes of a text whose runes take one byte each.
#[tactic(auto, using(crate::proofs::Narrow::each_fits))]
pub fn plain_bytes(alloc: Global, text: &[Rune]) -> Result<Bytes, NoMemory>
    requires { size text.now ≡ length text.now }
    ensures { IfOk result (λ bytes. bytes ≡ utf8 text.now) }
{
    let mut bytes = Bytes::from_vec(Vec::with_capacity(alloc, text.len())?);
    for rune in text {
        bytes.push(*rune as u8)?;
    }
    Ok(bytes)
}

/// What is noted after so many strides, and 0 before the first.
pub fn noted(marks: &[usize], strides: usize) -> usize
    requires { strides ≤ length marks.now }
    ensures { result ≡ noted marks.now strides }
{
    if strides == 0 { 0 } else { marks[strides - 1] }
}

// Notes the strides of a text, of which those of the first runes are noted.
fn mark_front(marks: &mut [usize], text: &[Rune], noted_runes: usize, plain: bool)
    requires room { length text.now < (length marks.old + 1) * stride }
    requires small { length text.now < 2 ^ 61 }
    requires within { noted_runes ≤ length text.now }
    requires marked { IsMarked marks.old text.now noted_runes }
    requires plain { IsPlain plain text.now }
    ensures length { length marks.new ≡ length marks.old }
    ensures marked { IsMarked marks.new text.now (length text.now) }
{
    for k in noted_runes / STRIDE..text.len() / STRIDE {
        let start = k * STRIDE;
        let more = stride_size(&text[start..start + STRIDE], plain);
        marks[k] = noted(marks, k) + more;
    }
}

// Notes the strides of a text counted from its end, of which those of the last runes are noted.
fn mark_back(marks: &mut [usize], text: &[Rune], noted_runes: usize, plain: bool)
    requires room { length text.now < (length marks.old + 1) * stride }
    requires small { length text.now < 2 ^ 61 }
    requires within { noted_runes ≤ length text.now }
    requires marked { IsMarkedBack marks.old text.now noted_runes }
    requires plain { IsPlain plain text.now }
    ensures length { length marks.new ≡ length marks.old }
    ensures marked { IsMarkedBack marks.new text.now (length text.now) }
{
    for k in noted_runes / STRIDE..text.len() / STRIDE {
        let end = text.len() - k * STRIDE;
        let more = stride_size(&text[end - STRIDE..end], plain);
        marks[k] = noted(marks, k) + more;
    }
}

// Makes room for the strides of so many runes. What is noted stays.
fn reserve(marks: &mut Vec<usize>, runes: usize) -> Result<(), NoMemory>
    ensures ok { OnOk result (runes < (length marks.new.items + 1) * stride) }
    ensures longer { length marks.old.items ≤ length marks.new.items }
    ensures stays { (k : ℕ) → k ≤ length marks.old.items → noted marks.new.items k ≡ noted marks.old.items k }
{
    let strides = runes / STRIDE;
    if marks.len() < strides {
        marks.resize(strides, 0)?;
    }
    Ok(())
}

impl Marks {
    /// The marks of the empty text. They take no memory.
    pub fn new(alloc: Global) -> Marks
        ensures before { result.before.items ≡ [] }
        ensures behind { result.behind.items ≡ [] }
        ensures plain { result.plain ≡ true }
    {
        Marks {
            before: Vec::new(alloc),
            behind: Vec::new(alloc),
            plain: true,
        }
    }

    /// Makes room for the marks of a buffer of so many runes. What is noted stays, whatever the answer.
    pub fn reserve(&mut self, runes: usize) -> Result<(), NoMemory>
        ensures plain { self.new.plain ≡ self.old.plain }
        ensures before { OnOk result (runes < (length self.new.before.items + 1) * stride) }
        ensures behind { OnOk result (runes < (length self.new.behind.items + 1) * stride) }
        ensures before_longer { length self.old.before.items ≤ length self.new.before.items }
        ensures behind_longer { length self.old.behind.items ≤ length self.new.behind.items }
        ensures before_stays { (k : ℕ) → k ≤ length self.old.before.items → noted self.new.before.items k
            ≡ noted self.old.before.items k }
        ensures behind_stays { (k : ℕ) → k ≤ length self.old.behind.items → noted self.new.behind.items k
            ≡ noted self.old.behind.items k }
    {
        reserve(&mut self.before, runes)?;
        reserve(&mut self.behind, runes)
    }

    /// Whether there are marks for the strides of a buffer of so many runes.
    pub fn has_room(&self, runes: usize) -> bool
        ensures before { result ≡ true → runes < (length self.now.before.items + 1) * stride }
        ensures behind { result ≡ true → runes < (length self.now.behind.items + 1) * stride }
    {
        let strides = runes / STRIDE;
        strides <= self.before.len() && strides <= self.behind.len()
    }

    /// Notes the strides before a gap and behind it, of which those of the unchanged runes are noted.
    pub fn note(&mut self, buffer: &[Rune], gap: Range, unchanged: Unchanged)
        requires gap { IsGapIn gap buffer.now }
        requires small { length buffer.now < 2 ^ 61 }
        requires before_room { HasRoom self.old.before.items buffer.now }
        requires behind_room { HasRoom self.old.behind.items buffer.now }
        requires front { unchanged.front ≤ gap.q0 }
        requires end { unchanged.end ≤ length buffer.now - gap.q1 }
        requires before { IsMarked self.old.before.items (around gap buffer.now) unchanged.front }
        requires behind { IsMarkedBack self.old.behind.items (around gap buffer.now) unchanged.end }
        requires plain { IsPlain self.old.plain (around gap buffer.now) }
        ensures plain { IsPlain self.new.plain (around gap buffer.now) }
        ensures before_length { length self.new.before.items ≡ length self.old.before.items }
        ensures behind_length { length self.new.behind.items ≡ length self.old.behind.items }
        ensures before { IsMarked self.new.before.items (around gap buffer.now) gap.q0 }
        ensures behind { IsMarkedBack self.new.behind.items (around gap buffer.now) (length buffer.now - gap.q1) }
    {
        mark_front(
            self.before.as_mut_slice(),
            &buffer[..gap.q0],
            unchanged.front,
            self.plain,
        );
        mark_back(
            self.behind.as_mut_slice(),
            &buffer[gap.q1..],
            unchanged.end,
            self.plain,
        );
    }
}

/// The last of the first strides up to which at most so many bytes are noted.
pub fn strides_within(marks: &[usize], strides: usize, bytes: usize) -> usize
    requires { strides ≤ length marks.now }
    ensures most { result ≤ strides }
    ensures within { noted marks.now result ≤ bytes }
    ensures last { result < strides → bytes < noted marks.now (result + 1) }
{
    let mut low = 0;
    let mut high = strides;
    while low < high {
        let middle = high - (high - low) / 2;
        if noted(marks, middle) <= bytes {
            low = middle;
        } else {
            high = middle - 1;
        }
    }
    low
}
