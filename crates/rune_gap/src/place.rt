//! Places of a text with a gap, found by their bytes.

ghost use Rattle.std.specs.Prelude.{◌≡◌, ◌≤◌, ◌<◌, ◌+◌, ◌*◌, ◌^◌, ℕ, length, take};
ghost use Rattle.rune_gap.specs.Gap.{around};
ghost use Rattle.rune_gap.specs.Marks.{stride, size, IsMarked, IsMarkedBack, IsKept};

use crate::marks::{Marks, STRIDE, noted, size, strides_within};
use am_text::{Range, Rune};

/// A place of a text, and how many bytes there are before it.
#[derive(Clone, Copy)]
pub struct Place {
    pub runes: usize,
    pub bytes: usize,
}

// How many bytes there are before a gap.
fn bytes_before(marks: &[usize], side: &[Rune]) -> usize
    requires room { length side.now < (length marks.now + 1) * stride }
    requires small { length side.now < 2 ^ 61 }
    requires marked { IsMarked marks.now side.now (length side.now) }
    ensures { result ≡ size side.now }
{
    let strides = side.len() / STRIDE;
    noted(marks, strides) + size(&side[strides * STRIDE..])
}

// How many bytes there are behind a gap.
fn bytes_behind(marks: &[usize], side: &[Rune]) -> usize
    requires room { length side.now < (length marks.now + 1) * stride }
    requires small { length side.now < 2 ^ 61 }
    requires marked { IsMarkedBack marks.now side.now (length side.now) }
    ensures { result ≡ size side.now }
{
    let strides = side.len() / STRIDE;
    size(&side[..side.len() - strides * STRIDE]) + noted(marks, strides)
}

// Before a gap: the end of the last stride that doesn't end past an offset.
fn place_before(marks: &[usize], side: &[Rune], offset: usize) -> Place
    requires room { length side.now < (length marks.now + 1) * stride }
    requires marked { IsMarked marks.now side.now (length side.now) }
    ensures inside { result.runes ≤ length side.now }
    ensures exact { result.bytes ≡ size (take result.runes side.now) }
    ensures before { result.bytes ≤ offset }
{
    let strides = strides_within(marks, side.len() / STRIDE, offset);
    Place {
        runes: strides * STRIDE,
        bytes: noted(marks, strides),
    }
}

// Behind a gap: the beginning of the last stride that begins before an offset, or the side's beginning.
fn place_behind(marks: &[usize], side: &[Rune], offset: usize) -> Place
    requires room { length side.now < (length marks.now + 1) * stride }
    requires small { length side.now < 2 ^ 61 }
    requires marked { IsMarkedBack marks.now side.now (length side.now) }
    ensures inside { result.runes ≤ length side.now }
    ensures exact { result.bytes ≡ size (take result.runes side.now) }
    ensures before { result.bytes ≤ offset }
{
    let all = bytes_behind(marks, side);
    let most = side.len() / STRIDE;
    let strides = strides_within(marks, most, all.saturating_sub(offset));
    if strides == most {
        return Place { runes: 0, bytes: 0 };
    }
    Place {
        runes: side.len() - (strides + 1) * STRIDE,
        bytes: all - noted(marks, strides + 1),
    }
}

/// A place that isn't past an offset, less than two strides before it where there are as many bytes.
pub fn place_at(marks: &Marks, buffer: &[Rune], gap: Range, offset: usize) -> Place
    requires { IsKept gap buffer.now marks.now.before.items marks.now.behind.items marks.now.plain }
    ensures inside { result.runes ≤ length (around gap buffer.now) }
    ensures exact { result.bytes ≡ size (take result.runes (around gap buffer.now)) }
    ensures before { result.bytes ≤ offset }
{
    let front = &buffer[..gap.q0];
    let before = bytes_before(marks.before.as_slice(), front);
    if offset < before {
        return place_before(marks.before.as_slice(), front, offset);
    }
    let end = &buffer[gap.q1..];
    let place = place_behind(marks.behind.as_slice(), end, offset - before);
    Place {
        runes: gap.q0 + place.runes,
        bytes: before + place.bytes,
    }
}
