//! The files `data` and `xdata`.

ghost use Rattle.std.specs.Prelude.{◌≡◌, ◌≤◌, ◌+◌, ◌-◌, nat_le, IfOk, IfErr, Ok, length, slice_range, None};
ghost use Rattle.am_text.specs.Utf8.{rune_bytes};
ghost use Rattle.edit_log.specs.Edited.{text_after};
ghost use Rattle.win_text.specs.Bodies.{IsInside};
ghost use Rattle.win_text.specs.BodyStories.{IsChangeOf};
ghost use Rattle.win_text.specs.Limits.{body_runes};
ghost use Rattle.core_addresses.specs.Data.{runes_within, whole_runes, data_given, xdata_given, replacement, takes};
ghost use Rattle.core_addresses.specs.Data.{data_taken, Tells};

use crate::fault::RangeFault;
use am_text::{Bytes, Items, Letters, NoMemory, Part, Range, Rune, Runes, decode_part, encode};
use edit_log::{Edit, Edits};
use std::alloc::Global;
use win_text::{BODY_RUNES, Body};

/// What a read of `data` or `xdata` gives, and the range that `addr` then is.
#[derive(Drop)]
pub struct Given {
    pub bytes: Bytes,
    pub addr: Range,
}

/// The edits that a write to `data` or `xdata` makes, and the range that `addr` is after them.
#[derive(Drop)]
pub struct Taken {
    pub edits: Edits,
    pub addr: Range,
}

// How many bytes a rune has; what is no Unicode scalar value is written as U+FFFD.
fn width(rune: Rune) -> usize
    ensures exact { result ≡ length (rune_bytes rune) }
    ensures some { 1 ≤ result }
{
    match char::from_u32(rune) {
        Some(c) => c.len_utf8(),
        None => char::REPLACEMENT_CHARACTER.len_utf8(),
    }
}

// How many runes of a body, from one place on and before another, have all their bytes in so many. No more runes
// than those and one are looked at.
#[tactic(auto, using(crate::proofs::Fitted::fitted))]
fn runes_within(body: &Body, from: usize, to: usize, count: usize) -> usize
    requires order { from ≤ to }
    requires bounds { to ≤ length body.now.state.text }
    ensures exact { result ≡ runes_within count (slice_range body.now.state.text from to) }
    ensures within { result ≤ to - from }
{
    let mut room = count;
    let mut at = from;
    while at < to {
        let width = width(body.at(at));
        if room < width {
            return at - from;
        }
        room -= width;
        at += 1;
    }
    at - from
}

// Whole runes of a body, from one place on and before another, as many as fit, and how many they are.
#[tactic(auto, using(crate::proofs::Fitted::range_front))]
fn whole_runes(
    alloc: Global,
    body: &Body,
    from: usize,
    to: usize,
    count: usize,
) -> Result<(Bytes, usize), NoMemory>
    requires order { from ≤ to }
    requires bounds { to ≤ length body.now.state.text }
    ensures bytes { IfOk result (λ given. given.0 ≡ whole_runes count (slice_range body.now.state.text from to)) }
    ensures runes { IfOk result (λ given. given.1 ≡ runes_within count (slice_range body.now.state.text from to)) }
    ensures small { IfOk result (λ given. length given.0 ≤ count) }
    ensures within { IfOk result (λ given. given.1 ≤ to - from) }
{
    let runes = runes_within(body, from, to, count);
    let text = body.slice(from, from + runes)?;
    Ok((encode(alloc, &text)?, runes))
}

/// What a read of `data` gives: whole runes from the start of `addr` on, as many as fit in `count` bytes. `addr` then
/// is the null range behind them.
pub fn data_given(alloc: Global, body: &Body, count: usize) -> Result<Given, NoMemory>
    ensures exact { IfOk result (λ given. given ≡ data_given body.now.state count) }
    ensures small { IfOk result (λ given. length given.bytes ≤ count) }
    ensures inside { IfOk result (λ given. IsInside body.now.state.text given.addr) }
{
    // law: the ranges of a body are inside its text
    body.is_sound();
    let from = body.addr().q0;
    let (bytes, runes) = whole_runes(alloc, body, from, body.len(), count)?;
    let behind = from + runes;
    Ok(Given {
        bytes,
        addr: Range {
            q0: behind,
            q1: behind,
        },
    })
}

/// What a read of `xdata` gives: as `data`, but it stops at the end of `addr`, which stays where it is. The start of
/// `addr` then stands behind what was given.
pub fn xdata_given(alloc: Global, body: &Body, count: usize) -> Result<Given, NoMemory>
    ensures exact { IfOk result (λ given. given ≡ xdata_given body.now.state count) }
    ensures small { IfOk result (λ given. length given.bytes ≤ count) }
    ensures inside { IfOk result (λ given. IsInside body.now.state.text given.addr) }
{
    // law: the ranges of a body are inside its text
    body.is_sound();
    let Range { q0, q1 } = body.addr();
    let (bytes, runes) = whole_runes(alloc, body, q0, q1, count)?;
    Ok(Given {
        bytes,
        addr: Range { q0: q0 + runes, q1 },
    })
}

/// The edit that puts a text in the place of a range; of a null range by an empty text it is none.
pub fn replacement(alloc: Global, range: Range, text: Runes) -> Result<Edits, NoMemory>
    ensures { IfOk result (λ edits. edits ≡ replacement range text) }
{
    let mut edits = Items::new(alloc);
    if range.q0 != range.q1 || !text.is_empty() {
        edits.push(Edit {
            q0: range.q0,
            q1: range.q1,
            text,
        })?;
    }
    Ok(edits)
}

// Whether a body has room for so many runes in the place of a range.
fn fits(body: &Body, range: Range, more: usize) -> bool
    requires { IsInside body.now.state.text range }
    ensures { result ≡ nat_le (length body.now.state.text - (range.q1 - range.q0) + more) body_runes }
{
    let kept = body.len() - (range.q1 - range.q0);
    more <= BODY_RUNES && kept <= BODY_RUNES - more
}

// The text takes the place of `addr`.
fn takes(alloc: Global, body: &Body, text: Runes) -> Result<Taken, NoMemory>
    requires { length body.now.state.text - (body.now.state.addr.q1 - body.now.state.addr.q0) + length text
        ≤ body_runes }
    ensures exact { IfOk result (λ taken. taken ≡ takes body.now.state text) }
    ensures possible { IfOk result (λ taken. IsChangeOf body.now.state.text
        (record { edits = taken.edits; dot = None })) }
    ensures inside { IfOk result (λ taken. IsInside (text_after body.now.state.text taken.edits) taken.addr) }
{
    // law: the ranges of a body are inside its text
    body.is_sound();
    let addr = body.addr();
    let behind = addr.q0 + text.len();
    Ok(Taken {
        edits: replacement(alloc, addr, text)?,
        addr: Range {
            q0: behind,
            q1: behind,
        },
    })
}

/// What a write to `data` or `xdata` does: the text takes the place of `addr`, which then is the null range behind it.
/// `PartialRune` comes exactly where the bytes end in an unfinished rune, else `TooLong` exactly where the body would
/// have more than 16,777,216 runes.
pub fn data_taken(alloc: Global, body: &Body, bytes: &[u8]) -> Result<Taken, RangeFault>
    ensures exact { IfOk result (λ taken. data_taken body.now.state bytes.now ≡ Ok taken) }
    ensures fault { IfErr result (λ e. Tells e (data_taken body.now.state bytes.now)) }
    ensures possible { IfOk result (λ taken. IsChangeOf body.now.state.text
        (record { edits = taken.edits; dot = None })) }
    ensures inside { IfOk result (λ taken. IsInside (text_after body.now.state.text taken.edits) taken.addr) }
{
    let (text, rest) = decode_part(alloc, &Part::empty(), bytes)?;
    if !rest.is_empty() {
        return Err(RangeFault::PartialRune);
    }
    // law: the ranges of a body are inside its text
    body.is_sound();
    if !fits(body, body.addr(), text.len()) {
        return Err(RangeFault::TooLong);
    }
    Ok(takes(alloc, body, text)?)
}
