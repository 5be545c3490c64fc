//! The lines of a text.

ghost use Rattle.std.specs.Prelude.{◌≡◌, ◌<◌, ◌≤◌, ◌+◌, length, drop, IfOk, IfSome, Some};
ghost use Rattle.sam_address.specs.Lines.{after_newlines, starts_from, nth, line_at};
ghost use Rattle.sam_address.specs.Value.{line_from, lines_on, lines_back, null_at, IsInside};

use crate::fault::AddrFault;
use am_text::{Letters, NEWLINE, Range};

/// The null range at a place.
pub fn null_at(place: usize) -> Range
    ensures { result ≡ null_at place }
{
    Range {
        q0: place,
        q1: place,
    }
}

// The place after the n-th newline that isn't before a place.
fn after_newline<T: Letters>(text: &T, from: usize, n: u64) -> Option<usize>
    requires counted { 0 < n }
    requires within { from ≤ length (T.letters text.now) }
    ensures value { result ≡ nth (after_newlines from (drop from (T.letters text.now))) n }
    ensures inside { IfSome result (λ p. (from < p) × (p ≤ length (T.letters text.now))) }
{
    let mut left = n;
    for at in from..text.len() {
        if text.at(at) == NEWLINE {
            if left == 1 {
                return Some(at + 1);
            }
            left -= 1;
        }
    }
    None
}

// The n-th line start that isn't below a place.
#[tactic(auto, using(crate::proofs::Starts::starts_found))]
fn start_from<T: Letters>(text: &T, place: usize, n: u64) -> Option<usize>
    requires counted { 0 < n }
    requires within { place ≤ length (T.letters text.now) }
    ensures value { result ≡ nth (starts_from (T.letters text.now) place) n }
    ensures inside { IfSome result (λ s. (place ≤ s) × (s ≤ length (T.letters text.now))) }
{
    if place > 0 {
        return after_newline(text, place - 1, n);
    }
    if n == 1 {
        return Some(0);
    }
    after_newline(text, 0, n - 1)
}

// Where the line that begins at a place ends, after its newline.
#[tactic(auto, using(crate::proofs::Starts::starts_found))]
fn line_end<T: Letters>(text: &T, start: usize) -> usize
    requires { start ≤ length (T.letters text.now) }
    ensures value { result ≡ (line_at (T.letters text.now) start).q1 }
    ensures inside { (start ≤ result) × (result ≤ length (T.letters text.now)) }
{
    match after_newline(text, start, 1) {
        Some(end) => end,
        None => text.len(),
    }
}

/// The n-th line from a place on.
pub fn line_from<T: Letters>(text: &T, place: usize, n: u64) -> Result<Range, AddrFault>
    requires counted { 0 < n }
    requires within { place ≤ length (T.letters text.now) }
    ensures value { result ≡ line_from (T.letters text.now) (nth (starts_from (T.letters text.now) place) n) }
    ensures inside { IfOk result (IsInside (T.letters text.now)) }
{
    match start_from(text, place, n) {
        Some(start) => Ok(Range {
            q0: start,
            q1: line_end(text, start),
        }),
        None => Err(AddrFault::Range),
    }
}

/// The n-th line from a place on, and for 0 the null range there.
pub fn lines_on<T: Letters>(text: &T, place: usize, n: u64) -> Result<Range, AddrFault>
    requires { place ≤ length (T.letters text.now) }
    ensures value { result ≡ lines_on (T.letters text.now) place n }
    ensures inside { IfOk result (IsInside (T.letters text.now)) }
{
    if n == 0 {
        return Ok(null_at(place));
    }
    line_from(text, place, n)
}

// The n-th line before the one that has a place, or the null range at 0 where that is one step further.
fn line_back<T: Letters>(text: &T, place: usize, n: u64) -> Result<Range, AddrFault>
    requires counted { 0 < n }
    requires within { place ≤ length (T.letters text.now) }
    ensures value { result ≡ lines_back (T.letters text.now) place n }
    ensures inside { IfOk result (IsInside (T.letters text.now)) }
{
    let mut left = n;
    let mut end = place;
    let mut at = place;
    while at > 0 {
        if text.at(at - 1) == NEWLINE {
            if left == 0 {
                return Ok(Range { q0: at, q1: end });
            }
            left -= 1;
            end = at;
        }
        at -= 1;
    }
    match left {
        0 => Ok(Range { q0: 0, q1: end }),
        1 => Ok(null_at(0)),
        _ => Err(AddrFault::Range),
    }
}

/// The n-th line before the one that has a place, and for 0 the null range there.
pub fn lines_back<T: Letters>(text: &T, place: usize, n: u64) -> Result<Range, AddrFault>
    requires { place ≤ length (T.letters text.now) }
    ensures value { result ≡ lines_back (T.letters text.now) place n }
    ensures inside { IfOk result (IsInside (T.letters text.now)) }
{
    if n == 0 {
        return Ok(null_at(place));
    }
    line_back(text, place, n)
}
