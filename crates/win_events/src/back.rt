//! Event messages that are written back.

ghost use Rattle.std.specs.Prelude.{◌≡◌, ◌<◌, ℕ, IfSome, IfNone, length};
ghost use Rattle.win_events.specs.Back.{IsBack, origin_of, action_of, digits, after_digits, is_end, last_number};
ghost use Rattle.win_events.specs.Back.{in_order, range_of, message_of, back_of};
ghost use Rattle.win_events.specs.declared.item.BackMsg.{BackMsg};

use crate::item::{BackMsg, Origin, Sort};
use am_text::{Range, read_decimal};

fn origin_of(letter: u8) -> Option<Origin>
    ensures { result ≡ origin_of letter }
{
    match letter {
        b'E' => Some(Origin::E),
        b'F' => Some(Origin::F),
        b'K' => Some(Origin::K),
        b'M' => Some(Origin::M),
        _ => None,
    }
}

// The type of an action, which alone can be written back.
fn action_of(letter: u8) -> Option<Sort>
    ensures { result ≡ action_of letter }
{
    match letter {
        b'X' => Some(Sort::BodyExec),
        b'x' => Some(Sort::TagExec),
        b'L' => Some(Sort::BodyLook),
        b'l' => Some(Sort::TagLook),
        _ => None,
    }
}

// The digits in front, and what follows them.
fn split_digits(bytes: &[u8]) -> (&[u8], &[u8])
    ensures front { result.0.now ≡ digits bytes.now }
    ensures rest { result.1.now ≡ after_digits bytes.now }
{
    let mut at = 0;
    for b in bytes {
        if !b.is_ascii_digit() {
            return bytes.split_at(at);
        }
        at += 1;
    }
    bytes.split_at(at)
}

// Any blanks, a newline, and no more.
fn is_end(bytes: &[u8]) -> bool
    ensures { result ≡ is_end bytes.now }
{
    let mut rest = bytes;
    while let [b' ', after @ ..] = rest {
        rest = after;
    }
    match rest {
        [b'\n'] => true,
        _ => false,
    }
}

fn last_number(bytes: &[u8]) -> Option<u64>
    ensures { result ≡ last_number bytes.now }
{
    let [b, after @ ..] = bytes else {
        return None;
    };
    let (front, rest) = split_digits(after);
    if *b == b' ' && is_end(rest) {
        return read_decimal(front);
    }
    None
}

fn in_order(a: Option<u64>, b: Option<u64>) -> Option<Range>
    ensures { result ≡ in_order a b }
{
    match (a, b) {
        (Some(a), Some(b)) if a <= b => Some(Range {
            q0: a as usize,
            q1: b as usize,
        }),
        _ => None,
    }
}

fn message_of(origin: Option<Origin>, sort: Option<Sort>, range: Option<Range>) -> Option<BackMsg>
    ensures { result ≡ message_of origin sort range }
{
    match (origin, sort, range) {
        (Some(origin), Some(sort), Some(range)) => Some(BackMsg {
            origin,
            sort,
            range,
        }),
        _ => None,
    }
}

fn range_of(bytes: &[u8]) -> Option<Range>
    ensures { result ≡ range_of bytes.now }
{
    let (front, rest) = split_digits(bytes);
    in_order(read_decimal(front), last_number(rest))
}

/// The event message that a client writes back: origin, type, the range's two ends with a blank
/// between, any blanks, a newline. None exactly where the bytes are no such message. It takes no
/// memory.
#[tactic(auto, using(crate::proofs::BackLemmas::backs))]
pub fn read_back(bytes: &[u8]) -> Option<BackMsg>
    ensures exact { result ≡ back_of bytes.now }
    ensures some { IfSome result (λ m. IsBack bytes.now m) }
    ensures none { IfNone result ((m : BackMsg) → IsBack bytes.now m → ⊥) }
{
    back_of(bytes)
}

fn back_of(bytes: &[u8]) -> Option<BackMsg>
    ensures { result ≡ back_of bytes.now }
{
    match bytes {
        [origin, sort, rest @ ..] => {
            message_of(origin_of(*origin), action_of(*sort), range_of(rest))
        }
        _ => None,
    }
}
