//! The lines of `log`, and what is written to `jobs`.

ghost use Rattle.std.specs.Prelude.{◌≡◌, ◌==◌, ◌<◌, ◌++◌, [], length, position, IfOk, IfSome};
ghost use Rattle.am_text.specs.Ascii.{space};
ghost use Rattle.acme_watch.specs.Lines.{op_word, log_line, outcome_of, said_as, said_of};

use crate::types::Op;
use am_text::{Bytes, NoMemory, escape, put_around, read_decimal};
use std::alloc::Global;

#[tactic(auto, unfolding(crate::specs::Lines::op_word))]
fn op_word(op: Op) -> &'static [u8]
    ensures { result.now ≡ op_word op }
{
    match op {
        Op::New => b"new ",
        Op::Del => b"del ",
        Op::Name => b"name ",
        Op::Get => b"get ",
        Op::Put => b"put ",
    }
}

/// The line of `log`.
#[tactic(auto, using(am_text::proofs::Joined::words), unfolding(crate::specs::Lines::log_line))]
pub(crate) fn log_line(alloc: Global, window: u32, op: Op, name: &[u32]) -> Result<Bytes, NoMemory>
    ensures { IfOk result (λ bytes. bytes ≡ log_line window op name.now) }
{
    let mut out = Bytes::new(alloc);
    put_around(alloc, &mut out, b"", u64::from(window), b" ")?;
    out.append(op_word(op))?;
    out.append(escape(alloc, name)?.as_slice())?;
    out.append(b"\n")?;
    Ok(out)
}

/// An answer to a request.
#[derive(Clone, Copy, Debug)]
pub(crate) struct Told {
    pub number: u64,
    pub good: bool,
}

#[tactic(auto, unfolding(crate::specs::Lines::outcome_of))]
fn outcome(word: &[u8]) -> Option<bool>
    ensures { result ≡ outcome_of word.now }
{
    if word == b" ok\n".as_slice() {
        return Some(true);
    }
    if word == b" fail\n".as_slice() {
        return Some(false);
    }
    None
}

// Where the first blank stands.
fn blank_of(bytes: &[u8]) -> Option<usize>
    ensures place { result ≡ position (λ b. b == space) bytes.now }
    ensures within { IfSome result (λ place. place < length bytes.now) }
{
    bytes.iter().position(|b| *b == b' ')
}

// The answer of both parts, where both are there.
fn answer_of(number: Option<u64>, good: Option<bool>) -> Option<Told>
    ensures { result ≡ said_as number good }
{
    let Some(number) = number else {
        return None;
    };
    let Some(good) = good else {
        return None;
    };
    Some(Told { number, good })
}

/// The answer that the bytes are.
pub(crate) fn said(bytes: &[u8]) -> Option<Told>
    ensures { result ≡ said_of bytes.now }
{
    let Some(place) = blank_of(bytes) else {
        return None;
    };
    let (front, word) = bytes.split_at(place);
    answer_of(read_decimal(front), outcome(word))
}
