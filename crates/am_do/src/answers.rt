//! The lines that are written.

ghost use Rattle.std.specs.Prelude.{◌≡◌, ◌++◌, IfOk};
ghost use Rattle.am_do.specs.Talks.{shown, ok_line, count_line, data_line, error_line, ok_or_error, read_answer};
ghost use Rattle.am_do.specs.Talks.{write_answer, walked, data_in, written};

use am_text::{Bytes, Items, NoMemory, decimal, decode_whole, escape};
use ninep_client::RBody;
use std::alloc::Global;

/// A reply, or the text of an error.
pub(crate) type Reply = Result<RBody, Bytes>;

// Bytes as a text of one line.
fn shown(alloc: Global, bytes: &[u8]) -> Result<Bytes, NoMemory>
    ensures { IfOk result (λ text. text ≡ shown bytes.now) }
{
    escape(alloc, decode_whole(alloc, bytes)?.as_slice())
}

#[tactic(auto, unfolding(crate::specs::Talks::ok_line))]
pub(crate) fn ok_line(alloc: Global) -> Result<Bytes, NoMemory>
    ensures { IfOk result (λ line. line ≡ ok_line) }
{
    let mut line = Items::new(alloc);
    line.append(b"ok")?;
    line.append(b"\n")?;
    Ok(line)
}

#[tactic(auto, using(crate::proofs::Joined::joined), unfolding(crate::specs::Talks::count_line))]
fn count_line(alloc: Global, count: u32) -> Result<Bytes, NoMemory>
    ensures { IfOk result (λ line. line ≡ count_line count) }
{
    let mut line = Items::new(alloc);
    line.append(b"ok ")?;
    line.append(decimal(alloc, u64::from(count))?.as_slice())?;
    line.append(b"\n")?;
    Ok(line)
}

#[tactic(auto, using(crate::proofs::Joined::joined), unfolding(crate::specs::Talks::data_line))]
fn data_line(alloc: Global, bytes: &[u8]) -> Result<Bytes, NoMemory>
    ensures { IfOk result (λ line. line ≡ data_line bytes.now) }
{
    let mut line = Items::new(alloc);
    line.append(b"data :")?;
    line.append(shown(alloc, bytes)?.as_slice())?;
    line.append(b"\n")?;
    Ok(line)
}

/// The line of an error.
#[tactic(auto, using(crate::proofs::Joined::joined), unfolding(crate::specs::Talks::error_line))]
pub(crate) fn error_line(alloc: Global, text: &[u8]) -> Result<Bytes, NoMemory>
    ensures { IfOk result (λ line. line ≡ error_line text.now) }
{
    let mut line = Items::new(alloc);
    line.append(b"error :")?;
    line.append(shown(alloc, text)?.as_slice())?;
    line.append(b"\n")?;
    Ok(line)
}

/// How many qids a reply to a walk has.
pub(crate) fn walked(reply: &RBody) -> usize
    ensures { result ≡ walked reply.now }
{
    match reply {
        RBody::Walk { qids } => qids.len(),
        _ => 0,
    }
}

fn written(reply: &RBody) -> u32
    ensures { result ≡ written reply.now }
{
    match reply {
        RBody::Write { count } => *count,
        _ => 0,
    }
}

fn data_in(reply: &RBody) -> &[u8]
    ensures { result.now ≡ data_in reply.now }
{
    match reply {
        RBody::Read { bytes } => bytes.as_slice(),
        _ => b"",
    }
}

/// The answer to a line whose message was answered so, where the reply itself tells nothing.
pub(crate) fn ok_or_error(alloc: Global, reply: Reply) -> Result<Bytes, NoMemory>
    ensures { IfOk result (λ line. line ≡ ok_or_error reply) }
{
    match reply {
        Ok(_) => ok_line(alloc),
        Err(text) => error_line(alloc, text.as_slice()),
    }
}

/// The answer to a line that reads.
pub(crate) fn read_answer(alloc: Global, reply: Reply) -> Result<Bytes, NoMemory>
    ensures { IfOk result (λ line. line ≡ read_answer reply) }
{
    match reply {
        Ok(reply) => data_line(alloc, data_in(&reply)),
        Err(text) => error_line(alloc, text.as_slice()),
    }
}

/// The answer to a line that writes.
pub(crate) fn write_answer(alloc: Global, reply: Reply) -> Result<Bytes, NoMemory>
    ensures { IfOk result (λ line. line ≡ write_answer reply) }
{
    match reply {
        Ok(reply) => count_line(alloc, written(&reply)),
        Err(text) => error_line(alloc, text.as_slice()),
    }
}
