//! How answers are written that several tables give.

use crate::fault::Fault;
use am_text::{Bytes, Items, decode_whole, escape};
use std::alloc::Global;
use wait_queue::{Asked, Asker, Piece};

/// A word.
pub fn says(alloc: Global, word: &str) -> Result<Bytes, Fault> {
    Ok(Bytes::copied(alloc, word.as_bytes())?)
}

/// Whether it is so.
pub fn says_whether(alloc: Global, so: bool) -> Result<Bytes, Fault> {
    says(alloc, if so { "yes" } else { "no" })
}

/// Puts the bytes of a text at the end of a line.
pub fn put_text(alloc: Global, line: &mut Bytes, bytes: &[u8]) -> Result<(), Fault> {
    let text = decode_whole(alloc, bytes)?;
    line.append(escape(alloc, text.as_slice())?.as_slice())?;
    Ok(())
}

fn asker_line(alloc: Global, asker: Asker) -> Result<Bytes, Fault> {
    let line = format!(in alloc;
        "{},{},{},{}",
        asker.conn, asker.tag, asker.opening, asker.count
    )?;
    Ok(Items::from_vec(line.into_bytes()))
}

/// The read that is the next, if there is one.
pub fn next_line(alloc: Global, next: Option<Asker>) -> Result<Bytes, Fault> {
    match next {
        Some(asker) => asker_line(alloc, asker),
        None => says(alloc, "none"),
    }
}

/// What a read gets.
pub fn asked_line(alloc: Global, asked: &Asked) -> Result<Bytes, Fault> {
    let Asked::Now(piece) = asked else {
        return says(alloc, "waits");
    };
    let mut line = says(alloc, "gets \"")?;
    put_text(alloc, &mut line, piece.bytes.as_slice())?;
    line.append(b"\"")?;
    Ok(line)
}

/// The read that is answered, if there is one, and what it gets.
pub fn served_line(alloc: Global, served: Option<(Asker, Piece)>) -> Result<Bytes, Fault> {
    let Some((asker, piece)) = served else {
        return says(alloc, "none");
    };
    let mut line = asker_line(alloc, asker)?;
    line.append(b" ")?;
    line.append(asked_line(alloc, &Asked::Now(piece))?.as_slice())?;
    Ok(line)
}
