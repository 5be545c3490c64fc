//! Paths of files in a line.

ghost use Rattle.std.specs.Prelude.{◌≡◌, ◌<◌, ◌≤◌, ◌∷◌, [], length, IfOk, IfSome, IfNone};
ghost use Rattle.std.specs.List.{list_all, slice_split, position_or_len};
ghost use Rattle.acme_cmd.specs.Names.{is_slash, is_here, is_up};
ghost use Rattle.acme_cmd.specs.Paths.{is_path_rune, is_part, is_path};
ghost use Rattle.am_journal.specs.Line.{path_at};

use am_text::{Bytes, NoMemory, is_utf8};
use std::alloc::Global;

// The place of the first `/`, or the length.
fn first_slash(bytes: &[u8]) -> usize
    ensures exact { result ≡ position_or_len is_slash bytes.now }
    ensures inside { result ≤ length bytes.now }
{
    let mut at = 0;
    for byte in bytes {
        if *byte == b'/' {
            return at;
        }
        at += 1;
    }
    at
}

// The first part and what follows its `/`, if there is one.
#[tactic(auto, using(acme_cmd::proofs::Cuts::cuts))]
fn cut_part(bytes: &[u8]) -> Option<(&[u8], &[u8])>
    ensures cut { IfSome result (λ cut. slice_split is_slash bytes.now ≡ cut.0.now ∷ slice_split is_slash cut.1.now) }
    ensures shorter { IfSome result (λ cut. length cut.1.now < length bytes.now) }
    ensures one { IfNone result (slice_split is_slash bytes.now ≡ bytes.now ∷ []) }
{
    let at = first_slash(bytes);
    if at == bytes.len() {
        return None;
    }
    let (part, rest) = bytes.split_at(at);
    Some((part, rest.split_at(1).1))
}

fn is_here(part: &[u8]) -> bool
    ensures { result ≡ is_here part.now }
{
    match part {
        [byte] => *byte == b'.',
        _ => false,
    }
}

fn is_up(part: &[u8]) -> bool
    ensures { result ≡ is_up part.now }
{
    match part {
        [first, second] => *first == b'.' && *second == b'.',
        _ => false,
    }
}

// Whether all bytes may stand in a path.
fn has_path_bytes(part: &[u8]) -> bool
    ensures { result ≡ list_all is_path_rune part.now }
{
    let mut rest = part;
    while let [byte, after @ ..] = rest {
        if *byte <= b' ' || *byte == b'\\' {
            return false;
        }
        rest = after;
    }
    true
}

// Whether this may stand between slashes.
fn is_part(part: &[u8]) -> bool
    ensures { result ≡ is_part part.now }
{
    !part.is_empty() && !is_here(part) && !is_up(part) && has_path_bytes(part)
}

// Whether all that stands between slashes may do so.
#[tactic(auto, using(acme_cmd::proofs::Cuts::cuts))]
fn has_parts(bytes: &[u8]) -> bool
    ensures { result ≡ list_all is_part (slice_split is_slash bytes.now) }
{
    let mut rest = bytes;
    while let Some((part, after)) = cut_part(rest) {
        if !is_part(part) {
            return false;
        }
        rest = after;
    }
    is_part(rest)
}

fn is_path(bytes: &[u8]) -> bool
    ensures { result ≡ is_path bytes.now }
{
    match bytes {
        [first, rest @ ..] => *first == b'/' && has_parts(rest),
        [] => false,
    }
}

/// The path of a file or a directory below `/` that the bytes are, if they are one.
pub(crate) fn path_of(alloc: Global, bytes: &[u8]) -> Result<Option<Bytes>, NoMemory>
    ensures { IfOk result (λ path. path ≡ path_at bytes.now) }
{
    if is_utf8(bytes) && is_path(bytes) {
        Ok(Some(Bytes::copied(alloc, bytes)?))
    } else {
        Ok(None)
    }
}
