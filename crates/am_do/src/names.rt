//! The names of an opening.

ghost use Rattle.std.specs.Prelude.{◌≡◌, ◌≤◌, ◌<◌, [], length, IfOk, option_copied};
ghost use Rattle.std.specs.List.{list_all};
ghost use Rattle.am_do.specs.Fields.{is_name, is_visible, first_name, after_name, names_at};

use am_text::{Items, Names, NoMemory, is_utf8};
use ninep_types::MAX_NAMES;
use std::alloc::Global;

/// The most bytes of a name.
const MOST_NAME_BYTES: usize = 65_535;

fn is_visible(byte: u8) -> bool
    ensures { result ≡ is_visible byte }
{
    b' ' < byte
}

fn are_visible(name: &[u8]) -> bool
    ensures { result ≡ list_all is_visible name.now }
{
    name.iter().all(|b| is_visible(*b))
}

fn is_name(name: &[u8]) -> bool
    ensures { result ≡ is_name name.now }
{
    !name.is_empty() && name.len() <= MOST_NAME_BYTES && is_utf8(name) && are_visible(name)
}

// The bytes up to the first `/`, and those after it, if there is one.
fn cut_name(bytes: &[u8]) -> (&[u8], Option<&[u8]>)
    ensures name { result.0.now ≡ first_name bytes.now }
    ensures rest { option_copied result.1 ≡ after_name bytes.now }
{
    let mut at = 0;
    for b in bytes {
        if *b == b'/' {
            let (name, rest) = bytes.split_at(at);
            return (name, Some(rest.split_at(1).1));
        }
        at += 1;
    }
    (bytes, None)
}

/// The names that stand between slashes: 1 to 16.
pub(crate) fn names_of(alloc: Global, bytes: &[u8]) -> Result<Option<Names>, NoMemory>
    ensures { IfOk result (λ names. names ≡ names_at bytes.now) }
{
    let mut names = Items::new(alloc);
    let mut rest = bytes;
    let mut left = MAX_NAMES;
    while 0 < left {
        let (name, after) = cut_name(rest);
        if !is_name(name) {
            return Ok(None);
        }
        names.push(Items::copied(alloc, name)?)?;
        match after {
            Some(after) => rest = after,
            None => return Ok(Some(names)),
        }
        left -= 1;
    }
    Ok(None)
}
