//! Names of files made whole with a directory.

ghost use Rattle.std.specs.Prelude.{◌≡◌, ◌<◌, ◌≤◌, ◌++◌, ◌∷◌, [], length, IfOk, OnOk, IfSome, IfNone};
ghost use Rattle.std.specs.List.{slice_split, join_with_byte, position_or_len};
ghost use Rattle.am_text.specs.Ascii.{slash};
ghost use Rattle.acme_cmd.specs.Names.{is_slash, begins_in_slash, ends_in_slash, with_slash, joined, is_here, is_up};
ghost use Rattle.acme_cmd.specs.Names.{but_last, after_part, left_of, path, resolved, whole_name};

use am_text::{DOT, NoMemory, Rune, Runes, SLASH};
use std::alloc::Global;

fn begins_in_slash(text: &[Rune]) -> bool
    ensures { result ≡ begins_in_slash text.now }
{
    match text {
        [first, ..] => *first == SLASH,
        [] => false,
    }
}

fn ends_in_slash(text: &[Rune]) -> bool
    ensures { result ≡ ends_in_slash text.now }
{
    match text {
        [.., last] => *last == SLASH,
        [] => false,
    }
}

// A directory, with a `/` at its end.
fn with_slash(alloc: Global, dir: &[Rune]) -> Result<Runes, NoMemory>
    ensures { IfOk result (λ text. text ≡ with_slash dir.now) }
{
    let mut text = Runes::copied(alloc, dir)?;
    if !ends_in_slash(dir) {
        text.push(SLASH)?;
    }
    Ok(text)
}

// The name seen from the directory.
fn joined(alloc: Global, dir: &[Rune], name: &[Rune]) -> Result<Runes, NoMemory>
    ensures { IfOk result (λ text. text ≡ joined dir.now name.now) }
{
    if begins_in_slash(name) {
        return Runes::copied(alloc, name);
    }
    let mut text = with_slash(alloc, dir)?;
    text.append(name)?;
    Ok(text)
}

pub(crate) fn is_here(part: &[Rune]) -> bool
    ensures { result ≡ is_here part.now }
{
    match part {
        [rune] => *rune == DOT,
        _ => false,
    }
}

pub(crate) fn is_up(part: &[Rune]) -> bool
    ensures { result ≡ is_up part.now }
{
    match part {
        [first, second] => *first == DOT && *second == DOT,
        _ => false,
    }
}

// The parts that are left, one part more: `.` goes, `..` takes the part before it.
#[tactic(auto, unfolding(crate::specs::Names::after_part))]
fn add_part(alloc: Global, left: &mut Vec<Runes>, part: &[Rune]) -> Result<(), NoMemory>
    ensures { OnOk result (left.new.items ≡ after_part left.old.items part.now) }
{
    if is_here(part) {
        return Ok(());
    }
    if is_up(part) {
        left.pop();
        return Ok(());
    }
    left.push(Runes::copied(alloc, part)?)?;
    Ok(())
}

// The place of the first `/`, or the length.
fn first_slash(text: &[Rune]) -> usize
    ensures exact { result ≡ position_or_len is_slash text.now }
    ensures inside { result ≤ length text.now }
{
    let mut at = 0;
    for rune in text {
        if *rune == SLASH {
            return at;
        }
        at += 1;
    }
    at
}

// The first part and what follows its `/`, if there is one.
#[tactic(auto, using(crate::proofs::Cuts::cuts))]
pub(crate) fn cut_part(text: &[Rune]) -> Option<(&[Rune], &[Rune])>
    ensures cut { IfSome result (λ cut. slice_split is_slash text.now ≡ cut.0.now ∷ slice_split is_slash cut.1.now) }
    ensures shorter { IfSome result (λ cut. length cut.1.now < length text.now) }
    ensures one { IfNone result (slice_split is_slash text.now ≡ text.now ∷ []) }
{
    let at = first_slash(text);
    if at == text.len() {
        return None;
    }
    let (part, rest) = text.split_at(at);
    Some((part, rest.split_at(1).1))
}

// The parts that are left of a text.
fn left_of(alloc: Global, text: &[Rune]) -> Result<Vec<Runes>, NoMemory>
    ensures { IfOk result (λ left. left.items ≡ left_of (slice_split is_slash text.now)) }
{
    let mut left = Vec::new(alloc);
    let mut rest = text;
    while let Some((part, after)) = cut_part(rest) {
        add_part(alloc, &mut left, part)?;
        rest = after;
    }
    add_part(alloc, &mut left, rest)?;
    Ok(left)
}

// The parts with a `/` between any two.
fn with_slashes(alloc: Global, parts: &[Runes]) -> Result<Runes, NoMemory>
    ensures { IfOk result (λ text. text ≡ join_with_byte slash parts.now) }
{
    let [first, others @ ..] = parts else {
        return Ok(Runes::new(alloc));
    };
    let mut text = Runes::copied(alloc, first.as_slice())?;
    for part in others {
        text.push(SLASH)?;
        text.append(part.as_slice())?;
    }
    Ok(text)
}

fn path(alloc: Global, text: &[Rune]) -> Result<Runes, NoMemory>
    ensures { IfOk result (λ made. made ≡ path text.now) }
{
    let parts = left_of(alloc, text)?;
    with_slashes(alloc, parts.as_slice())
}

fn rooted(alloc: Global, text: &[Rune]) -> Result<Runes, NoMemory>
    ensures { IfOk result (λ whole. whole ≡ slash ∷ path text.now) }
{
    let mut whole = Runes::new(alloc);
    whole.push(SLASH)?;
    whole.append(path(alloc, text)?.as_slice())?;
    Ok(whole)
}

fn resolved(alloc: Global, text: &[Rune]) -> Result<Runes, NoMemory>
    ensures { IfOk result (λ whole. whole ≡ resolved text.now) }
{
    match text {
        [first, after @ ..] if *first == SLASH => rooted(alloc, after),
        _ => path(alloc, text),
    }
}

/// A name of a file made whole with a directory.
///
/// A name that begins with `/` is taken as it is, another is put behind the directory, with a `/`
/// between where the directory doesn't end in one. Then the parts `.` and `..` are taken away, and with
/// each `..` the part before it, if there is one. Empty parts and a last `/` stay. It fails for want of
/// memory alone.
pub fn whole(alloc: Global, dir: &[Rune], name: &[Rune]) -> Result<Runes, NoMemory>
    ensures exact { IfOk result (λ whole. whole ≡ whole_name dir.now name.now) }
{
    let text = joined(alloc, dir, name)?;
    resolved(alloc, text.as_slice())
}
