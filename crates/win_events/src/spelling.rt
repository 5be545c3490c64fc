//! The messages of an event.

ghost use Rattle.std.specs.Prelude.{◌≡◌, ◌++◌, ◌∷◌, [], length, IfOk, OnOk, OnErr, if◌then◌else◌};
ghost use Rattle.std.specs.Fmt.{decimal};
ghost use lib.Utf8.{scalar};
ghost use Rattle.am_text.specs.Utf8.{rune_bytes, utf8};
ghost use Rattle.win_events.specs.Spelling.{origin_letter, sort_letter, is_deletion, shown, field, message, first_text};
ghost use Rattle.win_events.specs.Spelling.{expansion, argument, spelling};

use crate::item::{Item, Origin, Sort};
use am_text::{Bytes, NoMemory, Range, Rune};
use std::alloc::Global;

/// A text of so many runes or more isn't shown in a message.
const LONG_TEXT: usize = 256;

/// How many bytes a message takes at most beside its text, where its numbers are small.
const MOST_BUT_TEXT: usize = 32;

fn origin_letter(origin: Origin) -> u8
    ensures { result ≡ origin_letter origin }
{
    match origin {
        Origin::E => b'E',
        Origin::F => b'F',
        Origin::K => b'K',
        Origin::M => b'M',
    }
}

fn sort_letter(sort: Sort) -> u8
    ensures { result ≡ sort_letter sort }
{
    match sort {
        Sort::BodyDel => b'D',
        Sort::TagDel => b'd',
        Sort::BodyIns => b'I',
        Sort::TagIns => b'i',
        Sort::BodyLook => b'L',
        Sort::TagLook => b'l',
        Sort::BodyExec => b'X',
        Sort::TagExec => b'x',
    }
}

fn is_deletion(sort: Sort) -> bool
    ensures { result ≡ is_deletion sort }
{
    match sort {
        Sort::BodyDel => true,
        Sort::TagDel => true,
        _ => false,
    }
}

// Puts a number in decimal at the end, digit by digit.
#[tactic(auto, using(crate::proofs::Digits::digits))]
fn push_decimal(bytes: &mut Bytes, n: u64) -> Result<(), NoMemory>
    ensures { OnOk result (bytes.new ≡ bytes.old ++ decimal n) }
{
    if n >= 10 {
        push_decimal(bytes, n / 10)?;
    }
    bytes.push(b'0' + (n % 10) as u8)
}

// Puts a number and a blank at the end.
fn push_field(bytes: &mut Bytes, n: u64) -> Result<(), NoMemory>
    ensures { OnOk result (bytes.new ≡ bytes.old ++ field n) }
{
    push_decimal(bytes, n)?;
    bytes.push(b' ')
}

// The text that a message shows.
fn shown(sort: Sort, text: &[u32]) -> &[u32]
    ensures { result.now ≡ shown sort text.now }
{
    if is_deletion(sort) || text.len() >= LONG_TEXT {
        return &[];
    }
    text
}

fn scalar_or_replacement(rune: Rune) -> char
    ensures { result ≡ (if scalar rune then rune else 0xFFFD) }
{
    match char::from_u32(rune) {
        Some(c) => c,
        None => '\u{FFFD}',
    }
}

// Puts the bytes of a rune at the end.
fn push_rune(bytes: &mut Bytes, rune: Rune) -> Result<(), NoMemory>
    ensures { OnOk result (bytes.new ≡ bytes.old ++ rune_bytes rune) }
{
    let c = scalar_or_replacement(rune);
    bytes.append(c.encode_utf8(&mut [0; 4]).as_bytes())?;
    Ok(())
}

// Puts the bytes of a text at the end.
#[tactic(auto, using(crate::proofs::Digits::joined))]
fn push_text(bytes: &mut Bytes, text: &[u32]) -> Result<(), NoMemory>
    ensures { OnOk result (bytes.new ≡ bytes.old ++ utf8 text.now) }
{
    let mut rest = text;
    while let [rune, after @ ..] = rest {
        push_rune(bytes, *rune)?;
        rest = after;
    }
    Ok(())
}

// One message.
#[tactic(auto, unfolding(crate::specs::Spelling::message))]
fn message(
    alloc: Global,
    item: &Item,
    range: Range,
    flag: u32,
    text: &[u32],
) -> Result<Bytes, NoMemory>
    ensures { IfOk result (λ bytes. bytes ≡ message item.now.origin item.now.sort range flag text.now) }
{
    let shown = shown(item.sort, text);
    let mut bytes = Bytes::from_vec(Vec::with_capacity(alloc, MOST_BUT_TEXT + shown.len())?);
    bytes.push(origin_letter(item.origin))?;
    bytes.push(sort_letter(item.sort))?;
    push_field(&mut bytes, range.q0 as u64)?;
    push_field(&mut bytes, range.q1 as u64)?;
    push_field(&mut bytes, u64::from(flag))?;
    push_field(&mut bytes, shown.len() as u64)?;
    push_text(&mut bytes, shown)?;
    bytes.push(b'\n')?;
    Ok(bytes)
}

// The message of the expansion, if there is one.
fn expansion(alloc: Global, item: &Item) -> Result<Bytes, NoMemory>
    ensures { IfOk result (λ bytes. bytes ≡ expansion item.now item.now.expanded) }
{
    match &item.expanded {
        None => Ok(Bytes::new(alloc)),
        Some((range, text)) => message(alloc, item, *range, 0, text.as_slice()),
    }
}

// The messages of the argument and its place, if there is one.
fn argument(alloc: Global, item: &Item) -> Result<Bytes, NoMemory>
    ensures { IfOk result (λ bytes. bytes ≡ argument item.now item.now.argument) }
{
    match &item.argument {
        None => Ok(Bytes::new(alloc)),
        Some((text, place)) => {
            let none = Range { q0: 0, q1: 0 };
            let mut bytes = message(alloc, item, none, 0, text.as_slice())?;
            bytes.append(message(alloc, item, none, 0, place.as_slice())?.as_slice())?;
            Ok(bytes)
        }
    }
}

// The text of the first message: none where the click was expanded.
fn first_text(item: &Item) -> &[u32]
    ensures { result.now ≡ first_text item.now item.now.expanded }
{
    match &item.expanded {
        None => item.text.as_slice(),
        Some(_) => &[],
    }
}

/// The messages of an event as its readers get them: the event, its expansion if the range is
/// null, and the argument and its place if there is one. A message shows its text where it has
/// fewer than 256 runes and is no deletion.
#[tactic(auto, unfolding(crate::specs::Spelling::spelling))]
pub fn spell(alloc: Global, item: &Item) -> Result<Bytes, NoMemory>
    ensures { IfOk result (λ bytes. bytes ≡ spelling item.now) }
{
    let mut bytes = message(alloc, item, item.range, item.flag, first_text(item))?;
    bytes.append(expansion(alloc, item)?.as_slice())?;
    bytes.append(argument(alloc, item)?.as_slice())?;
    Ok(bytes)
}
