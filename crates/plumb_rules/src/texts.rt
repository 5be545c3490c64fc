//! Texts of a message while rules are done: of names, of variables, and of arguments.

ghost use Rattle.std.specs.Prelude.{◌≡◌, ◌++◌, length, slice_range, IfOk, OnOk};
ghost use Rattle.std.specs.Fmt.{decimal};
ghost use Rattle.am_text.specs.Utf8.{decode};
ghost use Rattle.plumb_msg.specs.Spelling.{attrs_text};
ghost use Rattle.plumb_rules.specs.Fields.{field_text};
ghost use Rattle.plumb_rules.specs.Texts.{whole_name, data_name, found_or, group_text};
ghost use Rattle.plumb_rules.specs.Texts.{is_group, has_group, late_text, piece_text, argument_text};

use crate::draft::Draft;
use crate::matched::Matched;
use crate::state::State;
use acme_cmd::whole;
use am_text::{NoMemory, Range, Rune, Runes, decimal, decode_whole};
use plumb_msg::{PlumbMsg, attrs_text};
use rule_syntax::{Field, Late, Piece};
use std::alloc::Global;

/// A name made whole with the message's wdir.
pub fn whole_name(alloc: Global, msg: &Draft, name: &[Rune]) -> Result<Runes, NoMemory>
    ensures { IfOk result (λ text. text ≡ whole_name msg.now name.now) }
{
    let wdir = msg.text(alloc, Field::Wdir)?;
    whole(alloc, wdir.get().as_slice(), name)
}

/// The data as a name.
pub fn data_name(alloc: Global, msg: &Draft) -> Result<Runes, NoMemory>
    ensures { IfOk result (λ text. text ≡ data_name msg.now) }
{
    let name = msg.text(alloc, Field::Data)?;
    whole_name(alloc, msg, name.get().as_slice())
}

fn found_or(alloc: Global, found: &Option<Runes>, msg: &Draft) -> Result<Runes, NoMemory>
    ensures { IfOk result (λ text. text ≡ found_or found.now msg.now) }
{
    match found {
        None => data_name(alloc, msg),
        Some(name) => Runes::copied(alloc, name.as_slice()),
    }
}

/// The part of a text between two places, as far as the text has it.
pub fn part_of(text: &[Rune], range: Range) -> &[Rune]
    ensures { result.now ≡ slice_range text.now range.q0 range.q1 }
{
    let (_, rest) = text.split_at(range.q0.min(text.len()));
    let count = range.q1.saturating_sub(range.q0);
    rest.split_at(count.min(rest.len())).0
}

fn is_group(piece: Piece) -> bool
    ensures { result ≡ is_group piece }
{
    match piece {
        Piece::Late(Late::Group(number)) => number > 0,
        _ => false,
    }
}

fn group_text(alloc: Global, matched: &Option<Matched>, number: u8) -> Result<Runes, NoMemory>
    ensures { IfOk result (λ text. text ≡ group_text matched.now number) }
{
    let Some(found) = matched else {
        return Ok(Runes::new(alloc));
    };
    match found.range(alloc, usize::from(number))? {
        Some(range) => Runes::copied(alloc, part_of(found.text(), range)),
        None => Ok(Runes::new(alloc)),
    }
}

/// Whether an argument has a group of the match. The whole match is none.
pub fn has_group(pieces: &[Piece]) -> bool
    ensures { result ≡ has_group pieces.now }
{
    pieces.iter().any(|piece| is_group(*piece))
}

fn attributes(alloc: Global, msg: &PlumbMsg) -> Result<Runes, NoMemory>
    ensures { IfOk result (λ text. text ≡ decode (attrs_text msg.now.attrs)) }
{
    decode_whole(alloc, attrs_text(alloc, msg.attrs.as_slice())?.as_slice())
}

fn data_count(alloc: Global, msg: &PlumbMsg) -> Result<Runes, NoMemory>
    ensures { IfOk result (λ text. text ≡ decode (decimal (length msg.now.body))) }
{
    decode_whole(alloc, decimal(alloc, msg.body.len() as u64)?.as_slice())
}

// The text of a field, to be put into another one.
fn copied_field(alloc: Global, msg: &Draft, field: Field) -> Result<Runes, NoMemory>
    ensures { IfOk result (λ text. text ≡ field_text msg.now field) }
{
    let text = msg.text(alloc, field)?;
    Runes::copied(alloc, text.get().as_slice())
}

// The text of a variable.
fn late_text(alloc: Global, state: &State, late: Late) -> Result<Runes, NoMemory>
    ensures { IfOk result (λ text. text ≡ late_text state.now late) }
{
    match late {
        Late::Group(number) => group_text(alloc, &state.matched, number),
        Late::Attr => attributes(alloc, state.msg.get()),
        Late::Data => copied_field(alloc, &state.msg, Field::Data),
        Late::Dir => found_or(alloc, &state.dir, &state.msg),
        Late::Dst => copied_field(alloc, &state.msg, Field::Dst),
        Late::File => found_or(alloc, &state.file, &state.msg),
        Late::Ndata => data_count(alloc, state.msg.get()),
        Late::Src => copied_field(alloc, &state.msg, Field::Src),
        Late::Sort => copied_field(alloc, &state.msg, Field::Sort),
        Late::Wdir => copied_field(alloc, &state.msg, Field::Wdir),
    }
}

// Puts the text of a piece at the end.
fn put_piece(alloc: Global, text: &mut Runes, state: &State, piece: Piece) -> Result<(), NoMemory>
    ensures { OnOk result (text.new ≡ text.old ++ piece_text state.now piece) }
{
    match piece {
        Piece::Rune(c) => text.push(c)?,
        Piece::Late(late) => text.append(late_text(alloc, state, late)?.as_slice())?,
    }
    Ok(())
}

/// The text of an argument: each variable is replaced.
#[tactic(auto, using(crate::proofs::Further::arguments))]
pub fn argument_text(alloc: Global, state: &State, pieces: &[Piece]) -> Result<Runes, NoMemory>
    ensures { IfOk result (λ text. text ≡ argument_text state.now pieces.now) }
{
    let mut text = Runes::new(alloc);
    for piece in pieces {
        put_piece(alloc, &mut text, state, *piece)?;
    }
    Ok(text)
}
