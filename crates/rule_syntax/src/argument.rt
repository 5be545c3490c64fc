//! Arguments: quotes, and variables.

ghost use Rattle.std.specs.Prelude.{◌≡◌, ◌++◌, [], IfOk, OnOk};
ghost use Rattle.std.specs.Str.{bytes_eq};
ghost use Rattle.rule_syntax.specs.Arguments.{value_in, late_of, rune_pieces, named, reader, with_rune, plain, quoted};
ghost use Rattle.rule_syntax.specs.Arguments.{closed, dollar, naming, step, reads, ended, argument_of, is_rune};
ghost use Rattle.rule_syntax.specs.Arguments.{is_literal, onto, runes_of};
ghost use Rattle.rule_syntax.specs.declared.argument.Mode.TheVariants as mode;

use crate::rule::{Argument, Late, Piece, Var};
use crate::words::{is_digit, is_name_rune, is_word, trimmed};
use am_text::{DIGIT_0, DOLLAR, NoMemory, QUOTE, Rune, Runes};
use std::alloc::Global;

/// Where in an argument the next rune stands.
#[derive(Drop)]
pub enum Mode {
    /// Outside quotes.
    Plain,
    /// In quotes.
    Quoted,
    /// After a second quote.
    Closed,
    /// After a `$`.
    Dollar,
    /// In the name of a variable, which begins so.
    Name(Runes),
}

/// What was read of an argument.
#[derive(Drop)]
pub struct Reader {
    pub pieces: Argument,
    pub mode: Mode,
}

/// The value of a variable. An unknown one is empty.
fn value_in<'a>(vars: &'a [Var], name: &[Rune]) -> &'a [Rune]
    ensures { result.now ≡ value_in vars.now name.now }
{
    let mut found: &[Rune] = &[];
    for var in vars {
        if var.name.as_slice() == name {
            found = var.value.as_slice();
        }
    }
    found
}

#[tactic(auto, unfolding(crate::specs::Arguments::late_of))]
fn late_of(name: &[Rune]) -> Option<Late>
    ensures { result ≡ late_of name.now }
{
    if is_word(name, b"attr") {
        Some(Late::Attr)
    } else if is_word(name, b"data") {
        Some(Late::Data)
    } else if is_word(name, b"dir") {
        Some(Late::Dir)
    } else if is_word(name, b"dst") {
        Some(Late::Dst)
    } else if is_word(name, b"file") {
        Some(Late::File)
    } else if is_word(name, b"ndata") {
        Some(Late::Ndata)
    } else if is_word(name, b"src") {
        Some(Late::Src)
    } else if is_word(name, b"type") {
        Some(Late::Sort)
    } else if is_word(name, b"wdir") {
        Some(Late::Wdir)
    } else {
        None
    }
}

// Puts the runes of a text at the end.
#[tactic(auto, using(crate::proofs::ArgumentLemmas::pieces))]
fn put_runes(pieces: &mut Argument, text: &[Rune]) -> Result<(), NoMemory>
    ensures { OnOk result (pieces.new ≡ pieces.old ++ rune_pieces text.now) }
{
    for c in text {
        pieces.push(Piece::Rune(*c))?;
    }
    Ok(())
}

// Puts what stands for a variable at the end.
fn put_named(pieces: &mut Argument, vars: &[Var], name: &[Rune]) -> Result<(), NoMemory>
    ensures { OnOk result (pieces.new ≡ pieces.old ++ named vars.now name.now) }
{
    match late_of(name) {
        Some(late) => pieces.push(Piece::Late(late))?,
        None => put_runes(pieces, value_in(vars, name))?,
    }
    Ok(())
}

fn with_mode(pieces: Argument, mode: Mode) -> Reader
    ensures { result ≡ reader pieces mode }
{
    Reader { pieces, mode }
}

fn with_rune(pieces: Argument, c: Rune) -> Result<Argument, NoMemory>
    ensures { IfOk result (λ new. new ≡ with_rune pieces c) }
{
    let mut pieces = pieces;
    pieces.push(Piece::Rune(c))?;
    Ok(pieces)
}

fn plain(pieces: Argument, c: Rune) -> Result<Reader, NoMemory>
    ensures { IfOk result (λ r. r ≡ plain pieces c) }
{
    match c {
        QUOTE => Ok(with_mode(pieces, Mode::Quoted)),
        DOLLAR => Ok(with_mode(pieces, Mode::Dollar)),
        other => Ok(with_mode(with_rune(pieces, other)?, Mode::Plain)),
    }
}

fn quoted(pieces: Argument, c: Rune) -> Result<Reader, NoMemory>
    ensures { IfOk result (λ r. r ≡ quoted pieces c) }
{
    match c {
        QUOTE => Ok(with_mode(pieces, Mode::Closed)),
        other => Ok(with_mode(with_rune(pieces, other)?, Mode::Quoted)),
    }
}

fn closed(pieces: Argument, c: Rune) -> Result<Reader, NoMemory>
    ensures { IfOk result (λ r. r ≡ closed pieces c) }
{
    match c {
        QUOTE => Ok(with_mode(with_rune(pieces, c)?, Mode::Quoted)),
        other => plain(pieces, other),
    }
}

fn dollar(alloc: Global, pieces: Argument, c: Rune) -> Result<Reader, NoMemory>
    ensures { IfOk result (λ r. r ≡ dollar pieces c) }
{
    if is_digit(c) {
        let mut pieces = pieces;
        pieces.push(Piece::Late(Late::Group((c - DIGIT_0) as u8)))?;
        return Ok(with_mode(pieces, Mode::Plain));
    }
    if is_name_rune(c) {
        return Ok(with_mode(pieces, Mode::Name(Runes::copied(alloc, &[c])?)));
    }
    plain(with_rune(pieces, DOLLAR)?, c)
}

fn naming(vars: &[Var], pieces: Argument, name: Runes, c: Rune) -> Result<Reader, NoMemory>
    ensures { IfOk result (λ r. r ≡ naming vars.now pieces name c) }
{
    if is_name_rune(c) {
        let mut name = name;
        name.push(c)?;
        return Ok(with_mode(pieces, Mode::Name(name)));
    }
    let mut pieces = pieces;
    put_named(&mut pieces, vars, name.as_slice())?;
    plain(pieces, c)
}

fn step(alloc: Global, vars: &[Var], reading: Reader, c: Rune) -> Result<Reader, NoMemory>
    ensures { IfOk result (λ r. r ≡ step vars.now reading c) }
{
    let Reader { pieces, mode } = reading;
    match mode {
        Mode::Plain => plain(pieces, c),
        Mode::Quoted => quoted(pieces, c),
        Mode::Closed => closed(pieces, c),
        Mode::Dollar => dollar(alloc, pieces, c),
        Mode::Name(name) => naming(vars, pieces, name, c),
    }
}

fn ended(vars: &[Var], reading: Reader) -> Result<Option<Argument>, NoMemory>
    ensures { IfOk result (λ pieces. pieces ≡ ended vars.now reading) }
{
    let Reader { pieces, mode } = reading;
    match mode {
        Mode::Plain => Ok(Some(pieces)),
        Mode::Quoted => Ok(None),
        Mode::Closed => Ok(Some(pieces)),
        Mode::Dollar => Ok(Some(with_rune(pieces, DOLLAR)?)),
        Mode::Name(name) => {
            let mut pieces = pieces;
            put_named(&mut pieces, vars, name.as_slice())?;
            Ok(Some(pieces))
        }
    }
}

#[tactic(auto, using(crate::proofs::ArgumentLemmas::readings))]
fn read_all(alloc: Global, vars: &[Var], text: &[Rune]) -> Result<Reader, NoMemory>
    ensures { IfOk result (λ r. r ≡ reads vars.now (reader [] mode.Plain) text.now) }
{
    let mut reading = with_mode(Argument::new(alloc), Mode::Plain);
    for c in text {
        reading = step(alloc, vars, reading, *c)?;
    }
    Ok(reading)
}

/// The argument of a text: quotes are taken away, variables replaced, and blanks at the end dropped. There is none
/// where a quote is open.
pub(crate) fn argument_of(
    alloc: Global,
    vars: &[Var],
    raw: &[Rune],
) -> Result<Option<Argument>, NoMemory>
    ensures { IfOk result (λ pieces. pieces ≡ argument_of vars.now raw.now) }
{
    ended(vars, read_all(alloc, vars, trimmed(raw))?)
}

fn is_rune(piece: Piece) -> bool
    ensures { result ≡ is_rune piece }
{
    match piece {
        Piece::Rune(_) => true,
        Piece::Late(_) => false,
    }
}

/// Whether no variable of an argument is replaced when matched.
pub(crate) fn is_literal(pieces: &[Piece]) -> bool
    ensures { result ≡ is_literal pieces.now }
{
    pieces.iter().all(|piece| is_rune(*piece))
}

// Puts the rune of a piece at the end, if it is one.
#[tactic(auto, using(crate::proofs::ArgumentLemmas::runes))]
fn put_piece(text: &mut Runes, piece: Piece) -> Result<(), NoMemory>
    ensures { OnOk result (text.new ≡ text.old ++ onto piece []) }
{
    match piece {
        Piece::Rune(c) => text.push(c)?,
        Piece::Late(_) => {}
    }
    Ok(())
}

/// The runes of an argument alone.
#[tactic(auto, using(crate::proofs::ArgumentLemmas::runes))]
pub(crate) fn runes_of(alloc: Global, pieces: &[Piece]) -> Result<Runes, NoMemory>
    ensures { IfOk result (λ text. text ≡ runes_of pieces.now) }
{
    let mut text = Runes::new(alloc);
    for piece in pieces {
        put_piece(&mut text, *piece)?;
    }
    Ok(text)
}
