//! What `=` and `=#` print.

ghost use Rattle.std.specs.Prelude.{◌≡◌, ◌++◌, IfOk, OnOk};
ghost use Rattle.std.specs.Fmt.{decimal};
ghost use Rattle.sam_address.specs.Value.{IsInside};
ghost use Rattle.edit_run.specs.Lines.{IsCursorOf};
ghost use Rattle.edit_run.specs.Told.{one_or_two, lines_text, places_text, line_with_name};

use crate::line_cursor::LineCursor;
use am_text::{COLON, COMMA, HASH, Items, Letters, NEWLINE, NoMemory, Range, Rune, Runes, decimal};
use std::alloc::Global;

// Puts a number in decimal at the end, behind a mark.
#[tactic(auto, using(crate::proofs::Slices::putting))]
fn put_number(alloc: Global, mark: &[Rune], n: u64, made: &mut Runes) -> Result<(), NoMemory>
    ensures { OnOk result (made.new ≡ made.old ++ mark.now ++ decimal n) }
{
    made.append(mark)?;
    let digits = decimal(alloc, n)?;
    for digit in digits.as_slice() {
        made.push(Rune::from(*digit))?;
    }
    Ok(())
}

// One number, or two where they differ, each behind a mark.
#[tactic(auto, using(crate::proofs::Slices::putting))]
fn one_or_two(alloc: Global, mark: &[Rune], a: u64, b: u64) -> Result<Runes, NoMemory>
    ensures { IfOk result (λ made. made ≡ one_or_two mark.now a b) }
{
    let mut made = Items::new(alloc);
    put_number(alloc, mark, a, &mut made)?;
    if a != b {
        made.push(COMMA)?;
        put_number(alloc, mark, b, &mut made)?;
    }
    Ok(made)
}

// The name, what is told of it, and a newline.
#[tactic(auto, using(crate::proofs::Slices::putting))]
fn line_with_name(alloc: Global, name: &[Rune], place: &[Rune]) -> Result<Runes, NoMemory>
    ensures { IfOk result (λ made. made ≡ line_with_name name.now place.now) }
{
    let mut made = Items::copied(alloc, name)?;
    made.push(COLON)?;
    made.append(place)?;
    made.push(NEWLINE)?;
    Ok(made)
}

/// The lines of a range: of its first and its last rune, or the one that has its place where it is null.
pub fn lines_text<T: Letters>(
    alloc: Global,
    name: &[Rune],
    text: &T,
    range: Range,
    cursor: &mut LineCursor,
) -> Result<Runes, NoMemory>
    requires range { IsInside (T.letters text.now) range }
    requires cursor { IsCursorOf (T.letters text.now) cursor.old }
    ensures value { IfOk result (λ made. made ≡ line_with_name name.now (lines_text (T.letters text.now) range)) }
    ensures cursor { OnOk result (IsCursorOf (T.letters text.now) cursor.new) }
{
    let first = cursor.line_at(text, range.q0)?;
    let last = cursor.line_at(text, range.q0.max(range.q1.saturating_sub(1)))?;
    let lines = one_or_two(alloc, &[], first, last)?;
    line_with_name(alloc, name, lines.as_slice())
}

/// The places of a range.
pub fn places_text(alloc: Global, name: &[Rune], range: Range) -> Result<Runes, NoMemory>
    ensures { IfOk result (λ made. made ≡ line_with_name name.now (places_text range)) }
{
    let places = one_or_two(alloc, &[HASH], range.q0 as u64, range.q1 as u64)?;
    line_with_name(alloc, name, places.as_slice())
}
