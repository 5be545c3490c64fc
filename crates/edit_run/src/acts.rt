//! What the commands do with their range.

ghost use Rattle.std.specs.Prelude.{◌≡◌, ◌≤◌, length, List, ℕ, [], Ok, IfOk, IfErr, OnOk};
ghost use Rattle.re_syntax.specs.Tree.{tree};
ghost use Rattle.addr_syntax.specs.Tree as address;
ghost use Rattle.am_text.specs.declared.job.JobKind.TheVariants.{From};
ghost use Rattle.sam_address.specs.Value.{IsInside};
ghost use Rattle.edit_run.specs.declared.fault.EditFault.TheVariants.{NoMemory};
ghost use Rattle.edit_run.specs.Faults.{IsFault, and_then};
ghost use Rattle.edit_run.specs.Effects.{with_change, with_print, with_job};
ghost use Rattle.edit_run.specs.Within.{IsWithin};
ghost use Rattle.edit_run.specs.Ranges.{AreMatches};
ghost use Rattle.edit_run.specs.Replacing.{substitute};
ghost use Rattle.edit_run.specs.Lines.{IsCursorOf};
ghost use Rattle.edit_run.specs.Told.{line_with_name, lines_text, places_text};
ghost use Rattle.edit_run.specs.Meaning.{range_of, text_at, replace_each, is_within, move_to, copy_to, job_for};

use crate::doing::{Doing, Over};
use crate::effects::Effects;
use crate::fault::EditFault;
use crate::replacing::substitute;
use crate::telling::{lines_text, places_text};
use crate::texts::text_at;
use crate::types::Site;
use addr_syntax::Addr;
use am_text::{Items, Job, JobKind, Letters, Range, Rune, Runes};
use re_spans::Re;
use sam_address::value;
use std::alloc::Global;
use win_ctl::directory;

// The range of an address that is written.
fn range_at<T: Letters>(over: &Over<T>, addr: &Addr, dot: Range) -> Result<Range, EditFault>
    requires { IsInside (T.letters over.now.text.now) dot }
    ensures value { IfOk result (λ range. range_of (address.tree addr.now) (T.letters over.now.text.now) dot
        ≡ Ok range) }
    ensures fault { IfErr result (λ e. IsFault e (range_of (address.tree addr.now) (T.letters over.now.text.now) dot)) }
    ensures inside { IfOk result (IsInside (T.letters over.now.text.now)) }
{
    let whole = Range {
        q0: 0,
        q1: over.text.len(),
    };
    Ok(value(over.alloc, addr, over.text, dot, whole)?)
}

/// The range of an address, which is dot where none is written.
pub fn range_of<T: Letters>(
    over: &Over<T>,
    addr: &Option<Addr>,
    dot: Range,
) -> Result<Range, EditFault>
    requires { IsInside (T.letters over.now.text.now) dot }
    ensures value { IfOk result (λ range. range_of (address.tree_of addr.now) (T.letters over.now.text.now) dot
        ≡ Ok range) }
    ensures fault { IfErr result (λ e. IsFault e (range_of (address.tree_of addr.now)
        (T.letters over.now.text.now) dot)) }
    ensures inside { IfOk result (IsInside (T.letters over.now.text.now)) }
{
    match addr {
        Some(addr) => range_at(over, addr, dot),
        None => Ok(dot),
    }
}

/// Puts a text in the place of the runes from `q0` to before `q1`.
pub fn put_text(
    alloc: Global,
    q0: usize,
    q1: usize,
    put: &Runes,
    effects: &mut Effects,
) -> Result<(), EditFault>
    ensures value { OnOk result (effects.new ≡ with_change q0 q1 put.now effects.old) }
    ensures fault { IfErr result (λ e. e ≡ NoMemory) }
    ensures within { OnOk result ((t : List ℕ) → q0 ≤ q1 → q1 ≤ length t → IsWithin t effects.old
        → IsWithin t effects.new) }
{
    effects.change(q0, q1, Items::copied(alloc, put.as_slice())?)?;
    Ok(())
}

/// Deletes the range.
pub fn delete(alloc: Global, range: Range, effects: &mut Effects) -> Result<(), EditFault>
    ensures value { OnOk result (effects.new ≡ with_change range.q0 range.q1 [] effects.old) }
    ensures fault { IfErr result (λ e. e ≡ NoMemory) }
    ensures within { OnOk result ((t : List ℕ) → IsInside t range → IsWithin t effects.old → IsWithin t effects.new) }
{
    effects.change(range.q0, range.q1, Items::new(alloc))?;
    Ok(())
}

/// Replaces each of these matches.
pub fn replace_all<T: Letters>(
    over: &Over<T>,
    re: &Re,
    with: &[Rune],
    spans: &[Range],
    effects: &mut Effects,
) -> Result<(), EditFault>
    requires matches { AreMatches (tree re.now) (T.letters over.now.text.now) spans.now }
    requires within { IsWithin (T.letters over.now.text.now) effects.old }
    ensures value { OnOk result (effects.new ≡ replace_each
        (substitute (tree re.now) (T.letters over.now.text.now) with.now) spans.now effects.old) }
    ensures fault { IfErr result (λ e. e ≡ NoMemory) }
    ensures within { OnOk result (IsWithin (T.letters over.now.text.now) effects.new) }
{
    let mut rest = spans;
    while let [span, after @ ..] = rest {
        let made = substitute(over.alloc, re, over.text, with, *span)?;
        effects.change(span.q0, span.q1, made)?;
        rest = after;
    }
    Ok(())
}

// The place is inside the range, neither at its beginning nor at its end.
fn is_within(range: Range, place: usize) -> bool
    ensures { result ≡ is_within range place }
{
    range.q0 < place && place < range.q1
}

// Puts the range's text at a place and deletes it where it stands, the earlier of the two first.
fn move_to<T: Letters>(
    over: &Over<T>,
    range: Range,
    place: usize,
    effects: &mut Effects,
) -> Result<(), EditFault>
    requires range { IsInside (T.letters over.now.text.now) range }
    requires place { place ≤ length (T.letters over.now.text.now) }
    requires within { IsWithin (T.letters over.now.text.now) effects.old }
    ensures value { OnOk result (move_to (T.letters over.now.text.now) range place effects.old ≡ Ok effects.new) }
    ensures fault { IfErr result (λ e. IsFault e (move_to (T.letters over.now.text.now) range place effects.old)) }
    ensures within { OnOk result (IsWithin (T.letters over.now.text.now) effects.new) }
{
    if is_within(range, place) {
        return Err(EditFault::Overlap);
    }
    let put = text_at(over.alloc, over.text, range)?;
    if place <= range.q0 {
        effects.change(place, place, put)?;
        delete(over.alloc, range, effects)
    } else {
        delete(over.alloc, range, effects)?;
        effects.change(place, place, put)?;
        Ok(())
    }
}

/// Moves the range's text behind the range of an address.
pub fn move_text<T: Letters>(
    over: &Over<T>,
    to: &Addr,
    dot: Range,
    range: Range,
    effects: &mut Effects,
) -> Result<(), EditFault>
    requires dot { IsInside (T.letters over.now.text.now) dot }
    requires range { IsInside (T.letters over.now.text.now) range }
    requires within { IsWithin (T.letters over.now.text.now) effects.old }
    ensures value { OnOk result (and_then (range_of (address.tree to.now) (T.letters over.now.text.now) dot)
        (λ place. move_to (T.letters over.now.text.now) range place.q1 effects.old) ≡ Ok effects.new) }
    ensures fault { IfErr result (λ e. IsFault e (and_then
        (range_of (address.tree to.now) (T.letters over.now.text.now) dot)
        (λ place. move_to (T.letters over.now.text.now) range place.q1 effects.old))) }
    ensures within { OnOk result (IsWithin (T.letters over.now.text.now) effects.new) }
{
    let place = range_at(over, to, dot)?;
    move_to(over, range, place.q1, effects)
}

/// Copies the range's text behind the range of an address.
pub fn copy_text<T: Letters>(
    over: &Over<T>,
    to: &Addr,
    dot: Range,
    range: Range,
    effects: &mut Effects,
) -> Result<(), EditFault>
    requires dot { IsInside (T.letters over.now.text.now) dot }
    requires range { IsInside (T.letters over.now.text.now) range }
    requires within { IsWithin (T.letters over.now.text.now) effects.old }
    ensures value { OnOk result (and_then (range_of (address.tree to.now) (T.letters over.now.text.now) dot)
        (λ place. copy_to (T.letters over.now.text.now) range place.q1 effects.old) ≡ Ok effects.new) }
    ensures fault { IfErr result (λ e. IsFault e (and_then
        (range_of (address.tree to.now) (T.letters over.now.text.now) dot)
        (λ place. copy_to (T.letters over.now.text.now) range place.q1 effects.old))) }
    ensures within { OnOk result (IsWithin (T.letters over.now.text.now) effects.new) }
{
    let place = range_at(over, to, dot)?;
    let put = text_at(over.alloc, over.text, range)?;
    effects.change(place.q1, place.q1, put)?;
    Ok(())
}

/// Prints the range.
pub fn print<T: Letters>(
    over: &Over<T>,
    range: Range,
    effects: &mut Effects,
) -> Result<(), EditFault>
    requires { IsWithin (T.letters over.now.text.now) effects.old }
    ensures value { OnOk result (effects.new ≡ with_print (text_at (T.letters over.now.text.now) range) effects.old) }
    ensures fault { IfErr result (λ e. e ≡ NoMemory) }
    ensures within { OnOk result (IsWithin (T.letters over.now.text.now) effects.new) }
{
    let runes = text_at(over.alloc, over.text, range)?;
    effects.print(runes.as_slice())?;
    Ok(())
}

/// Prints the lines of the range.
pub fn print_lines<T: Letters>(
    over: &Over<T>,
    range: Range,
    doing: &mut Doing,
) -> Result<(), EditFault>
    requires range { IsInside (T.letters over.now.text.now) range }
    requires cursor { IsCursorOf (T.letters over.now.text.now) doing.old.cursor }
    requires within { IsWithin (T.letters over.now.text.now) doing.old.effects }
    ensures value { OnOk result (doing.new.effects
        ≡ with_print (line_with_name over.now.site.now.name (lines_text (T.letters over.now.text.now) range))
        doing.old.effects) }
    ensures fault { IfErr result (λ e. e ≡ NoMemory) }
    ensures cursor { OnOk result (IsCursorOf (T.letters over.now.text.now) doing.new.cursor) }
    ensures within { OnOk result (IsWithin (T.letters over.now.text.now) doing.new.effects) }
{
    let lines = lines_text(
        over.alloc,
        over.site.name.as_slice(),
        over.text,
        range,
        &mut doing.cursor,
    )?;
    doing.effects.print(lines.as_slice())?;
    Ok(())
}

/// Prints the places of the range.
pub fn print_places(
    alloc: Global,
    site: &Site,
    range: Range,
    effects: &mut Effects,
) -> Result<(), EditFault>
    ensures value { OnOk result (effects.new ≡ with_print
        (line_with_name site.now.name (places_text range)) effects.old) }
    ensures fault { IfErr result (λ e. e ≡ NoMemory) }
    ensures within { OnOk result ((t : List ℕ) → IsWithin t effects.old → IsWithin t effects.new) }
{
    let places = places_text(alloc, site.name.as_slice(), range)?;
    effects.print(places.as_slice())?;
    Ok(())
}

// Asks the user's programs for something.
fn ask<T>(
    over: &Over<T>,
    kind: JobKind,
    command: &Runes,
    input: Runes,
    effects: &mut Effects,
) -> Result<(), EditFault>
    ensures value { OnOk result (effects.new ≡ with_job
        (job_for kind command.now over.now.site.now input) effects.old) }
    ensures fault { IfErr result (λ e. e ≡ NoMemory) }
    ensures within { OnOk result ((t : List ℕ) → IsWithin t effects.old → IsWithin t effects.new) }
{
    effects.ask(Job {
        kind,
        window: over.site.window,
        dir: directory(over.alloc, over.site.name.as_slice())?,
        command: Items::copied(over.alloc, command.as_slice())?,
        input,
    })?;
    Ok(())
}

/// Asks for a command that is given the range's text.
pub fn ask_with<T: Letters>(
    over: &Over<T>,
    kind: JobKind,
    command: &Runes,
    range: Range,
    effects: &mut Effects,
) -> Result<(), EditFault>
    ensures value { OnOk result (effects.new ≡ with_job
        (job_for kind command.now over.now.site.now (text_at (T.letters over.now.text.now) range)) effects.old) }
    ensures fault { IfErr result (λ e. e ≡ NoMemory) }
    ensures within { OnOk result ((t : List ℕ) → IsWithin t effects.old → IsWithin t effects.new) }
{
    let input = text_at(over.alloc, over.text, range)?;
    ask(over, kind, command, input, effects)
}

/// Asks for a command whose output is to take the place of the range.
pub fn ask_without<T>(
    over: &Over<T>,
    command: &Runes,
    effects: &mut Effects,
) -> Result<(), EditFault>
    ensures value { OnOk result (effects.new ≡ with_job (job_for From command.now over.now.site.now []) effects.old) }
    ensures fault { IfErr result (λ e. e ≡ NoMemory) }
    ensures within { OnOk result ((t : List ℕ) → IsWithin t effects.old → IsWithin t effects.new) }
{
    ask(
        over,
        JobKind::From,
        command,
        Items::new(over.alloc),
        effects,
    )
}
