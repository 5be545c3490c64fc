//! Regular expressions. A line is a word, an expression, and what the word asks for, with one tab between them.
//!
//! | line | answer |
//! |---|---|
//! | `parse` EXPRESSION STOP | `ends PLACE`: the expression before the delimiter STOP (`-`: up to the end) ends there |
//! | `spans` EXPRESSION TEXT BOUNDS NO_NULL | `first SPAN last SPAN`: the matches that begin first and end last between
//! BOUNDS, but not the null one at NO_NULL (`-`: none is left out) |
//! | `each` EXPRESSION TEXT BOUNDS | `each SPAN..`: the matches one after another |
//! | `over` EXPRESSION TEXT PLACE | `over SPAN`: the match that has the place |
//! | `groups` EXPRESSION TEXT SPAN | `groups SPAN..`: the ranges of the groups from 0 to 9, or `no match` |
//! | any | `bad PLACE`, `nodes`: why it is no expression |
//!
//! A span is two places with a comma between them, or `-` where there is none; bounds are the same, or `-` for the
//! whole text. The text and the expression are escaped: a newline as `\n`, a backslash as `\\`. An expression that
//! begins with `@` is made of five parts with a blank between them: `@TIMES OPEN INNER CLOSE TIMES`, with OPEN and
//! CLOSE so many times.

ghost use Rattle.std.specs.Prelude.{◌≤◌, length, IfOk};

use crate::fault::Fault;
use crate::fields::{cut, number_of, text_of};
use am_text::{Bytes, Items, Range, Rune, Runes};
use re_machine::Machine;
use re_spans::{Re, first_match, groups, last_match, match_over, matches_span, successive_matches};
use re_syntax::{ReFault, parse_re};
use std::alloc::Global;

fn parted(fields: &str, at: char) -> Result<(&str, &str), Fault> {
    match fields.split_once(at) {
        Some(parts) => Ok(parts),
        None => Err(Fault::NoCase),
    }
}

fn range_of(field: &str) -> Result<Range, Fault> {
    let (q0, q1) = parted(field, ',')?;
    Ok(Range {
        q0: number_of(q0)?,
        q1: number_of(q1)?,
    })
}

fn bounds_of(field: &str, text: &Runes) -> Result<Range, Fault>
    ensures order { IfOk result (λ bounds. bounds.q0 ≤ bounds.q1) }
    ensures within { IfOk result (λ bounds. bounds.q1 ≤ length text.now) }
{
    if field == "-" {
        return Ok(Range {
            q0: 0,
            q1: text.len(),
        });
    }
    let bounds = range_of(field)?;
    if bounds.q0 <= bounds.q1 && bounds.q1 <= text.len() {
        Ok(bounds)
    } else {
        Err(Fault::NoCase)
    }
}

fn no_null_of(field: &str) -> Result<Option<usize>, Fault> {
    match field {
        "-" => Ok(None),
        place => Ok(Some(number_of(place)?)),
    }
}

fn stop_of(field: &str) -> Result<Option<Rune>, Fault> {
    match field {
        "-" => Ok(None),
        "/" => Ok(Some(Rune::from('/'))),
        "?" => Ok(Some(Rune::from('?'))),
        _ => Err(Fault::NoCase),
    }
}

// ---- expressions

fn append_often(alloc: Global, all: &mut Runes, part: &str, times: &str) -> Result<(), Fault> {
    let part = text_of(alloc, part)?;
    for _ in 0..number_of::<usize>(times)? {
        all.append(part.as_slice())?;
    }
    Ok(())
}

fn made_of(alloc: Global, parts: &str) -> Result<Runes, Fault> {
    let (times, parts) = parted(parts, ' ')?;
    let (open, parts) = parted(parts, ' ')?;
    let (inner, parts) = parted(parts, ' ')?;
    let (close, times_closed) = parted(parts, ' ')?;
    let mut all = Items::new(alloc);
    append_often(alloc, &mut all, open, times)?;
    append_often(alloc, &mut all, inner, "1")?;
    append_often(alloc, &mut all, close, times_closed)?;
    Ok(all)
}

fn expression_of(alloc: Global, field: &str) -> Result<Runes, Fault> {
    match field.strip_prefix('@') {
        Some(parts) => made_of(alloc, parts),
        None => text_of(alloc, field),
    }
}

// ---- answers

fn says(alloc: Global, word: &str) -> Result<Bytes, Fault> {
    Ok(Bytes::copied(alloc, word.as_bytes())?)
}

fn tells(alloc: Global, word: &str, place: usize) -> Result<Bytes, Fault> {
    let line = format!(in alloc; "{word} {place}")?;
    Ok(Items::from_vec(line.into_bytes()))
}

fn put_span(alloc: Global, line: &mut Bytes, span: Option<Range>) -> Result<(), Fault> {
    match span {
        Some(span) => {
            let field = format!(in alloc; " {},{}", span.q0, span.q1)?;
            line.append(field.as_bytes())?;
        }
        None => line.append(b" -")?,
    }
    Ok(())
}

// The matches that a machine finds.
fn by_machine(
    alloc: Global,
    re: &Re,
    text: &Runes,
    bounds: Range,
    no_null: Option<usize>,
) -> Result<(Option<Range>, Option<Range>), Fault>
    requires order { bounds.q0 ≤ bounds.q1 }
    requires within { bounds.q1 ≤ length text.now }
{
    let machine = Machine::build(alloc, re)?;
    let first = machine.forward(alloc, text, bounds.q0, bounds.q1, no_null)?;
    let last = machine.backward(alloc, text, bounds.q0, bounds.q1, no_null)?;
    Ok((first, last))
}

fn spans_line(alloc: Global, re: &Re, text: &Runes, fields: &str) -> Result<Bytes, Fault> {
    let (bounds, no_null) = cut(fields)?;
    let bounds = bounds_of(bounds, text)?;
    let no_null = no_null_of(no_null)?;
    let first = first_match(alloc, re, text, bounds.q0, bounds.q1, no_null)?;
    let last = last_match(alloc, re, text, bounds.q0, bounds.q1, no_null)?;
    if (first, last) != by_machine(alloc, re, text, bounds, no_null)? {
        return says(alloc, "the machine differs");
    }
    let mut line = says(alloc, "first")?;
    put_span(alloc, &mut line, first)?;
    line.append(b" last")?;
    put_span(alloc, &mut line, last)?;
    Ok(line)
}

fn each_line(alloc: Global, re: &Re, text: &Runes, fields: &str) -> Result<Bytes, Fault> {
    let bounds = bounds_of(fields, text)?;
    let all = successive_matches(alloc, re, text, bounds.q0, bounds.q1)?;
    let mut line = says(alloc, "each")?;
    for span in all.as_slice() {
        put_span(alloc, &mut line, Some(*span))?;
    }
    Ok(line)
}

fn over_line(alloc: Global, re: &Re, text: &Runes, fields: &str) -> Result<Bytes, Fault> {
    let place = number_of(fields)?;
    if place > text.len() {
        return Err(Fault::NoCase);
    }
    let found = match_over(alloc, re, text, place)?;
    let mut line = says(alloc, "over")?;
    put_span(alloc, &mut line, found)?;
    Ok(line)
}

fn groups_line(alloc: Global, re: &Re, text: &Runes, fields: &str) -> Result<Bytes, Fault> {
    let span = bounds_of(fields, text)?;
    if !matches_span(alloc, re, text, span.q0, span.q1)? {
        return says(alloc, "no match");
    }
    let mut line = says(alloc, "groups")?;
    for group in groups(alloc, re, text, span)?.as_slice() {
        put_span(alloc, &mut line, *group)?;
    }
    Ok(line)
}

fn search_line(alloc: Global, word: &str, re: &Re, fields: &str) -> Result<Bytes, Fault> {
    let (text, fields) = cut(fields)?;
    let text = text_of(alloc, text)?;
    match word {
        "spans" => spans_line(alloc, re, &text, fields),
        "each" => each_line(alloc, re, &text, fields),
        "over" => over_line(alloc, re, &text, fields),
        "groups" => groups_line(alloc, re, &text, fields),
        _ => Err(Fault::NoCase),
    }
}

fn fault_of(fault: ReFault) -> Fault {
    match fault {
        ReFault::Bad(place) => Fault::Bad(place),
        ReFault::Nodes => Fault::Says("nodes"),
        ReFault::NoMemory => Fault::NoMemory,
    }
}

/// The answer to a line, without its newline.
pub fn answer(alloc: Global, line: &str) -> Result<Bytes, Fault> {
    let (word, fields) = cut(line)?;
    let (expression, fields) = cut(fields)?;
    let expression = expression_of(alloc, expression)?;
    let is_parsed = word == "parse";
    let stop = if is_parsed { stop_of(fields)? } else { None };
    match parse_re(alloc, expression.as_slice(), 0, stop) {
        Ok((_, end)) if is_parsed => tells(alloc, "ends", end),
        Ok((re, _)) => search_line(alloc, word, &re, fields),
        Err(fault) => Err(fault_of(fault)),
    }
}
