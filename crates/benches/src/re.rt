//! What searches for expressions cost.
use crate::size::{Size, end_line, size_of};
use crate::texts::{repeated, runes, tree};
use am_text::{Items, NoMemory, Range, Runes};
use re_machine::Machine;
use re_spans::{Re, first_match, groups, matches_span, successive_matches};
use std::alloc::{AllocError, Global};
use std::io;
use std::rt::Clock;
use std::time::Instant;

// What a search asks for.
#[derive(Clone, Copy)]
enum Call {
    // By sets of places, once.
    First,
    // By a machine, `TIMES` times.
    Forward,
    Backward,
    Successive,
    // The groups of the whole text.
    Groups,
}

// What it finds: a range, or how many.
#[derive(Clone, Copy)]
enum Found {
    Span(Option<Range>),
    Count(usize),
}

// How an expression opens, what it has inside, how it closes, and how often it opens and closes; what its
// text repeats, and of how many runes that is.
type Search = (
    Call,
    &'static str,
    &'static str,
    &'static str,
    usize,
    &'static str,
    usize,
);

const SEARCHES: [Search; 14] = [
    (Call::First, "", "(a|b)*c", "", 0, "ab", 2_000),
    (Call::First, "", "(a|b)*c", "", 0, "ab", 4_000),
    (Call::First, "", "[a-z]+\\.c", "", 0, "main", 100_000),
    (Call::First, "(", "a*b?", ")*b?", 8, "aab", 1_000),
    (Call::First, "(", "a*b?", ")*b?", 16, "aab", 1_000),
    (Call::First, "a", "a", "", 1_023, "a", 100_000),
    (Call::First, "(", "a", ")a", 682, "a", 100_000),
    (Call::First, "", "a", "*", 2_047, "a", 100_000),
    (Call::First, "", "main", "", 0, "main", 100_000),
    (Call::Successive, "", ".", "", 0, "main", 20_000),
    (Call::Successive, "", ".", "", 0, "main", 40_000),
    (Call::Successive, "", "[a-z]+ ", "", 0, "main ", 40_000),
    (Call::Groups, "", "(.)*", "", 0, "main", 20_000),
    (Call::Groups, "", "(.)*", "", 0, "main", 40_000),
];

// Searches by a machine, and beside them some by sets of places. Their numbers follow those of the others.
const MACHINES: [Search; 14] = [
    (Call::First, "", "last", "", 0, "main", 1_000_000),
    (Call::Forward, "", "last", "", 0, "main", 1_000_000),
    (Call::Forward, "", "mine", "", 0, "main", 1_000_000),
    (Call::Backward, "", "mine", "", 0, "main", 1_000_000),
    (Call::Forward, "", "[a-z]+\\.c", "", 0, "main", 100_000),
    (Call::Forward, "", "main", "", 0, "main", 1_000),
    (Call::Forward, "", "main", "", 0, "main", 1_000_000),
    (Call::Forward, "", "a*b", "", 0, "a", 2_000),
    (Call::Forward, "", "a*b", "", 0, "a", 4_000),
    (Call::Forward, "a", "a", "", 511, "a", 100_000),
    (Call::Forward, "a", "a", "", 1_023, "a", 100_000),
    (Call::Forward, "a", "b", "", 63, "a", 2_000),
    (Call::First, "a", "b", "", 63, "a", 2_000),
    (Call::Forward, "a", "b", "", 127, "a", 2_000),
];

// How many searches stand before those by a machine.
const BEFORE: usize = 14;

// How often a machine searches.
const TIMES: usize = 1_000;

// Without a number, this part of the texts.
const PART: usize = 20;

// These runes so often.
fn append_often(all: &mut Runes, part: &Runes, times: usize) -> Result<(), NoMemory> {
    for _ in 0..times {
        all.append(part.as_slice())?;
    }
    Ok(())
}

fn expression(alloc: Global, search: Search) -> Result<Runes, NoMemory> {
    let (_, open, inner, close, times, _, _) = search;
    let mut all = Items::new(alloc);
    append_often(&mut all, &runes(alloc, open)?, times)?;
    append_often(&mut all, &runes(alloc, inner)?, 1)?;
    append_often(&mut all, &runes(alloc, close)?, times)?;
    Ok(all)
}

// What is searched for, as a tree and as a machine, and where.
#[derive(Drop)]
struct Subject {
    re: Re,
    machine: Machine,
    text: Runes,
}

fn prepared(alloc: Global, search: Search, part: usize) -> Result<Subject, NoMemory> {
    let re = tree(alloc, &expression(alloc, search)?)?;
    let machine = Machine::build(alloc, &re)?;
    let text = repeated(alloc, search.5, search.6 / part.max(1))?;
    Ok(Subject { re, machine, text })
}

// The same search by a machine again and again.
fn forward_often(alloc: Global, it: &Subject) -> Result<Found, NoMemory> {
    let mut found = None;
    for _ in 0..TIMES {
        found = it.machine.forward(alloc, &it.text, 0, it.text.len(), None)?;
    }
    Ok(Found::Span(found))
}

fn backward_often(alloc: Global, it: &Subject) -> Result<Found, NoMemory> {
    let mut found = None;
    for _ in 0..TIMES {
        found = it
            .machine
            .backward(alloc, &it.text, 0, it.text.len(), None)?;
    }
    Ok(Found::Span(found))
}

// The first group of the whole text.
fn first_group(alloc: Global, re: &Re, text: &Runes) -> Result<Option<Range>, NoMemory> {
    let span = Range {
        q0: 0,
        q1: text.len(),
    };
    if !matches_span(alloc, re, text, 0, text.len())? {
        return Ok(None);
    }
    let all = groups(alloc, re, text, span)?;
    match all.as_slice() {
        [_, first, ..] => Ok(*first),
        _ => Ok(None),
    }
}

fn answer(alloc: Global, call: Call, it: &Subject) -> Result<Found, NoMemory> {
    match call {
        Call::First => {
            let found = first_match(alloc, &it.re, &it.text, 0, it.text.len(), None)?;
            Ok(Found::Span(found))
        }
        Call::Forward => forward_often(alloc, it),
        Call::Backward => backward_often(alloc, it),
        Call::Successive => {
            let all = successive_matches(alloc, &it.re, &it.text, 0, it.text.len())?;
            Ok(Found::Count(all.len()))
        }
        Call::Groups => Ok(Found::Span(first_group(alloc, &it.re, &it.text)?)),
    }
}

// What was found.
fn tell<R: Print>(rt: &R, number: usize, runes: usize, found: Found) -> io::Result<()> {
    print!(rt; "search {number}, {runes} runes: ")?;
    match found {
        Found::Span(Some(span)) => print!(rt; "{} to {}", span.q0, span.q1),
        Found::Span(None) => print!(rt; "no match"),
        Found::Count(count) => print!(rt; "{count} matches"),
    }
}

// A line for a search.
fn line<R: Clock + Print>(
    rt: &R,
    alloc: Global,
    number: usize,
    search: Search,
    size: Size,
) -> io::Result<()> {
    let it = prepared(alloc, search, size.part).map_err(|_| AllocError)?;
    let start = Instant::now(rt)?;
    let found = answer(alloc, search.0, &it).map_err(|_| AllocError)?;
    let micros = start.elapsed(rt)?.as_micros();
    tell(rt, number, it.text.len(), found)?;
    end_line(rt, size, micros)
}

fn run_searches<R: Clock + Print>(rt: &R, alloc: Global, asked: Option<usize>) -> io::Result<()> {
    for number in 0..SEARCHES.len() {
        if let Some(size) = size_of(asked, number, PART) {
            line(rt, alloc, number, SEARCHES[number], size)?;
        }
    }
    Ok(())
}

fn run_machines<R: Clock + Print>(rt: &R, alloc: Global, asked: Option<usize>) -> io::Result<()> {
    for number in 0..MACHINES.len() {
        if let Some(size) = size_of(asked, number + BEFORE, PART) {
            line(rt, alloc, number + BEFORE, MACHINES[number], size)?;
        }
    }
    Ok(())
}

/// The search with this number, or a part of each.
pub fn run<R: Clock + Print>(rt: &R, alloc: Global, asked: Option<usize>) -> io::Result<()> {
    run_searches(rt, alloc, asked)?;
    run_machines(rt, alloc, asked)
}
