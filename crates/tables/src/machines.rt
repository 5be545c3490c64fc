//! Machines against sets of places, on random expressions and texts. A line has how many, and the number from which
//! they are drawn; its answer is `agree COUNT`, or `differ NUMBER`, the first for which a search of a machine isn't the
//! same.

ghost use Rattle.std.specs.Prelude.{◌≤◌, ◌<◌, length, IfOk};

use crate::fault::Fault;
use crate::fields::{cut, number_of};
use am_text::{Items, NoMemory, Range, Rune, Runes};
use re_machine::Machine;
use re_spans::{Re, first_match, last_match};
use std::alloc::Global;

const LETTERS: [Rune; 4] = [97, 98, 98, 10];

// Numbers that look random.
#[derive(Drop)]
struct Draws {
    state: u64,
}

impl Draws {
    // A number below a bound that isn't 0.
    fn below(&mut self, bound: u64) -> u64
        requires { 0 < bound }
        ensures { result < bound }
    {
        self.state = self
            .state
            .wrapping_mul(6_364_136_223_846_793_005)
            .wrapping_add(1_442_695_040_888_963_407);
        (self.state >> 33) % bound
    }
}

fn rune(draws: &mut Draws) -> Rune {
    let n = draws.below(4) as usize;
    LETTERS[n]
}

fn leaf(alloc: Global, draws: &mut Draws) -> Result<Re, NoMemory> {
    let kind = draws.below(8);
    let not = kind == 3;
    match kind {
        0 => Ok(Re::Start),
        1 => Ok(Re::End),
        2 => Ok(Re::Any),
        3 | 4 => {
            let mut spans = Items::new(alloc);
            spans.push((97, rune(draws)))?;
            Ok(Re::Class { not, spans })
        }
        _ => Ok(Re::Lit(rune(draws))),
    }
}

fn then(alloc: Global, a: Re, b: Re) -> Result<Re, NoMemory> {
    Ok(Re::Cat(Box::new(alloc, a)?, Box::new(alloc, b)?))
}

fn either(alloc: Global, a: Re, b: Re) -> Result<Re, NoMemory> {
    Ok(Re::Alt(Box::new(alloc, a)?, Box::new(alloc, b)?))
}

// An expression with a part more.
fn grown(alloc: Global, draws: &mut Draws, re: Re) -> Result<Re, NoMemory> {
    let kind = draws.below(8);
    match kind {
        0 => Ok(Re::Star(Box::new(alloc, re)?)),
        1 => Ok(Re::Plus(Box::new(alloc, re)?)),
        2 => Ok(Re::Opt(Box::new(alloc, re)?)),
        3 => Ok(Re::Group(1, Box::new(alloc, re)?)),
        4 => either(alloc, re, leaf(alloc, draws)?),
        5 => either(alloc, leaf(alloc, draws)?, re),
        6 => then(alloc, leaf(alloc, draws)?, re),
        _ => then(alloc, re, leaf(alloc, draws)?),
    }
}

fn side(alloc: Global, draws: &mut Draws) -> Result<Re, NoMemory> {
    let mut re = leaf(alloc, draws)?;
    for _ in 0..draws.below(8) {
        re = grown(alloc, draws, re)?;
    }
    Ok(re)
}

// An expression of more letters than a machine word has bits.
fn long(alloc: Global, draws: &mut Draws) -> Result<Re, NoMemory> {
    let mut re = side(alloc, draws)?;
    for _ in 0..70 {
        let part = leaf(alloc, draws)?;
        re = then(alloc, re, Re::Opt(Box::new(alloc, part)?))?;
    }
    Ok(re)
}

fn expression(alloc: Global, draws: &mut Draws) -> Result<Re, NoMemory> {
    if draws.below(16) == 0 {
        return long(alloc, draws);
    }
    let first = side(alloc, draws)?;
    let second = side(alloc, draws)?;
    if draws.below(2) == 0 {
        grown(alloc, draws, then(alloc, first, second)?)
    } else {
        grown(alloc, draws, either(alloc, first, second)?)
    }
}

fn text(alloc: Global, draws: &mut Draws) -> Result<Runes, NoMemory> {
    let mut all = Items::new(alloc);
    for _ in 0..draws.below(12) {
        all.push(rune(draws))?;
    }
    Ok(all)
}

// A range of a text of so many runes.
fn bounds(draws: &mut Draws, count: usize) -> Range
    ensures order { result.q0 ≤ result.q1 }
    ensures within { result.q1 ≤ count }
{
    let a = draws.below(13) as usize;
    let b = draws.below(13) as usize;
    let q1 = a.max(b).min(count);
    Range {
        q0: a.min(b).min(q1),
        q1,
    }
}

// Whether both searches of a machine find the same as those by sets of places.
fn is_same(alloc: Global, draws: &mut Draws) -> Result<bool, NoMemory> {
    let re = expression(alloc, draws)?;
    let text = text(alloc, draws)?;
    let range = bounds(draws, text.len());
    let null = draws.below(14) as usize;
    let no_null = if null < 13 { Some(null) } else { None };
    let machine = Machine::build(alloc, &re)?;
    let first = machine.forward(alloc, &text, range.q0, range.q1, no_null)?;
    let last = machine.backward(alloc, &text, range.q0, range.q1, no_null)?;
    let first_of_sets = first_match(alloc, &re, &text, range.q0, range.q1, no_null)?;
    let last_of_sets = last_match(alloc, &re, &text, range.q0, range.q1, no_null)?;
    Ok(first == first_of_sets && last == last_of_sets)
}

/// The answer to a line, without its newline.
pub fn answer(alloc: Global, line: &str) -> Result<Vec<u8>, Fault> {
    let (count, seed) = cut(line)?;
    let count: u64 = number_of(count)?;
    let mut draws = Draws {
        state: number_of(seed)?,
    };
    for number in 0..count {
        if !is_same(alloc, &mut draws)? {
            return Ok(format!(in alloc; "differ {number}")?.into_bytes());
        }
    }
    Ok(format!(in alloc; "agree {count}")?.into_bytes())
}
