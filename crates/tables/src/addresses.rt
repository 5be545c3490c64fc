//! Addresses: what they mean in a text, and where they end.
//!
//! | line | answer |
//! |---|---|
//! | `addr` TEXT DOT LIMIT ADDRESS | `Q0 Q1`, the value of the address, or `range`, `no match` or `order` |
//! | `address` PLACE TEXT | where the address ends that begins at the place, and what it is |
//!
//! Dot and the limit are two places with a comma between them; a limit `-` is the whole text. An address is `plus`,
//! `minus`,
//! `comma` or `semi` by the operator that joins its sides, `zero`, or another `part`; `deep` and `nodes` tell the limit
//! that it passes. A text that is no address is answered `bad PLACE`, and by `addr` with `nodes` or `deep` too.

ghost use Rattle.std.specs.Prelude.{IfOk};
ghost use Rattle.sam_address.specs.Value.{IsInside};

use crate::fault::Fault;
use crate::fields::{cut, cut_twice, number_of, range_in, range_line, text_of};
use addr_syntax::{Limited, addr_at, parse_addr};
use am_text::{Range, Runes};
use sam_address::{Addr, AddrFault, value};
use std::alloc::Global;

impl From<AddrFault> for Fault {
    fn from(fault: AddrFault) -> Fault {
        match fault {
            AddrFault::Range => Fault::Says("range"),
            AddrFault::NoMatch => Fault::Says("no match"),
            AddrFault::Order => Fault::Says("order"),
            AddrFault::NoMemory => Fault::NoMemory,
        }
    }
}

fn limit_in(field: &str, text: &Runes) -> Result<Range, Fault>
    ensures { IfOk result (IsInside text.now) }
{
    if field == "-" {
        return Ok(Range {
            q0: 0,
            q1: text.len(),
        });
    }
    range_in(field, text)
}

fn address_of(alloc: Global, field: &str) -> Result<Addr, Fault> {
    let text = text_of(alloc, field)?;
    Ok(parse_addr(alloc, text.as_slice())?)
}

fn value_line(
    alloc: Global,
    addr: &Addr,
    text: &Runes,
    dot: &str,
    limit: &str,
) -> Result<Vec<u8>, Fault> {
    let dot = range_in(dot, text)?;
    let limit = limit_in(limit, text)?;
    range_line(alloc, value(alloc, addr, text, dot, limit)?)
}

/// The value of an address.
pub fn valued(alloc: Global, case: &str) -> Result<Vec<u8>, Fault> {
    let (text, dot, fields) = cut_twice(case)?;
    let (limit, addr) = cut(fields)?;
    let text = text_of(alloc, text)?;
    let addr = address_of(alloc, addr)?;
    value_line(alloc, &addr, &text, dot, limit)
}

fn part_word(addr: &Addr) -> &'static str {
    match addr {
        Addr::Zero => "zero",
        Addr::Plus(_, _) => "plus",
        Addr::Minus(_, _) => "minus",
        Addr::Comma(_, _) => "comma",
        Addr::Semi(_, _) => "semi",
        _ => "part",
    }
}

/// What an address is.
pub fn address_word(addr: &Limited<Addr>) -> &'static str {
    match addr {
        Limited::Whole(addr) => part_word(addr),
        Limited::Deep => "deep",
        Limited::Large => "nodes",
    }
}

/// Where an address ends.
pub fn ended(alloc: Global, case: &str) -> Result<Vec<u8>, Fault> {
    let (place, text) = cut(case)?;
    let from: usize = number_of(place)?;
    let text = text_of(alloc, text)?;
    if text.len() < from {
        return Err(Fault::NoCase);
    }
    let (addr, end) = addr_at(alloc, text.as_slice(), from)?;
    Ok(format!(in alloc; "{end} {}", address_word(&addr))?.into_bytes())
}
