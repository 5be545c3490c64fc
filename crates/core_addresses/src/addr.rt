//! The file `addr`.

ghost use Rattle.std.specs.Prelude.{◌≡◌, ◌++◌, IfOk, OnOk, IfErr, Ok, Some};
ghost use Rattle.win_text.specs.Bodies.{IsInside};
ghost use Rattle.addr_syntax.specs.Tree.{tree};
ghost use Rattle.core_addresses.specs.Ranges.{rune_number, range_text, without_newline, bounds, fault_of};
ghost use Rattle.core_addresses.specs.Ranges.{address_value, address_range};
ghost use Rattle.core_addresses.specs.Data.{Tells};

use crate::fault::RangeFault;
use addr_syntax::{Addr, read_address};
use am_text::{Bytes, Items, Letters, NEWLINE, NoMemory, Range, Rune, decimal, decode_whole};
use sam_address::{AddrFault, value};
use std::alloc::Global;
use win_text::Body;

// Puts `#n` at the end.
fn push_rune_number(text: &mut Bytes, alloc: Global, n: usize) -> Result<(), NoMemory>
    ensures { OnOk result (text.new ≡ text.old ++ rune_number n) }
{
    text.append(b"#")?;
    text.append(decimal(alloc, n as u64)?.as_slice())
}

/// What a read of `addr` shows: `#m,#n`, or `#m` where the range is null.
pub fn range_text(alloc: Global, range: Range) -> Result<Bytes, NoMemory>
    ensures { IfOk result (λ text. text ≡ range_text range) }
{
    let mut text = Items::new(alloc);
    push_rune_number(&mut text, alloc, range.q0)?;
    if range.q0 != range.q1 {
        text.append(b",")?;
        push_rune_number(&mut text, alloc, range.q1)?;
    }
    Ok(text)
}

fn without_newline(text: &[Rune]) -> &[Rune]
    ensures { result.now ≡ without_newline text.now }
{
    match text.strip_suffix(&[NEWLINE]) {
        Some(front) => front,
        None => text,
    }
}

// Where searches stay: inside the limit, or the whole text.
fn bounds(body: &Body) -> Range
    ensures exact { result ≡ bounds body.now.state }
    ensures inside { IsInside body.now.state.text result }
{
    // law: the ranges of a body are inside its text
    body.is_sound();
    match body.limit() {
        Some(limit) => limit,
        None => Range {
            q0: 0,
            q1: body.len(),
        },
    }
}

fn fault_of(fault: AddrFault) -> RangeFault
    ensures { result ≡ fault_of fault }
{
    match fault {
        AddrFault::Range => RangeFault::OutOfRange,
        AddrFault::NoMatch => RangeFault::NoMatch,
        AddrFault::Order => RangeFault::OutOfOrder,
        AddrFault::NoMemory => RangeFault::NoMemory,
    }
}

fn address_value(alloc: Global, body: &Body, address: &Addr) -> Result<Range, RangeFault>
    ensures exact { IfOk result (λ r. address_value body.now.state (Some (tree address.now)) ≡ Ok r) }
    ensures fault { IfErr result (λ e. Tells e (address_value body.now.state (Some (tree address.now)))) }
    ensures inside { IfOk result (IsInside body.now.state.text) }
{
    // law: the ranges of a body are inside its text
    body.is_sound();
    match value(alloc, address, body, body.addr(), bounds(body)) {
        Ok(range) => Ok(range),
        Err(fault) => Err(fault_of(fault)),
    }
}

/// The range that is written to `addr`: the value of the address that the bytes spell, one newline at their end being
/// dropped. In it `.` is the present `addr`, and searches stay inside the limit. A fault comes exactly where there is
/// no such range, want of memory alone at any time.
pub fn address_range(alloc: Global, body: &Body, bytes: &[u8]) -> Result<Range, RangeFault>
    ensures exact { IfOk result (λ r. address_range body.now.state bytes.now ≡ Ok r) }
    ensures fault { IfErr result (λ e. Tells e (address_range body.now.state bytes.now)) }
    ensures inside { IfOk result (IsInside body.now.state.text) }
{
    let text = decode_whole(alloc, bytes)?;
    match read_address(alloc, without_newline(text.as_slice()))? {
        Some(address) => address_value(alloc, body, &address),
        None => Err(RangeFault::BadAddress),
    }
}
