//! What is read and written by a window's address: the files `addr`, `data` and `xdata`, after acme(4).

ghost use Rattle.std.specs.Prelude.{◌≡◌, ◌+◌, ◌<◌, ◌^◌, IfOk, IfErr, Ok, length};
ghost use Rattle.core_windows.specs.Windows.{window_at};
ghost use Rattle.ninep_types.specs.Limits.{rread_head};
ghost use Rattle.core_answers.specs.Addressing.{sets_addr, edits_with_addr, addr_text, data_reaction, xdata_reaction};
ghost use Rattle.core_answers.specs.Addressing.{fault_of, addr_reaction, taking_reaction};
ghost use Rattle.core_fids.specs.Done.{IsDone};
ghost use Rattle.core_fids.specs.Refusals.{Gives};

use crate::read::show;
use am_text::{Bytes, Items, NoMemory, Range};
use core_addresses::{
    Given, RangeFault, Taken, address_range, data_given, data_taken, range_text, xdata_given,
};
use core_fids::{Effect, Fault, Reaction, Refusal};
use core_windows::{Change, Changes, Edits, Setting, Windows};
use ninep_types::RBody;
use std::alloc::Global;

fn sets_addr(alloc: Global, window: u32, range: Range) -> Result<Changes, NoMemory>
    ensures { IfOk result (λ changes. changes ≡ sets_addr window range) }
{
    let mut changes = Items::new(alloc);
    changes.push(Change::Sets {
        window,
        setting: Setting::Addr(range),
    })?;
    Ok(changes)
}

fn edits_with_addr(
    alloc: Global,
    window: u32,
    edits: Edits,
    range: Range,
) -> Result<Changes, NoMemory>
    ensures { IfOk result (λ changes. changes ≡ edits_with_addr window edits range) }
{
    let mut changes = Items::new(alloc);
    changes.push(Change::Edits { window, edits })?;
    changes.push(Change::Sets {
        window,
        setting: Setting::Addr(range),
    })?;
    Ok(changes)
}

/// What a read of `addr` shows; nothing where the window doesn't live.
pub(crate) fn addr_text(alloc: Global, windows: &Windows, window: u32) -> Result<Bytes, NoMemory>
    ensures { IfOk result (λ text. text ≡ addr_text (window_at windows.now.present window)) }
{
    match windows.get(window) {
        Some(pane) => range_text(alloc, pane.body.addr()),
        None => Ok(Items::new(alloc)),
    }
}

/// What a read of `data` does.
#[tactic(auto, using(crate::proofs::Possibly::addressing))]
pub(crate) fn read_data(
    alloc: Global,
    windows: &Windows,
    window: u32,
    count: u32,
) -> Result<Reaction, NoMemory>
    requires { count + rread_head < 2 ^ 32 }
    ensures exact { IfOk result (λ d. d ≡ data_reaction window count (window_at windows.now.present window)) }
    ensures done { IfOk result (IsDone windows.now.present) }
{
    match windows.get(window) {
        Some(pane) => {
            let Given { bytes, addr } = data_given(alloc, &pane.body, count as usize)?;
            let changes = sets_addr(alloc, window, addr)?;
            Ok(Reaction::plain(Effect::Nothing, changes, RBody::Read { bytes }))
        }
        None => Ok(show(alloc, Items::new(alloc))),
    }
}

/// What a read of `xdata` does.
#[tactic(auto, using(crate::proofs::Possibly::addressing))]
pub(crate) fn read_xdata(
    alloc: Global,
    windows: &Windows,
    window: u32,
    count: u32,
) -> Result<Reaction, NoMemory>
    requires { count + rread_head < 2 ^ 32 }
    ensures exact { IfOk result (λ d. d ≡ xdata_reaction window count (window_at windows.now.present window)) }
    ensures done { IfOk result (IsDone windows.now.present) }
{
    match windows.get(window) {
        Some(pane) => {
            let Given { bytes, addr } = xdata_given(alloc, &pane.body, count as usize)?;
            let changes = sets_addr(alloc, window, addr)?;
            Ok(Reaction::plain(Effect::Nothing, changes, RBody::Read { bytes }))
        }
        None => Ok(show(alloc, Items::new(alloc))),
    }
}

fn fault_of(fault: RangeFault) -> Fault
    ensures { result ≡ fault_of fault }
{
    match fault {
        RangeFault::BadAddress => Fault::Refused(Refusal::BadAddress),
        RangeFault::OutOfRange => Fault::Refused(Refusal::AddressOutOfRange),
        RangeFault::NoMatch => Fault::Refused(Refusal::NoMatch),
        RangeFault::OutOfOrder => Fault::Refused(Refusal::AddressOutOfOrder),
        RangeFault::PartialRune => Fault::Refused(Refusal::PartialRune),
        RangeFault::TooLong => Fault::Refused(Refusal::TextTooLong),
        RangeFault::NoMemory => Fault::NoMemory,
    }
}

/// What a write to `addr` does: the address becomes the range that is written.
#[tactic(auto, using(crate::proofs::Possibly::addressing))]
pub(crate) fn write_addr(
    alloc: Global,
    windows: &Windows,
    window: u32,
    bytes: &[u8],
) -> Result<Reaction, Fault>
    requires { length bytes.now < 2 ^ 32 }
    ensures exact { IfOk result (λ d. addr_reaction window bytes.now (window_at windows.now.present window) ≡ Ok d) }
    ensures refused { IfErr result (λ e. Gives e (addr_reaction window bytes.now
        (window_at windows.now.present window))) }
    ensures done { IfOk result (IsDone windows.now.present) }
{
    let Some(pane) = windows.get(window) else {
        return Err(Fault::Refused(Refusal::WindowDeleted));
    };
    let range = match address_range(alloc, &pane.body, bytes) {
        Ok(range) => range,
        Err(fault) => return Err(fault_of(fault)),
    };
    Ok(Reaction::plain(
        Effect::Nothing,
        sets_addr(alloc, window, range)?,
        RBody::Write {
            count: bytes.len() as u32,
        },
    ))
}

/// What a write to `data` or `xdata` does: the text takes the place of the address, which then is behind it.
#[tactic(auto, using(crate::proofs::Possibly::addressing))]
pub(crate) fn write_data(
    alloc: Global,
    windows: &Windows,
    window: u32,
    bytes: &[u8],
) -> Result<Reaction, Fault>
    requires { length bytes.now < 2 ^ 32 }
    ensures exact { IfOk result (λ d. taking_reaction window bytes.now (window_at windows.now.present window) ≡ Ok d) }
    ensures refused { IfErr result (λ e. Gives e (taking_reaction window bytes.now
        (window_at windows.now.present window))) }
    ensures done { IfOk result (IsDone windows.now.present) }
{
    let Some(pane) = windows.get(window) else {
        return Err(Fault::Refused(Refusal::WindowDeleted));
    };
    let Taken { edits, addr } = match data_taken(alloc, &pane.body, bytes) {
        Ok(taken) => taken,
        Err(fault) => return Err(fault_of(fault)),
    };
    Ok(Reaction::plain(
        Effect::Nothing,
        edits_with_addr(alloc, window, edits, addr)?,
        RBody::Write {
            count: bytes.len() as u32,
        },
    ))
}
