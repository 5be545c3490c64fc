//! The item that a message written back names.

ghost use Rattle.std.specs.Prelude.{◌≡◌, ◌≤◌, length, take};
ghost use Rattle.std.specs.List.{list_any};
ghost use Rattle.event_book.specs.Finding.{same_range, expands_to, fits, is_open_fit, is_back_fit, last_from, found_or};
ghost use Rattle.event_book.specs.Finding.{found_in};

use crate::lives::Recorded;
use am_text::{Range, Runes};
use win_events::{BackMsg, Item, Life};

/// Why a message written back names no item.
#[derive(Clone, Copy, Debug, PartialEq, Eq)]
pub enum BackFault {
    /// No item that was taken and isn't yet written back fits, and one that was written back does.
    Already,
    /// No item that was taken fits, written back or not.
    NoSuch,
}

fn same_range(a: Range, b: Range) -> bool
    ensures { result ≡ same_range a b }
{
    a.q0 == b.q0 && a.q1 == b.q1
}

fn expands_to(expanded: &Option<(Range, Runes)>, range: Range) -> bool
    ensures { result ≡ expands_to expanded.now range }
{
    match expanded {
        None => false,
        Some((found, _)) => same_range(*found, range),
    }
}

// The type of the message, and its range or that range as the expansion.
fn fits(message: &BackMsg, item: &Item) -> bool
    ensures { result ≡ fits message.now item.now }
{
    message.sort == item.sort
        && (same_range(item.range, message.range) || expands_to(&item.expanded, message.range))
}

fn is_open_fit(message: &BackMsg, recorded: &Recorded) -> bool
    ensures { result ≡ is_open_fit message.now recorded.now }
{
    match recorded.life {
        Life::Taken { .. } => fits(message, &recorded.item),
        _ => false,
    }
}

fn is_back_fit(message: &BackMsg, recorded: &Recorded) -> bool
    ensures { result ≡ is_back_fit message.now recorded.now }
{
    match recorded.life {
        Life::Back { .. } => fits(message, &recorded.item),
        _ => false,
    }
}

// The number of the last item that was taken, isn't written back, and fits.
fn last_open_fit(message: &BackMsg, all: &[Recorded]) -> Option<u64>
    ensures { result ≡ last_from (is_open_fit message.now) 1 all.now }
{
    let mut rest = all.len();
    'from_end: while rest > 0 {
        rest -= 1;
        if is_open_fit(message, &all[rest]) {
            return Some(rest as u64 + 1);
        }
    }
    None
}

fn any_back_fit(message: &BackMsg, all: &[Recorded]) -> bool
    ensures { result ≡ list_any (is_back_fit message.now) all.now }
{
    all.iter().any(|recorded| is_back_fit(message, recorded))
}

/// The number of the item that the message names: the last one that was taken, isn't yet written
/// back, and fits. Where there is none: `Already` if one that was written back fits, else `NoSuch`.
/// It takes no memory.
pub fn found_in(message: &BackMsg, all: &[Recorded]) -> Result<u64, BackFault>
    ensures { result ≡ found_in message.now all.now }
{
    match last_open_fit(message, all) {
        Some(number) => Ok(number),
        None if any_back_fit(message, all) => Err(BackFault::Already),
        None => Err(BackFault::NoSuch),
    }
}
