//! The summary of a drill.

ghost use Rattle.std.specs.Prelude.{◌≡◌, ◌++◌, count_by, OnOk, IfOk};
ghost use Rattle.am_drill.specs.Summary.{runes_of, has_taken, has_pending, line, summary_text};

use crate::counting::Count;
use am_journal::{ItemView, View, WindowView};
use am_text::{Bytes, Items, NoMemory, decimal};
use std::alloc::Global;
use win_events::Life;

fn put_line(alloc: Global, out: &mut Bytes, name: &[u8], number: u64) -> Result<(), NoMemory>
    ensures { OnOk result (out.new ≡ out.old ++ line name.now number) }
{
    out.append(name)?;
    out.append(decimal(alloc, number)?.as_slice())?;
    out.append(b"\n")?;
    Ok(())
}

// How many runes the body of a window has, where it lives.
fn runes_of(window: u32, views: &[WindowView]) -> u64
    ensures { result ≡ runes_of window views.now }
{
    let mut rest = views;
    while let [view, after @ ..] = rest {
        if view.id == window {
            return view.body.len() as u64;
        }
        rest = after;
    }
    0
}

fn taken(items: &[ItemView]) -> u64
    ensures { result ≡ count_by has_taken items.now }
{
    items
        .iter()
        .filter(|item| matches!(item.life, Life::Taken { .. }))
        .count() as u64
}

fn pending(items: &[ItemView]) -> u64
    ensures { result ≡ count_by has_pending items.now }
{
    items
        .iter()
        .filter(|item| matches!(item.life, Life::Pending))
        .count() as u64
}

/// The summary of what the view and the count of replies tell.
#[tactic(auto, unfolding(crate::specs::Summary::summary_text))]
pub(crate) fn summary_text(alloc: Global, view: &View, count: Count) -> Result<Bytes, NoMemory>
    ensures { IfOk result (λ text. text ≡ summary_text view.now count) }
{
    let items = view.items.as_slice();
    let mut text = Items::new(alloc);
    put_line(alloc, &mut text, b"entries ", view.entries)?;
    put_line(alloc, &mut text, b"replies ", count.replies)?;
    put_line(alloc, &mut text, b"reply bytes ", count.bytes)?;
    put_line(
        alloc,
        &mut text,
        b"body runes ",
        runes_of(1, view.windows.as_slice()),
    )?;
    put_line(alloc, &mut text, b"items ", items.len() as u64)?;
    put_line(alloc, &mut text, b"taken ", taken(items))?;
    put_line(alloc, &mut text, b"pending ", pending(items))?;
    Ok(text)
}
