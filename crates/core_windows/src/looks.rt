//! Looks at the kept state while changes wait.

ghost use Rattle.std.specs.Prelude.{◌≡◌, ◌<◌, length, Option};
ghost use Rattle.std.specs.Option.{option_map};
ghost use Rattle.core_windows.specs.Shapes.{shapes_of, shape_if_live};
ghost use Rattle.core_windows.specs.Trail.{addr_of, addr_in, kept_addr, all_unmade, unmade_by, all_undone, CanGoBack};

use crate::pane::Pane;
use crate::undo::Undo;
use am_text::Range;

// The address that this takes back in the window at a place, if it does.
fn addr_in(step: &Undo, at: usize) -> Option<Range>
    ensures { result ≡ addr_in step.now at }
{
    match step {
        Undo::Unmake => None,
        Undo::Revive(place, pane) => {
            if *place == at {
                Some(pane.body.addr())
            } else {
                None
            }
        }
        Undo::Restore(place, back) => {
            if *place == at {
                Some(back.trace.marks.addr)
            } else {
                None
            }
        }
    }
}

fn unmade_by(step: &Undo) -> usize
    ensures { result ≡ unmade_by step.now }
{
    match step {
        Undo::Unmake => 1,
        Undo::Revive(_, _) => 0,
        Undo::Restore(_, _) => 0,
    }
}

// How many windows these take away.
fn all_unmade(trail: &[Undo]) -> usize
    ensures { result ≡ all_unmade trail.now }
{
    let mut count = 0;
    let mut rest = trail;
    while let [step, after @ ..] = rest {
        count += unmade_by(step);
        rest = after;
    }
    count
}

fn addr_of(slot: &Option<Pane>) -> Option<Range>
    ensures { result ≡ option_map addr_of (shape_if_live slot.now) }
{
    match slot {
        Some(pane) => Some(pane.body.addr()),
        None => None,
    }
}

// The address of a window that was there at the last `keep`.
fn old_addr(trail: &[Undo], panes: &[Option<Pane>], at: usize) -> Option<Range>
    requires can { CanGoBack trail.now (shapes_of panes.now) }
    requires within { at < length (all_undone trail.now (shapes_of panes.now)) }
    ensures { result ≡ kept_addr trail.now (shapes_of panes.now) at }
{
    let mut rest = trail;
    while let Some((step, after)) = rest.split_first() {
        if let Some(range) = addr_in(step, at) {
            return Some(range);
        }
        rest = after;
    }
    addr_of(&panes[at])
}

/// The address that the window at a place had at the last `keep`, if it lived then.
pub(crate) fn kept_addr(trail: &[Undo], panes: &[Option<Pane>], at: usize) -> Option<Range>
    requires { CanGoBack trail.now (shapes_of panes.now) }
    ensures { result ≡ kept_addr trail.now (shapes_of panes.now) at }
{
    if at < panes.len() - all_unmade(trail) {
        old_addr(trail, panes, at)
    } else {
        None
    }
}
