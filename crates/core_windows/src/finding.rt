//! Windows by number and by name.

ghost use Rattle.std.specs.Prelude.{◌≡◌, ◌+◌, ◌<◌, true, false, Option, Some, None, MatchOption, IfSome, IsSome};
ghost use Rattle.std.specs.Prelude.{length, slice_get, slice_index_or, position};
ghost use Rattle.std.specs.Option.{option_map};
ghost use Rattle.core_windows.specs.Numbering.{IsWorldOf};
ghost use Rattle.core_windows.specs.Places.{when_made};
ghost use Rattle.core_windows.specs.Windows.{window_at, named};
ghost use Rattle.core_windows.specs.Panes.{window_of, windows_of, has_name, pane_at, IsPlaceOf};
ghost use Rattle.core_windows.specs.declared.pane.Pane.{Pane};

use crate::pane::Pane;
use acme_tree::World;
use am_text::Rune;

fn is_live(panes: &[Option<Pane>], place: usize) -> bool
    ensures live { result ≡ true → (place < length panes.now)
        × ((d : Option Pane) → IsSome (slice_index_or panes.now place d)) }
    ensures none { result ≡ false → when_made (slice_get panes.now place) ≡ None }
{
    match panes.get(place) {
        Some(pane) => pane.is_some(),
        None => false,
    }
}

/// The place of the window of that number, if it lives.
pub(crate) fn place_of(panes: &[Option<Pane>], window: u32) -> Option<usize>
    ensures { MatchOption result (pane_at panes.now window ≡ None) (IsPlaceOf panes.now window) }
{
    let place = (window as usize).checked_sub(1)?;
    if is_live(panes, place) {
        Some(place)
    } else {
        None
    }
}

/// The window of that number, if it lives.
pub(crate) fn pane_at(panes: &[Option<Pane>], window: u32) -> Option<&Pane>
    ensures { MatchOption result
        (window_at (windows_of panes.now) window ≡ None)
        (λ pane. window_at (windows_of panes.now) window ≡ Some (window_of pane.now)) }
{
    let place = place_of(panes, window)?;
    panes[place].as_ref()
}

fn has_name(pane: &Option<Pane>, name: &[Rune]) -> bool
    ensures { result ≡ has_name name.now pane.now }
{
    match pane {
        Some(pane) => pane.name.as_slice() == name,
        None => false,
    }
}

// The place of the first window that has this name.
fn named_place(panes: &[Option<Pane>], name: &[Rune]) -> Option<usize>
    ensures exact { result ≡ position (has_name name.now) panes.now }
    ensures lives { IfSome result (λ place. (place < length panes.now)
        × ((d : Option Pane) → IsSome (slice_index_or panes.now place d))) }
{
    panes.iter().position(|pane| has_name(pane, name))
}

// The number of the window at a place.
fn number_at(world: &World, panes: &[Option<Pane>], place: Option<usize>) -> Option<u32>
    requires few { IsWorldOf world.now (windows_of panes.now) }
    requires place { IfSome place (λ at. at < length panes.now) }
    ensures { result ≡ option_map (λ at. at + 1) place }
{
    // law: the windows are fewer than 2^32, known once their next number is read
    let _next = world.next;
    match place {
        Some(at) => Some(at as u32 + 1),
        None => None,
    }
}

/// The number of the first live window that has this name.
pub(crate) fn number_of(world: &World, panes: &[Option<Pane>], name: &[Rune]) -> Option<u32>
    requires { IsWorldOf world.now (windows_of panes.now) }
    ensures number { result ≡ named (windows_of panes.now) name.now }
    ensures lives { IfSome result (λ window. IsSome (window_at (windows_of panes.now) window)) }
{
    number_at(world, panes, named_place(panes, name))
}
