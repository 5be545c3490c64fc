//! Which way a search goes through the text.

ghost use Rattle.std.specs.Prelude.{◌≡◌, ◌-◌, ◌^◌};
ghost use Rattle.re_spans.specs.Turns.{place_at, StaysInside, lower};

/// Which way a search goes through the text.
#[derive(Clone, Copy)]
pub enum Way {
    On,
    Back,
}

/// The place to which a search that begins at a place comes after so many turns.
pub fn place_at(way: Way, at: usize, turn: usize) -> usize
    requires { StaysInside way at turn (2 ^ 64 - 1) }
    ensures { result ≡ place_at way at turn }
{
    match way {
        Way::On => at + turn,
        Way::Back => at - turn,
    }
}

/// Before which place the rune between this place and the next one stands.
pub fn lower(way: Way, i: usize, next: usize) -> usize
    ensures { result ≡ lower way i next }
{
    match way {
        Way::On => i,
        Way::Back => next,
    }
}
