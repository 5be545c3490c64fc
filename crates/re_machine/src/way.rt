//! How a search reads a text.

ghost use Rattle.std.specs.Prelude.{◌≡◌, ◌<◌, ◌≤◌, length};
ghost use Rattle.re_machine.specs.Ways.{reading};

use am_text::{Letters, Rune};
use re_spans::{Here, here_at};

/// Which way a search goes through the text. Backward a place is counted from the end of the text.
#[derive(Clone, Copy)]
pub enum Way {
    On,
    Back,
}

/// The rune that stands after a place.
pub fn rune_at<T: Letters>(text: &T, way: Way, k: usize) -> Rune
    requires { k < length (T.letters text.now) }
    ensures { result ≡ (reading way (T.letters text.now)).rune k }
{
    match way {
        Way::On => text.at(k),
        Way::Back => text.at(text.len() - (k + 1)),
    }
}

/// What a place is.
pub fn place_at<T: Letters>(text: &T, way: Way, k: usize) -> Here
    requires { k ≤ length (T.letters text.now) }
    ensures { result ≡ (reading way (T.letters text.now)).here k }
{
    match way {
        Way::On => here_at(text, k),
        Way::Back => here_at(text, text.len() - k),
    }
}
