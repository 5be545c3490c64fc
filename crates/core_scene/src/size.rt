//! How long the tag of a window is.

ghost use Rattle.std.specs.Prelude.{◌≡◌, ◌≤◌, nat_eq, codes, length, IfOk};
ghost use Rattle.std.specs.List.{ends_with};
ghost use Rattle.core_windows.specs.Panes.{window_of};
ghost use Rattle.core_scene.specs.NewItems.{shown_of};
ghost use Rattle.core_scene.specs.Sizes.{word_size, shows_put, words_size, left_size, whole_size, size_of};

use am_text::{NoMemory, Rune, SLASH};
use core_windows::Pane;
use win_ctl::Shown;

/// What the length of a window's tag depends on: how many runes its name and its right part have, and what it shows.
#[derive(Clone, Copy)]
pub(crate) struct TagSize {
    pub name: usize,
    pub right: usize,
    pub shown: Shown,
}

fn is_dir(name: &[Rune]) -> bool
    ensures { result ≡ ends_with nat_eq name.now (codes "/") }
{
    name.ends_with(&[SLASH])
}

fn shown_of(pane: &Pane) -> Shown
    ensures { result ≡ shown_of (window_of pane.now) }
{
    Shown {
        undo: pane.body.can_undo(),
        redo: pane.body.can_redo(),
        modified: pane.modified,
        dir: is_dir(pane.name.as_slice()),
    }
}

fn word_size(shown: bool, size: usize) -> usize
    ensures exact { result ≡ word_size shown size }
    ensures within { result ≤ size }
{
    if shown { size } else { 0 }
}

impl TagSize {
    /// That of a window.
    pub(crate) fn of(pane: &Pane) -> TagSize
        ensures { result ≡ size_of (window_of pane.now) }
    {
        TagSize {
            name: pane.name.len(),
            right: pane.right.len(),
            shown: shown_of(pane),
        }
    }

    fn shows_put(self) -> bool
        ensures { result ≡ shows_put self }
    {
        self.name != 0 && self.shown.modified && !self.shown.dir
    }

    // The commands that are offered, and the bar.
    fn words(self) -> usize
        ensures exact { result ≡ words_size self }
        ensures within { result ≤ 30 }
    {
        b" Del Snarf".len()
            + word_size(self.shown.undo, b" Undo".len())
            + word_size(self.shown.redo, b" Redo".len())
            + word_size(self.shows_put(), b" Put".len())
            + word_size(self.shown.dir, b" Get".len())
            + b" |".len()
    }

    /// How many runes the part has that the editor computes.
    pub(crate) fn left(self) -> Result<usize, NoMemory>
        ensures { IfOk result (λ runes. runes ≡ left_size self) }
    {
        self.name.checked_add(self.words()).ok_or(NoMemory)
    }

    /// How many runes the whole tag has.
    pub(crate) fn whole(self) -> Result<usize, NoMemory>
        ensures { IfOk result (λ runes. runes ≡ whole_size self) }
    {
        self.left()?.checked_add(self.right).ok_or(NoMemory)
    }
}
