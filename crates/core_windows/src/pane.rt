//! A window as the editor keeps it.

ghost use Rattle.std.specs.Prelude.{◌≡◌, codes, IfOk};
ghost use Rattle.core_windows.specs.Windows.{named_window};
ghost use Rattle.core_windows.specs.Panes.{window_of};

use am_text::{NoMemory, Roomy, Rune, Runes, SPACE};
use std::alloc::Global;
use win_text::Body;

/// What the right part of a new window's tag holds.
const LOOK: [Rune; 6] = [
    SPACE,
    b'L' as Rune,
    b'o' as Rune,
    b'o' as Rune,
    b'k' as Rune,
    SPACE,
];

/// A window: its name, the right part of its tag, its body, and whether it is modified.
#[derive(Drop)]
pub struct Pane {
    pub name: Runes,
    pub right: Roomy<Rune>,
    pub body: Body,
    pub modified: bool,
}

// The right part of a new window's tag.
fn new_right(alloc: Global) -> Result<Roomy<Rune>, NoMemory>
    ensures { IfOk result (λ right. right.items ≡ codes " Look ") }
{
    let mut right = Roomy::new(alloc);
    right.reserve(LOOK.len())?;
    right.put_all(&LOOK);
    Ok(right)
}

impl Pane {
    /// The new window of this name.
    pub(crate) fn new(alloc: Global, name: Runes) -> Result<Pane, NoMemory>
        ensures { IfOk result (λ pane. window_of pane ≡ named_window name) }
    {
        Ok(Pane {
            name,
            right: new_right(alloc)?,
            body: Body::new(alloc),
            modified: false,
        })
    }
}
