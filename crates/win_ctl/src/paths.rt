//! Directories of names, and the names of errors windows.

ghost use Rattle.std.specs.Prelude.{◌≡◌, ◌≤◌, length, IfOk};
ghost use Rattle.win_ctl.specs.Directory.{dir_width, directory, errors_name};

use am_text::{NoMemory, PLUS, Rune, Runes, SLASH};
use std::alloc::Global;

/// The end of the name of an errors window: `+Errors`.
pub const ERRORS: [Rune; 7] = [
    PLUS,
    b'E' as Rune,
    b'r' as Rune,
    b'r' as Rune,
    b'o' as Rune,
    b'r' as Rune,
    b's' as Rune,
];

// How many runes a name has up to and with its last `/`.
fn dir_width(name: &[Rune]) -> usize
    ensures exact { result ≡ dir_width name.now }
    ensures within { result ≤ length name.now }
{
    let mut end = 0;
    let mut at = 0;
    for rune in name {
        at += 1;
        if *rune == SLASH {
            end = at;
        }
    }
    end
}

/// The directory of a name: the name up to and with its last `/`, or `/` where it has none.
#[tactic(auto, unfolding(crate::specs::Directory::directory))]
pub fn directory(alloc: Global, name: &[Rune]) -> Result<Runes, NoMemory>
    ensures { IfOk result (λ dir. dir ≡ directory name.now) }
{
    let width = dir_width(name);
    if width == 0 {
        return Runes::copied(alloc, &[SLASH]);
    }
    let (dir, _) = name.split_at(width);
    Runes::copied(alloc, dir)
}

/// The name of the window that takes what is said about a directory's windows (acme(1)).
#[tactic(auto, unfolding(crate::specs::Directory::errors_name))]
pub fn errors_name(alloc: Global, dir: &[Rune]) -> Result<Runes, NoMemory>
    ensures { IfOk result (λ name. name ≡ errors_name dir.now) }
{
    let mut name = Runes::copied(alloc, dir)?;
    name.append(&ERRORS)?;
    Ok(name)
}
