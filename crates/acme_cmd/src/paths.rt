//! Paths of files.

ghost use Rattle.std.specs.Prelude.{◌≡◌};
ghost use Rattle.std.specs.List.{list_all, slice_split};
ghost use Rattle.acme_cmd.specs.Names.{is_slash};
ghost use Rattle.acme_cmd.specs.Paths.{is_path_rune, is_part, is_path};

use crate::names::{cut_part, is_here, is_up};
use am_text::{BACKSLASH, Rune, SLASH, SPACE};

fn is_path_rune(rune: Rune) -> bool
    ensures { result ≡ is_path_rune rune }
{
    rune > SPACE && rune != BACKSLASH
}

// Whether all runes may stand in a path.
fn has_path_runes(text: &[Rune]) -> bool
    ensures { result ≡ list_all is_path_rune text.now }
{
    let mut rest = text;
    while let [rune, after @ ..] = rest {
        if !is_path_rune(*rune) {
            return false;
        }
        rest = after;
    }
    true
}

// Whether this may stand between slashes.
fn is_part(part: &[Rune]) -> bool
    ensures { result ≡ is_part part.now }
{
    !part.is_empty() && !is_here(part) && !is_up(part) && has_path_runes(part)
}

// Whether all that stands between slashes may do so.
#[tactic(auto, using(crate::proofs::Cuts::cuts))]
fn has_parts(text: &[Rune]) -> bool
    ensures { result ≡ list_all is_part (slice_split is_slash text.now) }
{
    let mut rest = text;
    while let Some((part, after)) = cut_part(rest) {
        if !is_part(part) {
            return false;
        }
        rest = after;
    }
    is_part(rest)
}

/// Whether a text is the path of a file or a directory below `/`: it begins with `/`, and what stands between slashes
/// isn't empty, `.` or `..`, and has no rune up to the blank and no backslash. It takes no memory.
pub fn is_path(text: &[Rune]) -> bool
    ensures { result ≡ is_path text.now }
{
    match text {
        [first, rest @ ..] => *first == SLASH && has_parts(rest),
        [] => false,
    }
}
