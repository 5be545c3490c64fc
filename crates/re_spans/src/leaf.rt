//! What the leaves of a tree match.

ghost use Rattle.std.specs.Prelude.{◌≡◌, ◌<◌, ◌≤◌, ◌-◌, ◌==◌, ◌&&◌, ◌||◌, length, slice_index, nat_lt};
ghost use Rattle.am_text.specs.Ascii.{newline};
ghost use Rattle.re_syntax.specs.Tree.{tree};
ghost use Rattle.re_syntax.specs.Match.{is_in, is_in_class};
ghost use Rattle.re_spans.specs.Turns.{lower};
ghost use Rattle.re_spans.specs.Leaves.{takes, is_null, here_at, read_at};

use crate::way::{Way, lower};
use am_text::{Letters, NEWLINE, Rune};
use re_syntax::{Re, RuneSpans};

/// What the null text at a place is: the one before the first rune of a line, the one at its end.
#[derive(Clone, Copy)]
pub struct Here {
    pub starts: bool,
    pub ends: bool,
}

/// A step of a search: the rune that it goes over, and the place to which it comes.
#[derive(Clone, Copy)]
pub struct Read {
    pub rune: Rune,
    pub here: Here,
}

fn has_rune(spans: &[(Rune, Rune)], c: Rune) -> bool
    ensures { result ≡ is_in spans.now c }
{
    spans.iter().any(|s| s.0 <= c && c <= s.1)
}

fn is_in_class(not: bool, spans: &RuneSpans, c: Rune) -> bool
    ensures { result ≡ is_in_class not spans.now c }
{
    let inside = has_rune(spans.as_slice(), c);
    if not {
        !(inside || c == NEWLINE)
    } else {
        inside
    }
}

/// Whether a leaf matches this one rune.
pub fn takes(re: &Re, rune: Rune) -> bool
    ensures { result ≡ takes (tree re.now) rune }
{
    match re {
        Re::Lit(c) => rune == *c,
        Re::Any => rune != NEWLINE,
        Re::Class { not, spans } => is_in_class(*not, spans, rune),
        Re::Start => false,
        Re::End => false,
        Re::Cat(..) => false,
        Re::Alt(..) => false,
        Re::Star(_) => false,
        Re::Plus(_) => false,
        Re::Opt(_) => false,
        Re::Group(..) => false,
    }
}

/// Whether a leaf matches the null text here.
pub fn is_null(re: &Re, here: Here) -> bool
    ensures { result ≡ is_null (tree re.now) here }
{
    match re {
        Re::Start => here.starts,
        Re::End => here.ends,
        Re::Lit(_) => false,
        Re::Any => false,
        Re::Class { .. } => false,
        Re::Cat(..) => false,
        Re::Alt(..) => false,
        Re::Star(_) => false,
        Re::Plus(_) => false,
        Re::Opt(_) => false,
        Re::Group(..) => false,
    }
}

fn is_line_start<T: Letters>(text: &T, i: usize) -> bool
    ensures { result ≡ (nat_lt i (length (T.letters text.now)) && ((i == 0)
        || (slice_index (T.letters text.now) (i - 1) == newline))) }
{
    i < text.len() && (i == 0 || text.at(i - 1) == NEWLINE)
}

fn is_line_end<T: Letters>(text: &T, i: usize) -> bool
    requires { i ≤ length (T.letters text.now) }
    ensures { result ≡ ((i == length (T.letters text.now)) || (slice_index (T.letters text.now) i == newline)) }
{
    i == text.len() || text.at(i) == NEWLINE
}

/// What the null text at a place is.
pub fn here_at<T: Letters>(text: &T, i: usize) -> Here
    requires { i ≤ length (T.letters text.now) }
    ensures { result ≡ here_at (T.letters text.now) i }
{
    Here {
        starts: is_line_start(text, i),
        ends: is_line_end(text, i),
    }
}

/// The step from a place to the next one.
pub fn read_at<T: Letters>(text: &T, way: Way, i: usize, next: usize) -> Read
    requires inside { next ≤ length (T.letters text.now) }
    requires lower { lower way i next < length (T.letters text.now) }
    ensures { result ≡ read_at way (T.letters text.now) i next }
{
    Read {
        rune: text.at(lower(way, i, next)),
        here: here_at(text, next),
    }
}
