//! The text that a click stands for.

ghost use Rattle.std.specs.Prelude.{◌≡◌, ◌≤◌, ◌<◌, ◌-◌, ◌+◌, length, take, drop, IfSome, ℕ};
ghost use Rattle.std.specs.List.{prefix_len, suffix_len};
ghost use Rattle.acme_cmd.specs.Expansion.{is_sign, is_look, is_over, not_null, holding, expansion, IsFound};

use crate::blanks::is_blank;
use am_text::{Letters, Range, Rune};

/// The last rune of ASCII.
const LAST_ASCII: Rune = 0x7F;

/// The command of a click: it says over which characters the click is expanded.
#[derive(Clone, Copy, Debug, PartialEq, Eq)]
pub enum Click {
    /// Any but blank, tab and newline.
    Exec,
    /// ASCII letters and digits, `_.-+/:#$`, and all past ASCII.
    Look,
}

fn is_sign(byte: u8) -> bool
    ensures { result ≡ is_sign byte }
{
    byte == b'_'
        || byte == b'.'
        || byte == b'-'
        || byte == b'+'
        || byte == b'/'
        || byte == b':'
        || byte == b'#'
        || byte == b'$'
}

fn is_look(rune: Rune) -> bool
    ensures { result ≡ is_look rune }
{
    if rune > LAST_ASCII {
        return true;
    }
    let byte = rune as u8;
    byte.is_ascii_alphanumeric() || is_sign(byte)
}

#[tactic(auto, unfolding(crate::specs::Expansion::is_over))]
fn is_over(click: Click, rune: Rune) -> bool
    ensures { result ≡ is_over click rune }
{
    match click {
        Click::Exec => !is_blank(rune),
        Click::Look => is_look(rune),
    }
}

// The start of the run that ends at a place.
fn run_start<T: Letters>(text: &T, at: usize, click: Click) -> usize
    requires { at ≤ length (T.letters text.now) }
    ensures { result ≡ at - suffix_len (is_over click) (take at (T.letters text.now)) }
{
    let mut start = at;
    while start > 0 && is_over(click, text.at(start - 1)) {
        start -= 1;
    }
    start
}

// The end of the run that begins at a place.
fn run_end<T: Letters>(text: &T, at: usize, click: Click) -> usize
    requires { at ≤ length (T.letters text.now) }
    ensures exact { result ≡ at + prefix_len (is_over click) (drop at (T.letters text.now)) }
    ensures inside { result ≤ length (T.letters text.now) }
{
    let length = text.len();
    let mut end = at;
    while end < length && is_over(click, text.at(end)) {
        end += 1;
    }
    end
}

fn not_null(range: Range) -> Option<Range>
    ensures exact { result ≡ not_null range }
    ensures found { IfSome result (λ r. (r.q0 < r.q1) × (r.q1 ≤ range.q1)) }
{
    if range.q0 < range.q1 {
        Some(range)
    } else {
        None
    }
}

// Dot, if it isn't null and the place is in it or at one of its ends.
fn holding(dot: Option<Range>, at: usize) -> Option<Range>
    ensures exact { result ≡ holding dot at }
    ensures found { (n : ℕ) → IfSome dot (λ d. d.q1 ≤ n) → IfSome result (IsFound n) }
{
    match dot {
        Some(dot) if dot.q0 < dot.q1 && dot.q0 <= at && at <= dot.q1 => Some(dot),
        _ => None,
    }
}

/// The range that a click at a place stands for: dot, if it isn't null and the place is in it or at one
/// of its ends, else the longest run of characters round the place. None exactly where that is empty. It
/// takes no memory.
pub fn expand<T: Letters>(text: &T, dot: Option<Range>, at: usize, click: Click) -> Option<Range>
    requires place { at ≤ length (T.letters text.now) }
    ensures exact { result ≡ expansion (T.letters text.now) dot at click }
    // Where dot lies in the text, so does what is found.
    ensures inside { let n = length (T.letters text.now) in IfSome dot (λ d. d.q1 ≤ n) → IfSome result (IsFound n) }
{
    match holding(dot, at) {
        Some(dot) => Some(dot),
        None => not_null(Range {
            q0: run_start(text, at, click),
            q1: run_end(text, at, click),
        }),
    }
}
