//! Reading a text that stands in one line.

ghost use Rattle.std.specs.Prelude.{◌≡◌, ◌<◌, ◌++◌, ◌∷◌, [], List, ℕ, false, length, IfOk, IfSome, IfNone, Some, None};
ghost use Rattle.am_text.specs.Escapes.{unescaped_after, unescaped, IsEscape};

use crate::ascii::{BACKSLASH, LETTER_N, NEWLINE};
use crate::items::{Items, Rune, Runes};
use crate::memory::NoMemory;
use crate::utf8::{decode_whole, is_utf8};
use std::alloc::Global;

// The rune that the front stands for, and the runes after that front.
#[tactic(auto, unfolding(crate::specs::Escapes::unescaped_after))]
fn first_unescaped(runes: &[Rune]) -> Option<(Rune, &[Rune])>
    requires { 0 < length runes.now }
    ensures some { IfSome result (λ first. (text : List ℕ)
        → unescaped_after text false runes.now ≡ unescaped_after (text ++ first.0 ∷ []) false first.1.now) }
    ensures none { IfNone result ((text : List ℕ) → unescaped_after text false runes.now ≡ None) }
    ensures shorter { IfSome result (λ first. length first.1.now < length runes.now) }
{
    match runes {
        [BACKSLASH, LETTER_N, rest @ ..] => Some((NEWLINE, rest)),
        [BACKSLASH, BACKSLASH, rest @ ..] => Some((BACKSLASH, rest)),
        [BACKSLASH, ..] => None,
        [NEWLINE, ..] => None,
        [rune, rest @ ..] => Some((*rune, rest)),
        [] => None,
    }
}

// The text whose escape the runes are, if there is one.
#[tactic(auto, unfolding(crate::specs::Escapes::unescaped_after))]
fn unescape_runes(alloc: Global, runes: &[Rune]) -> Result<Option<Runes>, NoMemory>
    ensures { IfOk result (λ text. text ≡ unescaped_after [] false runes.now) }
{
    let mut text = Items::new(alloc);
    let mut rest = runes;
    while !rest.is_empty() {
        match first_unescaped(rest) {
            Some((rune, after)) => {
                text.push(rune)?;
                rest = after;
            }
            None => return Ok(None),
        }
    }
    Ok(Some(text))
}

#[tactic(auto, unfolding(crate::specs::Escapes::unescaped))]
fn text_of_line(alloc: Global, bytes: &[u8]) -> Result<Option<Runes>, NoMemory>
    ensures { IfOk result (λ text. text ≡ unescaped bytes.now) }
{
    if !is_utf8(bytes) {
        return Ok(None);
    }
    let runes = decode_whole(alloc, bytes)?;
    unescape_runes(alloc, runes.as_slice())
}

/// The text whose escape the bytes are, as `escape` writes it. None exactly where they are the escape of no text: where
/// they aren't UTF-8, have a newline, or a backslash that `n` or a second backslash doesn't follow.
#[tactic(auto, using(crate::proofs::Unescaped::reading))]
pub fn unescape(alloc: Global, bytes: &[u8]) -> Result<Option<Runes>, NoMemory>
    ensures exact { IfOk result (λ answer. answer ≡ unescaped bytes.now) }
    ensures some { IfOk result (λ answer. IfSome answer (λ text. IsEscape text bytes.now)) }
    ensures none { IfOk result (λ answer. IfNone answer ((text : List ℕ) → ¬ IsEscape text bytes.now)) }
{
    text_of_line(alloc, bytes)
}
