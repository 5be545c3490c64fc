//! Ranges of the texts of windows, in a line.

ghost use Rattle.std.specs.Prelude.{◌≡◌, ◌++◌, OnOk};
ghost use Rattle.am_journal.specs.Line.{window_at, side_of, spot_from, spot_at, first_spot, after_spot, spot_words};

use crate::event::Spot;
use crate::fields::{range_between, range_of, side_of, side_word, window_of};
use am_text::{Bytes, NoMemory, Range, cut_field, decimal, put_around};
use std::alloc::Global;

fn spot_from(window: &[u8], word: &[u8], range: Option<Range>) -> Option<Spot>
    ensures { result ≡ spot_from (window_at window.now) (side_of word.now) range }
{
    let window = window_of(window)?;
    let side = side_of(word)?;
    let range = range?;
    Some(Spot {
        window,
        side,
        range,
    })
}

/// The range of a window's text that the bytes spell.
pub(crate) fn spot_of(bytes: &[u8]) -> Option<Spot>
    ensures { result ≡ spot_at bytes.now }
{
    let (window, words) = cut_field(bytes);
    let (word, ends) = cut_field(words);
    spot_from(window, word, range_of(ends))
}

/// The one that the first four fields spell, and the bytes after these.
pub(crate) fn cut_spot(bytes: &[u8]) -> (Option<Spot>, &[u8])
    ensures spot { result.0 ≡ first_spot bytes.now }
    ensures rest { result.1.now ≡ after_spot bytes.now }
{
    let (window, words) = cut_field(bytes);
    let (word, ends) = cut_field(words);
    let (first, second) = cut_field(ends);
    let (second, rest) = cut_field(second);
    (spot_from(window, word, range_between(first, second)), rest)
}

/// Puts the words of a range of a window's text at the end.
#[tactic(auto, using(crate::proofs::Joined::joined), unfolding(crate::specs::Line::spot_words, am_text::specs::Fields::around))]
pub(crate) fn put_spot(alloc: Global, out: &mut Bytes, at: Spot) -> Result<(), NoMemory>
    ensures { OnOk result (out.new ≡ out.old ++ spot_words at) }
{
    put_around(alloc, out, b"", u64::from(at.window), b" ")?;
    out.append(side_word(at.side))?;
    put_around(alloc, out, b" ", at.range.q0 as u64, b" ")?;
    out.append(decimal(alloc, at.range.q1 as u64)?.as_slice())?;
    Ok(())
}
