//! Parts of a text.

ghost use Rattle.std.specs.Prelude.{◌≡◌, length, IfOk};
ghost use Rattle.edit_run.specs.Meaning.{text_at};

use am_text::{Items, Letters, NoMemory, Range, Runes};
use std::alloc::Global;

/// The runes of a range, as far as the text has them.
#[tactic(auto, using(crate::proofs::Slices::slicing))]
pub fn text_at<T: Letters>(alloc: Global, text: &T, range: Range) -> Result<Runes, NoMemory>
    ensures { IfOk result (λ runes. runes ≡ text_at (T.letters text.now) range) }
{
    let end = range.q1.min(text.len());
    let mut runes = Items::new(alloc);
    for at in range.q0..end {
        runes.push(text.at(at))?;
    }
    Ok(runes)
}
