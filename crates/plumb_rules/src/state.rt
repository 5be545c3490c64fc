//! What the rules of a set did so far.

ghost use Rattle.std.specs.Prelude.{◌≡◌};

use crate::answer::Way;
use crate::draft::Draft;
use crate::matched::Matched;
use am_text::{Bytes, Runes};

/// A message while the rules of a set are done, and what they found and told.
#[derive(Drop)]
pub struct State<'a> {
    pub msg: Draft<'a>,
    /// The match of the last `data matches`.
    pub matched: Option<Matched<'a>>,
    /// The name of the last `isfile`.
    pub file: Option<Runes>,
    /// The name of the last `isdir`.
    pub dir: Option<Runes>,
    /// The argument of `plumb to`.
    pub port: Option<Bytes>,
    pub way: Way,
}
