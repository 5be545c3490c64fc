//! Where the lines of a text are counted.

ghost use Rattle.std.specs.Prelude.{◌≡◌, ◌+◌, ◌≤◌, length, List, ℕ, IfOk, OnOk};
ghost use Rattle.edit_run.specs.Told.{line_of};
ghost use Rattle.edit_run.specs.Lines.{IsCursorOf};

use am_text::{Letters, NEWLINE, NoMemory};

// How many newlines stand from a place to before another.
#[tactic(auto, using(crate::proofs::Slices::counting), unfolding(crate::specs::Told::line_of))]
fn newlines<T: Letters>(text: &T, from: usize, to: usize) -> u64
    requires order { from ≤ to }
    requires within { to ≤ length (T.letters text.now) }
    ensures { line_of (T.letters text.now) to ≡ line_of (T.letters text.now) from + result }
{
    let mut count: u64 = 0;
    for at in from..to {
        if text.at(at) == NEWLINE {
            count += 1;
        }
    }
    count
}

/// A place in a text, and the number of the line that has it. From there the lines of other places are counted, on and
/// back, so what that costs is the way between them.
#[derive(Drop)]
pub struct LineCursor {
    place: usize,
    line: u64,
}

impl LineCursor {
    /// The beginning of every text.
    #[tactic(auto, unfolding(crate::specs::Told::line_of))]
    pub fn start() -> LineCursor
        ensures { (t : List ℕ) → IsCursorOf t result }
    {
        LineCursor { place: 0, line: 1 }
    }

    // The number of the line that has a place.
    fn line_number<T: Letters>(&self, text: &T, place: usize) -> Result<u64, NoMemory>
        requires place { place ≤ length (T.letters text.now) }
        requires cursor { IsCursorOf (T.letters text.now) self.now }
        ensures { IfOk result (λ line. line ≡ line_of (T.letters text.now) place) }
    {
        if place < self.place {
            return Ok(self.line - newlines(text, place, self.place));
        }
        match self.line.checked_add(newlines(text, self.place, place)) {
            Some(line) => Ok(line),
            None => Err(NoMemory),
        }
    }

    /// Goes to a place, and tells the number of the line that has it, counted from 1.
    pub fn line_at<T: Letters>(&mut self, text: &T, place: usize) -> Result<u64, NoMemory>
        requires place { place ≤ length (T.letters text.now) }
        requires cursor { IsCursorOf (T.letters text.now) self.old }
        ensures value { IfOk result (λ line. line ≡ line_of (T.letters text.now) place) }
        ensures cursor { OnOk result (IsCursorOf (T.letters text.now) self.new) }
    {
        let line = self.line_number(text, place)?;
        self.place = place;
        self.line = line;
        Ok(line)
    }
}
