//! What commands want, as they are done.

ghost use Rattle.std.specs.Prelude.{◌≡◌, ◌≤◌, length, List, ℕ, OnOk};
ghost use Rattle.sam_address.specs.Value.{IsInside};
ghost use Rattle.edit_run.specs.Effects.{nothing, begin_at, with_change, with_print, with_job};
ghost use Rattle.edit_run.specs.Within.{IsWithin};

use am_text::{Items, Job, Jobs, NoMemory, Range, Rune, Runes};
use edit_log::{Edit, Edits};
use std::alloc::Global;

/// What commands want, in the order in which they were done.
#[derive(Drop)]
pub struct Effects {
    /// Changes of the old text.
    pub changes: Edits,
    /// What is to be printed.
    pub prints: Runes,
    /// What the user's programs are asked to do.
    pub jobs: Jobs,
    /// The range of the command that was begun last.
    pub last: Range,
}

impl Effects {
    /// Nothing yet; the range stands for that of a command.
    pub(crate) fn none(alloc: Global, dot: Range) -> Effects
        ensures { result ≡ nothing dot }
    {
        Effects {
            changes: Items::new(alloc),
            prints: Items::new(alloc),
            jobs: Items::new(alloc),
            last: dot,
        }
    }

    /// A command with this range begins.
    pub(crate) fn begin(&mut self, range: Range)
        ensures value { self.new ≡ begin_at range self.old }
        ensures within { (t : List ℕ) → IsInside t range → IsWithin t self.old → IsWithin t self.new }
    {
        self.last = range;
    }

    /// One change more: the text takes the place of the range. One that takes nothing and puts nothing isn't made.
    pub(crate) fn change(&mut self, q0: usize, q1: usize, text: Runes) -> Result<(), NoMemory>
        ensures value { OnOk result (self.new ≡ with_change q0 q1 text self.old) }
        ensures within { OnOk result ((t : List ℕ) → q0 ≤ q1 → q1 ≤ length t → IsWithin t self.old
            → IsWithin t self.new) }
    {
        if q0 == q1 && text.is_empty() {
            return Ok(());
        }
        self.changes.push(Edit { q0, q1, text })?;
        Ok(())
    }

    /// More to be printed.
    pub(crate) fn print(&mut self, text: &[Rune]) -> Result<(), NoMemory>
        ensures value { OnOk result (self.new ≡ with_print text.now self.old) }
        ensures within { OnOk result ((t : List ℕ) → IsWithin t self.old → IsWithin t self.new) }
    {
        self.prints.append(text)?;
        Ok(())
    }

    /// One request more.
    pub(crate) fn ask(&mut self, job: Job) -> Result<(), NoMemory>
        ensures value { OnOk result (self.new ≡ with_job job self.old) }
        ensures within { OnOk result ((t : List ℕ) → IsWithin t self.old → IsWithin t self.new) }
    {
        self.jobs.push(job)?;
        Ok(())
    }
}
