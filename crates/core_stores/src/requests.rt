//! What the editor asked its user's programs to do.

ghost use Rattle.std.specs.Prelude.{◌≡◌, ◌++◌, ◌∷◌, ◌+◌, [], length, drop, OnOk, OnErr, option_copied};
ghost use Rattle.am_text.specs.Twice.{both};
ghost use Rattle.core_stores.specs.Stores.{request};

use crate::growing::Growing;
use am_text::{Job, Jobs, NoMemory};
use std::alloc::Global;
use std::marker::Model;

/// The requests that were made, in their order, in two states. They are numbered from 1, and none is ever taken away.
pub struct Requests {
    jobs: Growing<Job>,
}

// By hand, so that a crate that drops requests goes by this drop, and has not to prove those of all that is in them.
impl Drop for Requests {
    fn drop(self) {
        let Requests { jobs: _ } = self;
    }
}

impl Model for Requests {
    ghost use Rattle.std.specs.Prelude.{List};
    ghost use Rattle.am_text.specs.Twice.{Twice};
    ghost use Rattle.am_text.specs.declared.job.Job.{Job};

    ghost Value = { Twice (List Job) };

    ghost view = { λ r. r.jobs };
}

// The request of a number, where there is one.
fn numbered(jobs: &[Job], number: usize) -> Option<&Job>
    ensures { option_copied result ≡ request jobs.now number }
{
    if number == 0 {
        return None;
    }
    jobs.get(number - 1)
}

// The number of the one that comes behind these.
fn number_behind(jobs: &[Job]) -> usize
    ensures { result ≡ length jobs.now + 1 }
{
    jobs.len() + 1
}

impl Requests {
    /// No request. It takes no memory.
    pub fn new(alloc: Global) -> Requests
        ensures { result ≡ both [] }
    {
        Requests {
            jobs: Growing::new(alloc),
        }
    }

    /// The present requests.
    pub fn all(&self) -> &Jobs
        ensures { result.now ≡ self.now.present }
    {
        self.jobs.items()
    }

    /// How many there are at present, which is the number of the last.
    pub fn len(&self) -> usize
        ensures { result ≡ length self.now.present }
    {
        self.jobs.items().len()
    }

    /// The number of the next one.
    pub fn next(&self) -> usize
        ensures { result ≡ length self.now.present + 1 }
    {
        number_behind(self.jobs.items().as_slice())
    }

    /// Those that were made since the last `keep`.
    pub fn made(&self) -> &[Job]
        ensures { result.now ≡ drop (length self.now.kept) self.now.present }
    {
        self.jobs.made()
    }

    /// The present request of a number, where there is one.
    pub fn get(&self, number: usize) -> Option<&Job>
        ensures { option_copied result ≡ request self.now.present number }
    {
        numbered(self.jobs.items().as_slice(), number)
    }

    /// Makes one more. A refusal changes nothing.
    pub fn add(&mut self, job: Job) -> Result<(), NoMemory>
        ensures ok { OnOk result (self.new ≡ record self.old { present = self.old.present ++ job ∷ [] }) }
        ensures err { OnErr result (self.new ≡ self.old) }
    {
        self.jobs.push(job)
    }

    /// The present state becomes the kept one. It takes no memory.
    pub fn keep(&mut self)
        ensures { self.new ≡ both self.old.present }
    {
        self.jobs.keep();
    }

    /// The kept state becomes the present one again, for which the requests made since are let go. It takes no memory.
    pub fn back(&mut self)
        ensures { self.new ≡ both self.old.kept }
    {
        self.jobs.back();
    }
}
