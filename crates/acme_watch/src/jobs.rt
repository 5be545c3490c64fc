//! Requests as the file `jobs` hands them out.

ghost use Rattle.std.specs.Prelude.{◌≡◌, ◌+◌, ◌<◌, ◌≤◌, false, [], ◌∷◌, ◌++◌, length, map, None, Some, take, IfOk};
ghost use Rattle.std.specs.Prelude.{IfErr, OnOk, OnErr, IsTrue};
ghost use Rattle.std.specs.List.{list_any};
ghost use Rattle.am_text.specs.Twice.{Twice, both, IsSteady};
ghost use Rattle.wait_queue.specs.Carry.{is_of};
ghost use Rattle.wait_queue.specs.WaitState.{must_wait, piece_of, after_piece, after_put, IsEnlisted};
ghost use Rattle.acme_watch.specs.Lines.{said_of};
ghost use Rattle.acme_watch.specs.Jobs.{no_jobs, life_in, life_of, jobs_opened, with_job, settled_with, job_given};
ghost use Rattle.acme_watch.specs.Jobs.{life_fault, answer_fault, answered_life, with_life, job_answered, lost_life};
ghost use Rattle.acme_watch.specs.Jobs.{jobs_left};
ghost use Rattle.am_text.specs.declared.job.JobLife.TheVariants.{Taken};

use crate::lines::said;
use crate::log::ask;
use crate::types::AnswerFault;
use am_text::{Bytes, Job, JobLife, NoMemory, put_request_lines};
use std::alloc::Global;
use std::marker::Model;
use wait_queue::{Asker, Piece, WaitQueue};

/// The requests, with their openings, in two states. No read waits in the queue: the waiting reads of both files are
/// kept in one list.
#[derive(Drop)]
pub(crate) struct JobsFile {
    alloc: Global,
    settled: Vec<JobLife>,
    kept: usize,
    made: u64,
    kept_made: u64,
    queue: WaitQueue,
}

impl Model for JobsFile {
    ghost use Rattle.std.specs.Prelude.{take, length, ◌≤◌};
    ghost use Rattle.am_text.specs.Twice.{Twice};
    ghost use Rattle.acme_watch.specs.Jobs.{JobsState};

    ghost Value = { Twice JobsState };

    ghost view = { λ f. record {
      present = record { made = f.made; settled = f.settled.items; queue = f.queue.present };
      kept = record { made = f.kept_made; settled = take f.kept f.settled.items; queue = f.queue.kept };
    } };

    ghost invariant = { λ f. f.kept ≤ length f.settled.items };
}

// The life of the request with this number, where these are settled and so many were made.
fn life_in(settled: &[JobLife], made: u64, number: u64) -> Option<JobLife>
    ensures { result ≡ life_in settled.now made number }
{
    if number == 0 {
        return None;
    }
    let place = number - 1;
    if place < settled.len() as u64 {
        return Some(settled[place as usize]);
    }
    if place < made {
        return Some(JobLife::Waiting);
    }
    None
}

fn life_fault(opening: u32, life: Option<JobLife>) -> Option<AnswerFault>
    ensures { result ≡ life_fault opening life }
{
    match life {
        None => Some(AnswerFault::NoRequest),
        Some(JobLife::Waiting) => Some(AnswerFault::NoRequest),
        Some(JobLife::Taken { opening: by, .. }) => {
            if by == opening {
                None
            } else {
                Some(AnswerFault::NoRequest)
            }
        }
        Some(JobLife::Answered { .. }) => Some(AnswerFault::Answered),
        Some(JobLife::Lost { .. }) => Some(AnswerFault::NoRequest),
    }
}

fn answered_life(life: JobLife, answer: u64, good: bool) -> JobLife
    ensures { result ≡ answered_life answer good life }
{
    match life {
        JobLife::Waiting => JobLife::Waiting,
        JobLife::Taken { opening, at } => JobLife::Answered {
            opening,
            at,
            answer,
            good,
        },
        JobLife::Answered {
            opening,
            at,
            answer: first,
            good: so,
        } => JobLife::Answered {
            opening,
            at,
            answer: first,
            good: so,
        },
        JobLife::Lost { opening, at, close } => JobLife::Lost { opening, at, close },
    }
}

fn lost_life(life: JobLife, opening: u32, close: u64) -> JobLife
    ensures { result ≡ lost_life opening close life }
{
    match life {
        JobLife::Waiting => JobLife::Waiting,
        JobLife::Taken { opening: by, at } => {
            if by == opening {
                JobLife::Lost {
                    opening: by,
                    at,
                    close,
                }
            } else {
                JobLife::Taken { opening: by, at }
            }
        }
        JobLife::Answered {
            opening: by,
            at,
            answer,
            good,
        } => JobLife::Answered {
            opening: by,
            at,
            answer,
            good,
        },
        JobLife::Lost {
            opening: by,
            at,
            close: first,
        } => JobLife::Lost {
            opening: by,
            at,
            close: first,
        },
    }
}

fn lose_one(life: &mut JobLife, opening: u32, close: u64)
    ensures { life.new ≡ lost_life opening close life.old }
{
    *life = lost_life(*life, opening, close);
}

fn lose_each(all: &mut [JobLife], opening: u32, close: u64)
    ensures { all.new ≡ map (lost_life opening close) all.old }
{
    for life in all.iter_mut() {
        lose_one(life, opening, close);
    }
}

// The life with this number, from 1, is that of a request that is answered.
fn answer_at(all: &mut Vec<JobLife>, number: u64, answer: u64, good: bool)
    ensures { all.new.items ≡ with_life (answered_life answer good) number all.old.items }
{
    if number == 0 {
        return;
    }
    if number > all.len() as u64 {
        return;
    }
    let life = &mut all[number as usize - 1];
    *life = answered_life(*life, answer, good);
}

impl JobsFile {
    /// No request, and no opening. It takes no memory.
    pub fn new(alloc: Global) -> Self
        ensures { result ≡ both no_jobs }
    {
        JobsFile {
            alloc,
            settled: Vec::new(alloc),
            kept: 0,
            made: 0,
            kept_made: 0,
            queue: WaitQueue::new(alloc),
        }
    }

    /// The present state becomes the kept one. It takes no memory.
    pub fn keep(&mut self)
        ensures { self.new ≡ both self.old.present }
    {
        self.queue.keep();
        self.kept = self.settled.len();
        self.kept_made = self.made;
    }

    /// The kept state becomes the present one again. It takes no memory.
    pub fn back(&mut self)
        ensures { self.new ≡ both self.old.kept }
    {
        self.queue.back();
        self.settled.truncate(self.kept);
        self.made = self.kept_made;
    }

    /// Whether this opening is there.
    pub fn has(&self, opening: u32) -> bool
        ensures { result ≡ list_any (is_of opening) self.now.present.queue.openings }
    {
        self.queue.is_enlisted(opening)
    }

    /// Whether a read has to wait.
    pub fn must_wait(&self, asker: Asker) -> bool
        ensures { result ≡ must_wait self.now.present.queue asker }
    {
        self.queue.must_wait(asker)
    }

    /// The life of the request with this number. None exactly where there is none.
    pub fn life(&self, number: u64) -> Option<JobLife>
        ensures { result ≡ life_of self.now.present number }
    {
        life_in(self.settled.as_slice(), self.made, number)
    }

    /// The life in the kept state.
    pub fn kept_life(&self, number: u64) -> Option<JobLife>
        ensures { result ≡ life_of self.now.kept number }
    {
        life_in(&self.settled[..self.kept], self.kept_made, number)
    }

    /// Why an answer by this opening is refused, if it is.
    pub fn fault(&self, opening: u32, bytes: &[u8]) -> Option<AnswerFault>
        ensures { result ≡ answer_fault self.now.present opening (said_of bytes.now) }
    {
        match said(bytes) {
            Some(told) => life_fault(opening, self.life(told.number)),
            None => Some(AnswerFault::BadAnswer),
        }
    }

    /// Adds an opening. On an error the kept state stays.
    pub fn open(&mut self, opening: u32) -> Result<(), NoMemory>
        ensures ok { OnOk result (self.new ≡ record self.old { present = jobs_opened self.old.present opening }) }
        ensures kept { self.new.kept ≡ self.old.kept }
    {
        self.queue.enlist(opening)
    }

    /// A request more, which waits. On an error the kept state stays.
    pub fn put(&mut self, job: &Job) -> Result<(), NoMemory>
        ensures ok { OnOk result (self.new ≡ record self.old { present = with_job self.old.present job.now }) }
        ensures kept { self.new.kept ≡ self.old.kept }
    {
        if self.made == u64::MAX {
            return Err(NoMemory);
        }
        let number = self.made + 1;
        let mut lines = Bytes::new(self.alloc);
        put_request_lines(self.alloc, &mut lines, number, job)?;
        self.queue.put(number, lines)?;
        self.made = number;
        Ok(())
    }

    /// Answers a read that doesn't have to wait. A request that it takes is taken at this entry. On an error the kept
    /// state stays.
    pub fn give(&mut self, asker: Asker, at: u64) -> Result<Piece, NoMemory>
        requires enlisted { IsTrue (list_any (is_of asker.opening) self.old.present.queue.openings) }
        requires ready { must_wait self.old.present.queue asker ≡ false }
        ensures piece { IfOk result (λ piece. piece ≡ piece_of self.old.present.queue asker) }
        ensures ok { OnOk result (self.new ≡ record self.old { present = job_given self.old.present asker at }) }
        ensures kept { self.new.kept ≡ self.old.kept }
    {
        self.settled.reserve(1)?;
        let piece = ask(&mut self.queue, asker)?;
        if piece.taken.is_some() {
            self.settled.push_reserved(JobLife::Taken {
                opening: asker.opening,
                at,
            });
        }
        Ok(piece)
    }

    /// An answer by this opening, written at this entry. It takes no memory.
    pub fn answer(&mut self, opening: u32, bytes: &[u8], at: u64) -> Result<(), AnswerFault>
        requires { IsSteady self.old }
        ensures ok { OnOk result (answer_fault self.old.present opening (said_of bytes.now) ≡ None) }
        ensures refused { IfErr result (λ fault. answer_fault self.old.present opening (said_of bytes.now)
            ≡ Some fault) }
        ensures done { OnOk result (self.new ≡ both (job_answered self.old.present (said_of bytes.now) at)) }
        ensures stays { OnErr result (self.new ≡ self.old) }
    {
        let Some(told) = said(bytes) else {
            return Err(AnswerFault::BadAnswer);
        };
        if let Some(fault) = life_fault(opening, self.life(told.number)) {
            return Err(fault);
        }
        answer_at(&mut self.settled, told.number, at, told.good);
        self.kept = self.settled.len();
        self.kept_made = self.made;
        Ok(())
    }

    /// The opening closes. What it took and didn't answer is lost at this entry. It takes no memory.
    pub fn leave(&mut self, opening: u32, at: u64)
        requires { IsSteady self.old }
        ensures { self.new ≡ both (jobs_left self.old.present opening at) }
    {
        self.queue.leave(opening);
        lose_each(self.settled.as_mut_slice(), opening, at);
        self.kept = self.settled.len();
        self.kept_made = self.made;
    }
}
