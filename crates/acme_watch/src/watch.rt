//! Both files together.

ghost use Rattle.std.specs.Prelude.{◌≡◌, ◌+◌, ◌<◌, false, [], ◌∷◌, ◌++◌, None, Some, IfOk, IfErr, OnOk, OnErr, IsTrue};
ghost use Rattle.std.specs.Prelude.{Bool, not};
ghost use Rattle.std.specs.List.{list_any};
ghost use Rattle.am_text.specs.Twice.{Twice, both, IsSteady};
ghost use Rattle.wait_queue.specs.Limits.{max_openings};
ghost use Rattle.acme_watch.specs.Lines.{log_line, said_of};
ghost use Rattle.acme_watch.specs.Log.{noted, reader_of, after_log_read};
ghost use Rattle.acme_watch.specs.Jobs.{life_of, with_job, answer_fault, job_answered};
ghost use Rattle.acme_watch.specs.Reads.{is_asked};
ghost use Rattle.acme_watch.specs.Watching.{watching, opening_in, has_opening, read_waits, piece_for, after_answer};
ghost use Rattle.acme_watch.specs.Watching.{asked_of, after_ask, next_of, without_next, served_of, after_serve};
ghost use Rattle.acme_watch.specs.Watching.{log_opened, jobs_file_opened, with_line, with_request, answered_by};
ghost use Rattle.acme_watch.specs.Watching.{after_cancel, log_left, jobs_file_left};
ghost use Rattle.acme_watch.specs.declared.types.WatchFile.TheVariants.{Log, Jobs};

use crate::jobs::JobsFile;
use crate::lines::log_line;
use crate::log::LogReaders;
use crate::reads::{OnOpening, Passes, Tagged, WatchReads};
use crate::types::{AnswerFault, Op, OpeningCounts, WatchFile, WatchRead};
use am_text::{Bytes, Job, JobLife, NoMemory, Rune};
use std::alloc::Global;
use std::marker::Model;
use wait_queue::{Asked, Asker, Piece};

const NO_OPENING: OpeningCounts = OpeningCounts { log: 0, jobs: 0 };

// Whether an opening of a file is there.
fn is_there(log: &LogReaders, jobs: &JobsFile, file: WatchFile, opening: u32) -> bool
    ensures { result ≡ opening_in log.now.present jobs.now.present file opening }
{
    match file {
        WatchFile::Log => log.has(opening),
        WatchFile::Jobs => jobs.has(opening),
    }
}

// Whether a read would have to wait.
fn must_wait(log: &LogReaders, jobs: &JobsFile, read: WatchRead) -> bool
    ensures { result ≡ read_waits log.now.present jobs.now.present read }
{
    match read.file {
        WatchFile::Log => log.must_wait(read.asker),
        WatchFile::Jobs => jobs.must_wait(read.asker),
    }
}

/// What there is for the waiting reads.
#[derive(Drop)]
struct Offer<'a> {
    log: &'a LogReaders,
    jobs: &'a JobsFile,
}

impl<'a> Passes for Offer<'a> {
    ghost use Rattle.acme_watch.specs.Watching.{can_answer};

    ghost passes = { λ o. can_answer o.log.now.present o.jobs.now.present };

    fn passes(&self, read: WatchRead) -> bool {
        is_there(self.log, self.jobs, read.file, read.asker.opening)
            && !must_wait(self.log, self.jobs, read)
    }
}

/// The files `log` and `jobs`, in two states: a present one, which every look answers from, and a kept one.
///
/// A call that may want memory changes the present state alone, and where it answers `NoMemory` the present state is
/// the kept one again. The other calls that change something want both states equal, and change both.
pub struct Watch {
    alloc: Global,
    log: LogReaders,
    jobs: JobsFile,
    reads: WatchReads,
    opened: OpeningCounts,
    kept_opened: OpeningCounts,
    // Whether the present state may differ from the kept one.
    changed: bool,
}

// By hand, so that a crate that drops a watch goes by this drop, and has not to prove those of all that is in it.
impl Drop for Watch {
    fn drop(self) {
        let Watch {
            alloc: _,
            log: _,
            jobs: _,
            reads: _,
            opened: _,
            kept_opened: _,
            changed: _,
        } = self;
    }
}

impl Model for Watch {
    ghost use Rattle.am_text.specs.Twice.{Twice};
    ghost use Rattle.acme_watch.specs.Watching.{WatchState};

    ghost Value = { Twice WatchState };

    ghost view = { λ w. record {
      present = record { log = w.log.present; jobs = w.jobs.present; reads = w.reads.present; opened = w.opened };
      kept = record { log = w.log.kept; jobs = w.jobs.kept; reads = w.reads.kept; opened = w.kept_opened };
    } };

    ghost use Rattle.std.specs.Prelude.{◌≡◌, false};

    ghost invariant = { λ w. w.changed ≡ false → (w.log.present ≡ w.log.kept) × (w.jobs.present ≡ w.jobs.kept)
        × (w.reads.present ≡ w.reads.kept) × (w.opened ≡ w.kept_opened) };
}

impl Watch {
    /// No line, no request, and no opening. It takes no memory.
    pub fn new(alloc: Global) -> Self
        ensures { result ≡ both watching }
    {
        Watch {
            alloc,
            log: LogReaders::new(alloc),
            jobs: JobsFile::new(alloc),
            reads: WatchReads::new(alloc),
            opened: NO_OPENING,
            kept_opened: NO_OPENING,
            changed: false,
        }
    }

    /// The present state becomes the kept one. It takes no memory.
    pub fn keep(&mut self)
        ensures { self.new ≡ both self.old.present }
    {
        if self.changed {
            self.log.keep();
            self.jobs.keep();
            self.reads.keep();
            self.kept_opened = self.opened;
            self.changed = false;
        }
    }

    /// The kept state becomes the present one again. It takes no memory.
    pub fn back(&mut self)
        ensures { self.new ≡ both self.old.kept }
    {
        if self.changed {
            self.log.back();
            self.jobs.back();
            self.reads.back();
            self.opened = self.kept_opened;
            self.changed = false;
        }
    }

    /// Whether this opening of a file is there.
    pub fn is_open(&self, file: WatchFile, opening: u32) -> bool
        ensures { result ≡ has_opening self.now.present file opening }
    {
        is_there(&self.log, &self.jobs, file, opening)
    }

    /// Whether a read would have to wait.
    pub fn must_wait(&self, read: WatchRead) -> bool
        ensures { result ≡ read_waits self.now.present.log self.now.present.jobs read }
    {
        must_wait(&self.log, &self.jobs, read)
    }

    /// Why `answer` would refuse this answer by an opening of `jobs`, if it would. It takes no memory.
    pub fn answer_fault(&self, opening: u32, bytes: &[u8]) -> Option<AnswerFault>
        ensures { result ≡ answer_fault self.now.present.jobs opening (said_of bytes.now) }
    {
        self.jobs.fault(opening, bytes)
    }

    /// The life of the request with this number. None exactly where there is none.
    pub fn life(&self, number: u64) -> Option<JobLife>
        ensures { result ≡ life_of self.now.present.jobs number }
    {
        self.jobs.life(number)
    }

    /// The life that the request with this number has in the kept state. None exactly where it has none there.
    pub fn kept_life(&self, number: u64) -> Option<JobLife>
        ensures { result ≡ life_of self.now.kept.jobs number }
    {
        self.jobs.kept_life(number)
    }

    /// How many openings of each file were ever made.
    pub fn opened(&self) -> OpeningCounts
        ensures { result ≡ self.now.present.opened }
    {
        self.opened
    }

    /// An opening of `log`, which gets each line that is noted from now on. At most 4,294,967,295 are ever made.
    pub fn open_log(&mut self, opening: u32) -> Result<(), NoMemory>
        requires { self.old.present.opened.log < max_openings }
        ensures ok { OnOk result (self.new ≡ record self.old { present = log_opened self.old.present opening }) }
        ensures err { OnErr result (self.new ≡ both self.old.kept) }
    {
        self.changed = true;
        match self.log.open(opening) {
            Ok(()) => {
                self.opened.log += 1;
                Ok(())
            }
            Err(error) => {
                self.back();
                Err(error)
            }
        }
    }

    /// An opening of `jobs`. At most 4,294,967,295 are ever made.
    pub fn open_jobs(&mut self, opening: u32) -> Result<(), NoMemory>
        requires { self.old.present.opened.jobs < max_openings }
        ensures ok { OnOk result (self.new ≡ record self.old { present = jobs_file_opened self.old.present opening }) }
        ensures err { OnErr result (self.new ≡ both self.old.kept) }
    {
        self.changed = true;
        match self.jobs.open(opening) {
            Ok(()) => {
                self.opened.jobs += 1;
                Ok(())
            }
            Err(error) => {
                self.back();
                Err(error)
            }
        }
    }

    fn try_note(&mut self, window: u32, op: Op, name: &[Rune]) -> Result<(), NoMemory>
        ensures ok { OnOk result (self.new
            ≡ record self.old { present = with_line self.old.present (log_line window op name.now) }) }
        ensures kept { self.new.kept ≡ self.old.kept }
    {
        self.changed = true;
        let line = log_line(self.alloc, window, op, name)?;
        self.log.note(line.as_slice())
    }

    /// A line more, for each opening of `log`. Where there is none it costs nothing, and takes no memory.
    #[tactic(auto, using(crate::proofs::LogLemmas::idle))]
    pub fn note(&mut self, window: u32, op: Op, name: &[Rune]) -> Result<(), NoMemory>
        ensures ok { OnOk result (self.new
            ≡ record self.old { present = with_line self.old.present (log_line window op name.now) }) }
        ensures err { OnErr result (self.new ≡ both self.old.kept) }
    {
        if self.log.is_empty() {
            return Ok(());
        }
        match self.try_note(window, op, name) {
            Ok(()) => Ok(()),
            Err(error) => {
                self.back();
                Err(error)
            }
        }
    }

    /// A request more. It waits until an opening of `jobs` takes it.
    pub fn job(&mut self, job: &Job) -> Result<(), NoMemory>
        ensures ok { OnOk result (self.new ≡ record self.old { present = with_request self.old.present job.now }) }
        ensures err { OnErr result (self.new ≡ both self.old.kept) }
    {
        self.changed = true;
        match self.jobs.put(job) {
            Ok(()) => Ok(()),
            Err(error) => {
                self.back();
                Err(error)
            }
        }
    }

    // Answers a read that doesn't have to wait. On an error the kept state stays.
    fn answer_read(&mut self, read: WatchRead, at: u64) -> Result<Piece, NoMemory>
        requires open { IsTrue (has_opening self.old.present read.file read.asker.opening) }
        requires ready { read_waits self.old.present.log self.old.present.jobs read ≡ false }
        ensures piece { IfOk result (λ piece. piece ≡ piece_for self.old.present read) }
        ensures ok { OnOk result (self.new ≡ record self.old { present = after_answer self.old.present read at }) }
        ensures kept { self.new.kept ≡ self.old.kept }
    {
        self.changed = true;
        match read.file {
            WatchFile::Log => self.log.give(read.asker),
            WatchFile::Jobs => self.jobs.give(read.asker, at),
        }
    }

    fn ask(&mut self, read: WatchRead, at: u64) -> Result<Asked, NoMemory>
        requires { IsTrue (has_opening self.old.present read.file read.asker.opening) }
        ensures answer { IfOk result (λ asked. asked ≡ asked_of self.old.present read) }
        ensures ok { OnOk result (self.new ≡ record self.old { present = after_ask self.old.present read at }) }
        ensures err { OnErr result (self.new ≡ both self.old.kept) }
    {
        if must_wait(&self.log, &self.jobs, read) {
            self.changed = true;
            return match self.reads.push(read) {
                Ok(()) => Ok(Asked::Waits),
                Err(error) => {
                    self.back();
                    Err(error)
                }
            };
        }
        match self.answer_read(read, at) {
            Ok(piece) => Ok(Asked::Now(piece)),
            Err(error) => {
                self.back();
                Err(error)
            }
        }
    }

    /// Answers a read on an opening of `log`, or makes it wait: it is given a line, or what its opening has left.
    pub fn ask_log(&mut self, asker: Asker) -> Result<Asked, NoMemory>
        requires { IsTrue (has_opening self.old.present Log asker.opening) }
        ensures answer { IfOk result (λ asked. asked
            ≡ asked_of self.old.present (record { file = Log; asker = asker })) }
        ensures ok { OnOk result (self.new
            ≡ record self.old { present = after_ask self.old.present (record { file = Log; asker = asker }) 0 }) }
        ensures err { OnErr result (self.new ≡ both self.old.kept) }
    {
        let file = WatchFile::Log;
        self.ask(WatchRead { file, asker }, 0)
    }

    /// Answers a read on an opening of `jobs`, or makes it wait: it is given what its opening has left of a request,
    /// else the first request that waits, which its opening takes at this entry.
    pub fn ask_jobs(&mut self, asker: Asker, at: u64) -> Result<Asked, NoMemory>
        requires { IsTrue (has_opening self.old.present Jobs asker.opening) }
        ensures answer { IfOk result (λ asked. asked
            ≡ asked_of self.old.present (record { file = Jobs; asker = asker })) }
        ensures ok { OnOk result (self.new
            ≡ record self.old { present = after_ask self.old.present (record { file = Jobs; asker = asker }) at }) }
        ensures err { OnErr result (self.new ≡ both self.old.kept) }
    {
        let file = WatchFile::Jobs;
        self.ask(WatchRead { file, asker }, at)
    }

    /// The read that `serve` would answer. None exactly where there is none. It takes no memory.
    pub fn next(&self) -> Option<WatchRead>
        ensures { result ≡ next_of self.now.present }
    {
        self.reads.ready(&Offer {
            log: &self.log,
            jobs: &self.jobs,
        })
    }

    // The oldest waiting read that can be answered waits no more.
    fn take_next(&mut self)
        ensures { self.new ≡ record self.old { present = without_next self.old.present } }
    {
        self.changed = true;
        let offer = Offer {
            log: &self.log,
            jobs: &self.jobs,
        };
        self.reads.take_ready(&offer);
    }

    /// Answers the oldest waiting read over both files that can be answered, at this entry. None exactly where there is
    /// none.
    pub fn serve(&mut self, at: u64) -> Result<Option<(Asker, Piece)>, NoMemory>
        ensures answer { IfOk result (λ served. served ≡ served_of self.old.present) }
        ensures ok { OnOk result (self.new ≡ record self.old { present = after_serve self.old.present at }) }
        ensures err { OnErr result (self.new ≡ both self.old.kept) }
    {
        let Some(read) = self.next() else {
            return Ok(None);
        };
        self.take_next();
        match self.answer_read(read, at) {
            Ok(piece) => Ok(Some((read.asker, piece))),
            Err(error) => {
                self.back();
                Err(error)
            }
        }
    }

    /// An answer by an opening of `jobs`, written at this entry. It takes no memory.
    pub fn answer(&mut self, opening: u32, bytes: &[u8], at: u64) -> Result<(), AnswerFault>
        requires { IsSteady self.old }
        ensures ok { OnOk result (answer_fault self.old.present.jobs opening (said_of bytes.now) ≡ None) }
        ensures refused { IfErr result (λ fault. answer_fault self.old.present.jobs opening (said_of bytes.now)
            ≡ Some fault) }
        ensures done { OnOk result (self.new ≡ both (answered_by self.old.present (said_of bytes.now) at)) }
        ensures stays { OnErr result (self.new ≡ self.old) }
    {
        self.jobs.answer(opening, bytes, at)
    }

    /// Whether the read with this tag on this connection waited. It waits no more. It takes no memory.
    pub fn cancel(&mut self, conn: u32, tag: u16) -> bool
        requires { IsSteady self.old }
        ensures waited { result ≡ list_any (is_asked conn tag) self.old.present.reads }
        ensures new { self.new ≡ both (after_cancel self.old.present conn tag) }
    {
        self.reads.remove(&Tagged { conn, tag })
    }

    /// The opening of `log` goes, with its lines and its waiting reads. It takes no memory.
    pub fn leave_log(&mut self, opening: u32)
        requires { IsSteady self.old }
        ensures { self.new ≡ both (log_left self.old.present opening) }
    {
        let file = WatchFile::Log;
        self.log.leave(opening);
        self.reads.remove(&OnOpening { file, opening });
    }

    /// The opening of `jobs` goes, with its waiting reads. What it took and didn't answer is lost at this entry. It
    /// takes no memory.
    pub fn leave_jobs(&mut self, opening: u32, at: u64)
        requires { IsSteady self.old }
        ensures { self.new ≡ both (jobs_file_left self.old.present opening at) }
    {
        let file = WatchFile::Jobs;
        self.jobs.leave(opening, at);
        self.reads.remove(&OnOpening { file, opening });
    }
}
