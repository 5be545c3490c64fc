//! A drill from its first event to its summary.

ghost use Rattle.std.specs.Prelude.{◌≡◌, ◌≤◌, ◌<◌, ◌+◌, [], None, IfOk, OnOk, OnErr};
ghost use Rattle.am_base.specs.Seen.{seen};
ghost use Rattle.am_journal.specs.declared.event.Format.TheVariants.{One};
ghost use Rattle.am_journal.specs.Journal.{journal_in};
ghost use Rattle.acme_core.specs.Run.{IsPossible};
ghost use Rattle.am_drill.specs.Brief.{IsCounted, IsBegun};
ghost use Rattle.am_drill.specs.Drill.{most_rounds, drill_journal, seed_of};
ghost use Rattle.am_drill.specs.Ends.{Wrote, DrillSays};
ghost use Rattle.am_drill.specs.Summary.{summary};

use crate::events::opening;
use crate::numbers::{FIRST_SEED, next_seed};
use crate::runner::Runner;
use crate::summary::summary_text;
use am_base::{Sink, write_all};
use am_journal::{Format, Journal};
use am_text::{Bytes, Items, NoMemory};
use std::alloc::Global;

/// How a drill ends.
#[derive(Clone, Copy, Debug, PartialEq, Eq)]
pub enum DrillEnd {
    /// All was done and written.
    Done,
    /// The output could not be written.
    WriteFault,
    /// Memory ran out.
    NoMemory,
}

/// How a drill ended, and the events that were done.
#[derive(Drop)]
pub struct Drilled {
    pub end: DrillEnd,
    pub journal: Journal,
}

// Does the events that come before the rounds.
fn play_opening(alloc: Global, runner: &mut Runner) -> Result<(), NoMemory>
    requires empty { runner.old.core.journal ≡ journal_in One [] }
    requires idle { runner.old.core.planned ≡ None }
    requires counted { IsCounted runner.old.count runner.old.core.journal }
    ensures ok { OnOk result (runner.new.core.journal ≡ drill_journal 0) }
    ensures err { OnErr result (IsBegun runner.new.core.journal (drill_journal 0)) }
    ensures idle { runner.new.core.planned ≡ None }
    ensures counted { IsCounted runner.new.count runner.new.core.journal }
{
    let first = opening(alloc)?;
    runner.play(first)
}

// Does the events of the round that comes after so many, with its seed.
fn play_round(alloc: Global, done: u64, seed: u64, runner: &mut Runner) -> Result<(), NoMemory>
    requires few { done < most_rounds }
    requires seed { seed ≡ seed_of (done + 1) }
    requires before { runner.old.core.journal ≡ drill_journal done }
    requires idle { runner.old.core.planned ≡ None }
    requires counted { IsCounted runner.old.count runner.old.core.journal }
    ensures ok { OnOk result (runner.new.core.journal ≡ drill_journal (done + 1)) }
    ensures err { OnErr result (IsBegun runner.new.core.journal (drill_journal (done + 1))) }
    ensures idle { runner.new.core.planned ≡ None }
    ensures counted { IsCounted runner.new.count runner.new.core.journal }
{
    runner.play_round(alloc, done + 1, seed)
}

// Does all events of so many rounds.
#[tactic(auto, using(crate::proofs::Playing::seeds))]
fn play_rounds(alloc: Global, rounds: u64, runner: &mut Runner) -> Result<(), NoMemory>
    requires rounds { rounds ≤ most_rounds }
    requires empty { runner.old.core.journal ≡ journal_in One [] }
    requires idle { runner.old.core.planned ≡ None }
    requires counted { IsCounted runner.old.count runner.old.core.journal }
    ensures ok { OnOk result (runner.new.core.journal ≡ drill_journal rounds) }
    ensures err { OnErr result (IsBegun runner.new.core.journal (drill_journal rounds)) }
    ensures idle { runner.new.core.planned ≡ None }
    ensures counted { IsCounted runner.new.count runner.new.core.journal }
{
    play_opening(alloc, runner)?;
    let mut seed = FIRST_SEED;
    for done in 0..rounds {
        seed = next_seed(seed);
        play_round(alloc, done, seed, runner)?;
    }
    Ok(())
}

// Does all events, and answers the summary of their run.
#[tactic(auto, unfolding(crate::specs::Summary::summary))]
fn run(alloc: Global, rounds: u64, runner: &mut Runner) -> Result<Bytes, NoMemory>
    requires rounds { rounds ≤ most_rounds }
    requires empty { runner.old.core.journal ≡ journal_in One [] }
    requires idle { runner.old.core.planned ≡ None }
    requires counted { IsCounted runner.old.count runner.old.core.journal }
    ensures text { IfOk result (λ text. text ≡ summary (drill_journal rounds)) }
    ensures ok { OnOk result (runner.new.core.journal ≡ drill_journal rounds) }
    ensures err { OnErr result (IsBegun runner.new.core.journal (drill_journal rounds)) }
{
    play_rounds(alloc, rounds, runner)?;
    let view = runner.core.view()?;
    summary_text(alloc, &view, runner.count)
}

// Writes a text, and answers how that ended.
fn put<O: Sink>(output: &mut O, text: &[u8]) -> DrillEnd
    ensures { Wrote result
        (seen (O.told output.old) (O.told output.new))
        text.now }
{
    match write_all(output, text) {
        Ok(()) => DrillEnd::Done,
        Err(_) => DrillEnd::WriteFault,
    }
}

// Does all events, and writes the summary of their run.
fn run_and_write<O: Sink>(
    alloc: Global,
    rounds: u64,
    runner: &mut Runner,
    output: &mut O,
) -> DrillEnd
    requires rounds { rounds ≤ most_rounds }
    requires empty { runner.old.core.journal ≡ journal_in One [] }
    requires idle { runner.old.core.planned ≡ None }
    requires counted { IsCounted runner.old.count runner.old.core.journal }
    ensures { DrillSays result rounds
        (seen (O.told output.old) (O.told output.new))
        runner.new.core.journal }
{
    match run(alloc, rounds, runner) {
        Ok(text) => put(output, text.as_slice()),
        Err(NoMemory) => DrillEnd::NoMemory,
    }
}

// There was no memory for the editor.
fn nothing_done(alloc: Global) -> Drilled
    ensures end { result.end ≡ DrillEnd.NoMemory }
    ensures journal { result.journal ≡ journal_in One [] }
    ensures possible { IsPossible result.journal }
{
    Drilled {
        end: DrillEnd::NoMemory,
        journal: Journal {
            format: Format::One,
            events: Items::new(alloc),
        },
    }
}

/// Does the events of a drill of so many rounds from the empty editor on, and writes the summary of their run.
pub fn drill<O: Sink>(alloc: Global, rounds: u64, output: &mut O) -> Drilled
    requires { (1 ≤ rounds) × (rounds ≤ most_rounds) }
    ensures says { DrillSays result.end rounds
        (seen (O.told output.old) (O.told output.new))
        result.journal }
    // What each event of the journal does could be done at its place.
    ensures possible { IsPossible result.journal }
{
    let Ok(mut runner) = Runner::new(alloc) else {
        return nothing_done(alloc);
    };
    let end = run_and_write(alloc, rounds, &mut runner, output);
    let Runner { core, .. } = runner;
    core.events_were_possible();
    Drilled {
        end,
        journal: core.into_journal(),
    }
}
