//! What a run of the program comes to.

ghost use Rattle.std.specs.Prelude.{◌≡◌, []};
ghost use Rattle.am_journal.specs.declared.event.Format.TheVariants.{One};
ghost use Rattle.am_journal.specs.Journal.{journal_in};
ghost use Rattle.acmefs.specs.Ends.{status_of};
ghost use Rattle.acmefs.specs.Top.{OfJournal};

use crate::status::Status;
use am_base::Host;
use am_journal::{Format, Journal};
use am_replay::{End, empty_journal};
use am_server::ServedList;
use am_text::Items;
use core_laws::journals_are_lawful;
use std::alloc::Global;

/// How a replay ended: the exit status, and the journal of the events that were done.
#[derive(Drop)]
pub struct ReplayEnd {
    pub status: Status,
    pub journal: Journal,
}

/// What a run of the program comes to: the exit status, the journal of the events that were done, and
/// the connections that were served, or the one that was dialled.
#[derive(Drop)]
pub struct Outcome<H: Host> {
    pub status: Status,
    pub journal: Journal,
    pub served: ServedList<H>,
}

/// The exit status of an end.
pub(crate) fn status_of(end: End) -> Status
    ensures { result ≡ status_of end }
{
    match end {
        End::Done => Status::Done,
        End::Usage => Status::Usage,
        End::Script => Status::Refused,
        End::ReadFault => Status::ReadFault,
        End::WriteFault => Status::WriteFault,
        End::NoMemory => Status::NoMemory,
    }
}

/// Nothing is done, for this reason.
pub(crate) fn idle<H: Host>(alloc: Global, end: End) -> Outcome<H>
    ensures status { result.status ≡ status_of end }
    ensures empty { result.journal ≡ journal_in One [] }
    ensures journal { OfJournal result.journal }
    ensures unserved { result.served ≡ [] }
{
    journals_are_lawful();
    Outcome {
        status: status_of(end),
        journal: empty_journal(alloc, Format::One),
        served: Items::new(alloc),
    }
}
