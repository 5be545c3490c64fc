//! One message and its reply.

ghost use Rattle.std.specs.Prelude.{◌≡◌, ◌≤◌, false, [], IfOk, IfErr, OnOk};
ghost use Rattle.ninep_client.specs.Asking.{MaySend, is_version};
ghost use Rattle.am_do.specs.Talks.{asks};
ghost use Rattle.am_do.specs.Sorting.{sorted_as};
ghost use Rattle.am_do.specs.Went.{IsReady, Went, Halted, ends, most_behind};

use crate::answers::Reply;
use crate::stop::Stop;
use am_base::{Sink, Source};
use am_text::{Bytes, Items, NoMemory};
use ninep_client::{CallFault, Client, TBody};
use ninep_cut::answers_are_exact;
use std::alloc::Global;

// Stands for the reply to a message that isn't sent, since it is too long.
const TOO_LARGE: &[u8] = b"message too large";

// What a fault is to a talk.
#[derive(Drop)]
pub(crate) enum Sorted {
    /// The text of an error that was answered.
    Text(Bytes),
    /// The message is too long.
    TooLarge,
    /// It ends the talk.
    Stops(CallFault),
}

fn sorted_as(fault: CallFault) -> Sorted
    ensures { result ≡ sorted_as fault }
{
    match fault {
        CallFault::Remote(text) => Sorted::Text(text),
        CallFault::Large => Sorted::TooLarge,
        other => Sorted::Stops(other),
    }
}

/// Sends a message while no tag is asked, and gives the reply to it, or the text of an error.
pub(crate) fn ask<R: Source, W: Sink>(
    alloc: Global,
    client: &mut Client<R, W>,
    body: TBody,
) -> Result<Reply, Stop>
    requires ready { IsReady client.old.talk }
    requires may { MaySend [] body }
    ensures ok { IfOk result (λ reply. Went (asks client.old.talk.msize body) client.old.talk client.new.talk
        (W.told client.old.sink).bytes (W.told client.new.sink).bytes (R.told client.old.source).bytes (R.told client.new.source).bytes [] reply) }
    ensures ready { OnOk result (IsReady client.new.talk) }
    ensures most { IfOk result (λ reply. client.new.talk.msize ≡ most_behind reply client.old.talk.msize) }
    ensures same { is_version body ≡ false → OnOk result (client.new.talk.msize ≡ client.old.talk.msize) }
    ensures err { IfErr result (λ stop. Halted stop (asks client.old.talk.msize body) client.old.talk
        (ends (W.told client.old.sink) (W.told client.new.sink)
        (R.told client.old.source) (R.told client.new.source)) []) }
    ensures later_sink { (W.told client.old.sink).faults ≤ (W.told client.new.sink).faults }
    ensures later_source { (R.told client.old.source).faults ≤ (R.told client.new.source).faults }
{
    answers_are_exact();
    match client.call(body) {
        Ok(reply) => Ok(Ok(reply)),
        Err(fault) => match sorted_as(fault) {
            Sorted::Text(text) => Ok(Err(text)),
            Sorted::TooLarge => match Items::copied(alloc, TOO_LARGE) {
                Ok(text) => Ok(Err(text)),
                Err(NoMemory) => Err(Stop::Fault(CallFault::NoMemory)),
            },
            Sorted::Stops(fault) => Err(Stop::Fault(fault)),
        },
    }
}
