//! Reading the messages that come, and keeping the replies.

ghost use Rattle.std.specs.Prelude.{◌≡◌, ◌≤◌, ◌<◌, Some, None, Ok, true, is_some, IfOk, IfErr, OnOk, OnErr};
ghost use Rattle.am_base.specs.Seen.{seen};
ghost use Rattle.ninep_cut.specs.declared.cut.Cut.TheVariants.{Whole};
ghost use Rattle.ninep_cut.specs.Cuts.{cut_of};
ghost use Rattle.ninep_client.specs.Asking.{reply_place};
ghost use Rattle.ninep_client.specs.Hearing.{Came, Hears, HearsOne, StopsAt, HeardFails, heard, end_of, waiting};

use crate::asked::{Asked, keep, reply_place};
use crate::fault::CallFault;
use crate::unread::Unread;
use am_base::Source;
use am_text::Roomy;
use ninep_cut::{Cut, answers_are_exact, cut_of, first_of};
use ninep_types::{WireError, WireFault};
use ninep_wire::read_r;
use std::alloc::Global;

// Why there is no message at the end of the source.
fn end_at(unread: &Unread) -> CallFault
    ensures { result ≡ end_of unread.now }
{
    if unread.bytes().is_empty() {
        CallFault::Ended
    } else {
        CallFault::Torn
    }
}

// Reads bytes until a whole message stands at the front.
fn fill<R: Source>(unread: &mut Unread, source: &mut R) -> Result<(), CallFault>
    ensures came { Came (R.told source.old).bytes (R.told source.new).bytes unread.old unread.new }
    ensures ok { OnOk result (cut_of unread.new ≡ Whole) }
    ensures err { IfErr result (λ e. (asked : _) → StopsAt e asked unread.new
        (seen (R.told source.old) (R.told source.new))) }
    ensures later { (R.told source.old).faults ≤ (R.told source.new).faults }
{
    // law: what is read of the bytes so far is read of all bytes
    answers_are_exact();
    'pieces: loop {
        match cut_of(unread.bytes()) {
            Cut::Whole => return Ok(()),
            Cut::Broken(_) => return Err(CallFault::Wire(WireFault::Size)),
            Cut::More => {}
        }
        if unread.read(source)? == 0 {
            return Err(end_at(unread));
        }
    }
}

// Reads a message, and keeps the reply. A refusal changes nothing.
#[tactic(auto, unfolding(crate::specs::Hearing::heard))]
fn hear_message(alloc: Global, asked: &mut Roomy<Asked>, message: &[u8]) -> Result<(), CallFault>
    ensures ok { OnOk result (heard asked.old.items message.now ≡ Ok asked.new.items) }
    ensures fewer { OnOk result (waiting asked.new.items < waiting asked.old.items) }
    ensures err { IfErr result (λ e. HeardFails e (heard asked.old.items message.now)) }
    ensures same { OnErr result (asked.new ≡ asked.old) }
{
    match read_r(alloc, message) {
        Ok(message) => keep(asked, message),
        Err(WireError::Fault(fault)) => Err(CallFault::Wire(fault)),
        Err(WireError::NoMemory) => Err(CallFault::NoMemory),
    }
}

// Reads the next message, and keeps the reply.
fn hear<R: Source>(
    alloc: Global,
    asked: &mut Roomy<Asked>,
    unread: &mut Unread,
    source: &mut R,
) -> Result<(), CallFault>
    ensures ok { OnOk result (HearsOne asked.old.items unread.old (R.told source.old).bytes (R.told source.new).bytes
        asked.new.items unread.new) }
    ensures fewer { OnOk result (waiting asked.new.items < waiting asked.old.items) }
    ensures came { OnErr result (Came (R.told source.old).bytes (R.told source.new).bytes unread.old unread.new) }
    ensures same { OnErr result (asked.new ≡ asked.old) }
    ensures err { IfErr result (λ e. StopsAt e asked.old.items unread.new
        (seen (R.told source.old) (R.told source.new))) }
    ensures later { (R.told source.old).faults ≤ (R.told source.new).faults }
{
    if let Err(fault) = fill(unread, source) {
        return Err(fault);
    }
    let message = first_of(unread.bytes());
    let size = message.len();
    match hear_message(alloc, asked, message) {
        Ok(()) => {
            unread.skip(size);
            Ok(())
        }
        Err(fault) => Err(fault),
    }
}

/// Reads messages until the reply to a tag is kept, and answers its place. Where it is kept nothing is read.
pub(crate) fn bring<R: Source>(
    alloc: Global,
    asked: &mut Roomy<Asked>,
    unread: &mut Unread,
    source: &mut R,
    tag: u16,
) -> Result<usize, CallFault>
    ensures hears { Hears tag asked.old.items unread.old (R.told source.old).bytes (R.told source.new).bytes
        asked.new.items unread.new }
    ensures ok { IfOk result (λ at. reply_place tag asked.new.items ≡ Some at) }
    ensures none { OnErr result (reply_place tag asked.new.items ≡ None) }
    ensures err { IfErr result (λ e. StopsAt e asked.new.items unread.new
        (seen (R.told source.old) (R.told source.new))) }
    ensures first { OnErr result (reply_place tag asked.old.items ≡ None) }
    ensures kept { is_some (reply_place tag asked.old.items) ≡ true → (R.told source.new).bytes
        ≡ (R.told source.old).bytes }
    ensures later { (R.told source.old).faults ≤ (R.told source.new).faults }
{
    'messages: loop {
        if let Some(at) = reply_place(asked.as_slice(), tag) {
            return Ok(at);
        }
        if let Err(fault) = hear(alloc, asked, unread, source) {
            return Err(fault);
        }
    }
}
