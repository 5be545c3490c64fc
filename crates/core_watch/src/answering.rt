//! Answers to requests, as they are written to `jobs`.

ghost use Rattle.std.specs.Prelude.{◌≡◌};
ghost use Rattle.am_text.specs.Twice.{both, IsSteady};
ghost use Rattle.core_watch.specs.Answering.{refusal_of, answer_refusal, answer_written, answered_with};
ghost use Rattle.core_watch.specs.Sound.{IsWatchSound, IsWatchIdle};

use acme_watch::{AnswerFault, Watch};
use am_text::Bytes;
use core_fids::Refusal;

/// An answer to a request, as an opening of `jobs` writes it.
#[derive(Drop)]
pub struct RequestAnswer {
    pub opening: u32,
    pub text: Bytes,
}

// The refusal that tells why an answer can't be done.
fn refusal_of(fault: AnswerFault) -> Refusal
    ensures { result ≡ refusal_of fault }
{
    match fault {
        AnswerFault::BadAnswer => Refusal::BadAnswer,
        AnswerFault::Answered => Refusal::RequestAlreadyAnswered,
        AnswerFault::NoRequest => Refusal::NoSuchRequest,
    }
}

/// Why an answer of this text by an opening of `jobs` is refused, if it is. It takes no memory.
pub fn answer_refusal(watch: &Watch, opening: u32, text: &[u8]) -> Option<Refusal>
    ensures { result ≡ answer_refusal watch.now.present opening text.now }
{
    match watch.answer_fault(opening, text) {
        Some(fault) => Some(refusal_of(fault)),
        None => None,
    }
}

#[tactic(auto, using(crate::proofs::Steps::answering))]
fn answer_request(watch: &mut Watch, opening: u32, text: &[u8], at: u64)
    requires steady { IsSteady watch.old }
    requires sound { IsWatchSound watch.old.present }
    ensures new { watch.new ≡ both (answer_written watch.old.present opening text.now at) }
    ensures sound { IsWatchSound watch.new.present }
    ensures idle { IsWatchIdle watch.old.present → IsWatchIdle watch.new.present }
{
    match watch.answer(opening, text, at) {
        Ok(()) => {}
        Err(_refused) => {}
    }
}

/// The request is answered at this entry, where a message writes an answer to one that isn't refused. It takes no
/// memory.
#[tactic(auto, using(crate::proofs::Steps::answering))]
pub fn write_answer(watch: &mut Watch, answer: &Option<RequestAnswer>, at: u64)
    requires steady { IsSteady watch.old }
    requires sound { IsWatchSound watch.old.present }
    ensures new { watch.new ≡ both (answered_with at watch.old.present answer.now) }
    ensures sound { IsWatchSound watch.new.present }
    ensures idle { IsWatchIdle watch.old.present → IsWatchIdle watch.new.present }
{
    match answer {
        Some(answer) => answer_request(watch, answer.opening, answer.text.as_slice(), at),
        None => {}
    }
}
