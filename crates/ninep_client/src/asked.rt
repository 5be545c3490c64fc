//! The tags that are asked.

ghost use Rattle.std.specs.Prelude.{◌≡◌, ◌≤◌, ◌<◌, ◌+◌, true, false, length, IfOk, IfErr, Some, None, Ok, Err, OnOk};
ghost use Rattle.std.specs.Prelude.{OnErr, slice_get};
ghost use Rattle.ninep_client.specs.Asking.{most_tags, is_asked, has_tag, has_reply_of, waits_for, waiting_place};
ghost use Rattle.ninep_client.specs.Asking.{reply_place, reply_of, IsLeastFree, HasTag};
ghost use Rattle.ninep_client.specs.Hearing.{heard_reply, judged, kind_in, answered, waiting, IsOfReply};

use crate::fault::CallFault;
use crate::kinds::answers;
use am_text::Roomy;
use ninep_types::{NO_TAG, RBody, RMsg};
use ninep_wire::r_kind;

/// A tag that is asked.
#[derive(Drop)]
pub struct Asked {
    pub tag: u16,
    /// The type byte of the message that was sent.
    pub kind: u8,
    /// The reply, once it has come.
    pub reply: Option<RBody>,
}

impl Asked {
    fn has_tag(&self, tag: u16) -> bool
        ensures { result ≡ has_tag tag self.now }
    {
        self.tag == tag
    }

    fn waits_for(&self, tag: u16) -> bool
        ensures { result ≡ waits_for tag self.now }
    {
        self.tag == tag && self.reply.is_none()
    }

    fn has_reply_of(&self, tag: u16) -> bool
        ensures { result ≡ has_reply_of tag self.now }
    {
        self.tag == tag && self.reply.is_some()
    }
}

/// Whether a tag is asked.
pub(crate) fn is_asked(asked: &[Asked], tag: u16) -> bool
    ensures { result ≡ is_asked tag asked.now }
{
    asked.iter().any(|a| a.has_tag(tag))
}

// The least tag from 1 on that isn't asked.
#[tactic(auto, using(crate::proofs::Tags::all_asked))]
fn free_tag(asked: &[Asked]) -> u16
    requires few { length asked.now < most_tags }
    ensures { IsLeastFree asked.now result }
{
    let mut tag: u16 = 1;
    while is_asked(asked, tag) {
        tag += 1;
    }
    tag
}

/// The tag for a message, a version message or another.
pub(crate) fn tag_for(asked: &[Asked], version: bool) -> u16
    requires few { length asked.now < most_tags }
    ensures { HasTag version asked.now result }
{
    if version { NO_TAG } else { free_tag(asked) }
}

/// The place at which the reply to a tag is kept, if it is.
pub(crate) fn reply_place(asked: &[Asked], tag: u16) -> Option<usize>
    ensures { result ≡ reply_place tag asked.now }
{
    asked.iter().position(|a| a.has_reply_of(tag))
}

fn waiting_place(asked: &[Asked], tag: u16) -> Option<usize>
    ensures { result ≡ waiting_place tag asked.now }
{
    asked.iter().position(|a| a.waits_for(tag))
}

// The type byte of the message that was sent with a tag, at its place.
fn kind_at(asked: &[Asked], at: usize) -> Option<u8>
    ensures { result ≡ kind_in (slice_get asked.now at) }
{
    let a = asked.get(at)?;
    Some(a.kind)
}

// The place and the type byte of the tag that waits for a reply.
#[tactic(auto, unfolding(crate::specs::Hearing::judged))]
fn judged(asked: &[Asked], message: &RMsg) -> Result<(usize, u8), CallFault>
    ensures ok { IfOk result (λ place. judged asked.now message.now ≡ Ok place) }
    ensures place { IfOk result (λ place. waiting_place message.now.tag asked.now ≡ Some place.0) }
    ensures err { IfErr result (λ e. (judged asked.now message.now ≡ Err e) × IsOfReply e) }
{
    let Some(at) = waiting_place(asked, message.tag) else {
        return Err(CallFault::Unasked(message.tag));
    };
    let Some(kind) = kind_at(asked, at) else {
        return Err(CallFault::Unasked(message.tag));
    };
    if !answers(kind, &message.body) {
        return Err(CallFault::Kind(r_kind(&message.body)));
    }
    Ok((at, kind))
}

/// Keeps a reply for its tag, if that is asked and has none. A refusal changes nothing. It takes no memory.
#[tactic(auto, using(crate::proofs::Kept::fewer_wait))]
pub(crate) fn keep(asked: &mut Roomy<Asked>, message: RMsg) -> Result<(), CallFault>
    ensures ok { OnOk result (heard_reply asked.old.items message ≡ Ok asked.new.items) }
    ensures fewer { OnOk result (waiting asked.new.items < waiting asked.old.items) }
    ensures err { IfErr result (λ e. (heard_reply asked.old.items message ≡ Err e) × IsOfReply e) }
    ensures same { OnErr result (asked.new ≡ asked.old) }
{
    match judged(asked.as_slice(), &message) {
        Ok((at, kind)) => {
            let RMsg { tag, body } = message;
            asked.set(
                at,
                Asked {
                    tag,
                    kind,
                    reply: Some(body),
                },
            );
            Ok(())
        }
        Err(fault) => Err(fault),
    }
}

/// Takes the reply to a tag that is kept at this place, and the tag is free again. It takes no memory.
pub(crate) fn take_reply(asked: &mut Roomy<Asked>, tag: u16, at: usize) -> RBody
    requires { reply_place tag asked.old.items ≡ Some at }
    ensures reply { reply_of tag asked.old.items ≡ Some result }
    ensures rest { asked.new.items ≡ answered tag asked.old.items }
{
    // law: the tag stands in the contract alone
    let _tag = tag;
    match asked.remove(at).reply {
        Some(body) => body,
        None => unreachable!(),
    }
}
