//! Whom a message attaches.

ghost use Rattle.std.specs.Prelude.{◌≡◌, IfOk};
ghost use Rattle.core_intents.specs.Users.{is_attached, uname_of, attached, user_of};

use am_journal::Event;
use am_text::{Bytes, Items, NoMemory};
use core_fids::Answer;
use ninep_types::{RBody, TBody};
use std::alloc::Global;

fn is_attached(answer: &Answer) -> bool
    ensures { result ≡ is_attached answer.now }
{
    match answer {
        Answer::Says(RBody::Attach { .. }) => true,
        _ => false,
    }
}

fn uname_of(alloc: Global, body: &TBody) -> Result<Option<Bytes>, NoMemory>
    ensures { IfOk result (λ user. user ≡ uname_of body.now) }
{
    match body {
        TBody::Attach { uname, .. } => Ok(Some(Items::copied(alloc, uname.as_slice())?)),
        _ => Ok(None),
    }
}

fn attached(alloc: Global, body: &TBody, answer: &Option<Answer>) -> Result<Option<Bytes>, NoMemory>
    ensures { IfOk result (λ user. user ≡ attached body.now answer.now) }
{
    match answer {
        Some(answer) if is_attached(answer) => uname_of(alloc, body),
        Some(_) => Ok(None),
        None => Ok(None),
    }
}

/// The user whom an event attaches to its connection, where its message is answered so. `NoMemory` where there is none
/// for the copy.
pub fn user_of(
    alloc: Global,
    event: &Event,
    answer: &Option<Answer>,
) -> Result<Option<Bytes>, NoMemory>
    ensures { IfOk result (λ user. user ≡ user_of event.now answer.now) }
{
    match event {
        Event::Msg { msg, .. } => attached(alloc, &msg.body, answer),
        Event::Dial { .. } => Ok(None),
        Event::Hang { .. } => Ok(None),
        Event::Took { .. } => Ok(None),
        Event::New => Ok(None),
        Event::Key { .. } => Ok(None),
        Event::Sel { .. } => Ok(None),
        Event::Exec { .. } => Ok(None),
        Event::Arg { .. } => Ok(None),
        Event::Look { .. } => Ok(None),
        Event::File { .. } => Ok(None),
        Event::Dir { .. } => Ok(None),
    }
}
