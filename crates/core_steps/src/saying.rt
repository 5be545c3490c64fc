//! What is said in a step, stage by stage, and all of it in order with its bytes.

ghost use Rattle.std.specs.Prelude.{◌≡◌, ◌∷◌, [], IfOk};
ghost use Rattle.core_fids.specs.Done.{IsSent};
ghost use Rattle.core_events.specs.declared.response.Feed.{Feed};
ghost use Rattle.core_events.specs.Responses.{AreSaid};
ghost use Rattle.core_steps.specs.Heard.{all_of, is_answer_alone, AreAllSaid};
ghost use Rattle.core_steps.specs.Stages.{response};
ghost use Rattle.core_steps.specs.Replies.{replies_of};
ghost use Rattle.core_outputs.specs.Unsent.{HaveBytes, put_replies};

use am_text::{Items, NoMemory};
use core_events::{Feed, Response, Responses, joined};
use core_outputs::{Outputs, Reply};
use ninep_types::{RBody, RMsg};
use ninep_wire::write_r;
use std::alloc::Global;

/// What is said in a step, in the order in which it is said.
#[derive(Drop)]
pub(crate) struct Heard {
    /// To the reads that a freed fid ends.
    pub clunked: Responses,
    /// To the message, unless it reads a port, `log` or `jobs`.
    pub answered: Responses,
    /// To the message's read of a port.
    pub asked: Responses,
    /// To the message's read of `log` or `jobs`.
    pub followed: Responses,
    /// To the reads that the deletion of windows ends.
    pub deleted: Responses,
    /// To the waiting reads that can be answered, of all files.
    pub served: Responses,
}

/// What is said, in order, and its bytes.
#[derive(Drop)]
pub(crate) struct Told {
    pub said: Responses,
    pub replies: Vec<Reply>,
}

/// One thing that is said; and what the message read, where it read an event file.
#[tactic(auto, using(crate::proofs::Saids::saying))]
pub(crate) fn one(
    alloc: Global,
    conn: u32,
    tag: u16,
    body: RBody,
    feed: Option<Feed>,
) -> Result<Responses, NoMemory>
    requires { IsSent body }
    ensures exact { IfOk result (λ said. said ≡ record (response conn tag body) { feed = feed } ∷ []) }
    ensures said { IfOk result AreSaid }
{
    let mut said = Items::new(alloc);
    said.push(Response {
        conn,
        message: RMsg { tag, body },
        feed,
    })?;
    Ok(said)
}

// The bytes of what is said.
#[tactic(auto, using(crate::proofs::Saids::bytes))]
fn spelled(alloc: Global, said: &[Response]) -> Result<Vec<Reply>, NoMemory>
    requires { AreSaid said.now }
    ensures exact { IfOk result (λ replies. replies.items ≡ replies_of said.now) }
    ensures some { IfOk result (λ replies. HaveBytes replies.items) }
{
    let mut replies = Vec::new(alloc);
    for response in said {
        replies.push(Reply {
            conn: response.conn,
            bytes: write_r(alloc, &response.message)?,
        })?;
    }
    Ok(replies)
}

// Whether nothing is said but the answer to the message, if it is.
fn is_answer_alone(heard: &Heard) -> bool
    ensures { result ≡ is_answer_alone heard.now }
{
    heard.clunked.is_empty()
        && heard.asked.is_empty()
        && heard.followed.is_empty()
        && heard.deleted.is_empty()
        && heard.served.is_empty()
}

// All that is said, in order.
fn all_of(heard: Heard) -> Result<Responses, NoMemory>
    requires { AreAllSaid heard }
    ensures exact { IfOk result (λ said. said ≡ all_of heard) }
    ensures said { IfOk result AreSaid }
{
    let is_alone = is_answer_alone(&heard);
    let Heard {
        clunked,
        answered,
        asked,
        followed,
        deleted,
        served,
    } = heard;
    if is_alone {
        return Ok(answered);
    }
    let said = joined(clunked, answered)?;
    let said = joined(said, asked)?;
    let said = joined(said, followed)?;
    let said = joined(said, deleted)?;
    joined(said, served)
}

/// All that is said, in order, with its bytes, which are put to the unsent replies.
pub(crate) fn tell(alloc: Global, outputs: &mut Outputs, heard: Heard) -> Result<Told, NoMemory>
    requires { AreAllSaid heard }
    ensures said { IfOk result (λ told. told.said ≡ all_of heard) }
    ensures replies { IfOk result (λ told. told.replies.items ≡ replies_of told.said) }
    ensures put { IfOk result (λ told. outputs.new.present ≡ put_replies outputs.old.present (replies_of told.said)) }
    ensures kept { outputs.new.kept ≡ outputs.old.kept }
{
    let said = all_of(heard)?;
    let replies = spelled(alloc, said.as_slice())?;
    outputs.put_all(&replies)?;
    Ok(Told { said, replies })
}
