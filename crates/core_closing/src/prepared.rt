//! What a step will do, made ready beforehand.

use am_journal::Event;
use am_text::{Bytes, Ids};
use core_events::{BackItem, Responses};
use core_fids::{Effect, EventChange};
use core_outputs::Reply;
use core_watch::RequestAnswer;

/// An event with all that its step will do: the number of its entry, what it does to the fids and the session of its
/// connection, to the files whose reads wait, the windows that it deletes, the item that it writes back, the answer to a
/// request that it writes, the user whom it attaches, and what is said to connections.
#[derive(Drop)]
pub struct Prepared {
    pub event: Event,
    pub at: u64,
    pub effect: Effect,
    pub events: EventChange,
    pub deleted: Ids,
    pub back: Option<BackItem>,
    pub answers: Option<RequestAnswer>,
    pub user: Option<Bytes>,
    pub said: Responses,
    pub replies: Vec<Reply>,
}
