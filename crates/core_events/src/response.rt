//! What is said to connections.

ghost use Rattle.std.specs.Prelude.{◌≡◌, ◌++◌, option_copied, IfOk};
ghost use Rattle.core_events.specs.Responses.{AreSaid, event_feed, port_feed, watch_kind, watch_feed, feed_in};

use am_text::{Items, NoMemory};
use core_fids::{WatchFile, WatchOpening, event_opening, port_opening, watch_opening};
use fid_table::Fid;
use ninep_types::RMsg;

/// What a feed gives: what comes later is read as it comes.
#[derive(Clone, Copy, Debug, PartialEq, Eq)]
pub enum FeedKind {
    /// The items of a window's event file.
    Events,
    /// The messages that are delivered to a port.
    Port,
    /// The lines of `log`.
    Log,
    /// The requests of `jobs`.
    Jobs,
}

/// What a read that may wait reads: one opening of a file of this kind.
#[derive(Clone, Copy, Debug, PartialEq, Eq)]
pub struct Feed {
    pub kind: FeedKind,
    pub opening: u32,
}

/// What is said to a connection in answer to the message that has the same tag; and where that message read a
/// file whose reads may wait, what it read.
#[derive(Drop)]
pub struct Response {
    pub conn: u32,
    pub message: RMsg,
    pub feed: Option<Feed>,
}

/// What is said, one after another.
pub type Responses = Items<Response>;

/// An opening of an event file.
pub fn event_feed(opening: u32) -> Feed
    ensures { result ≡ event_feed opening }
{
    Feed {
        kind: FeedKind::Events,
        opening,
    }
}

/// An opening of a port.
pub fn port_feed(opening: u32) -> Feed
    ensures { result ≡ port_feed opening }
{
    Feed {
        kind: FeedKind::Port,
        opening,
    }
}

// What an opening of this file gives.
fn watch_kind(file: WatchFile) -> FeedKind
    ensures { result ≡ watch_kind file }
{
    match file {
        WatchFile::Log => FeedKind::Log,
        WatchFile::Jobs => FeedKind::Jobs,
    }
}

/// An opening of `log` or of `jobs`.
pub fn watch_feed(opening: WatchOpening) -> Feed
    ensures { result ≡ watch_feed opening }
{
    Feed {
        kind: watch_kind(opening.file),
        opening: opening.opening,
    }
}

/// What reads of a fid read, where they may wait.
pub(crate) fn feed_in(fid: Option<&Fid>) -> Option<Feed>
    ensures { result ≡ feed_in (option_copied fid.entry) }
{
    let fid = fid?;
    if let Some(opening) = event_opening(fid) {
        return Some(event_feed(opening));
    }
    if let Some(opening) = port_opening(fid) {
        return Some(port_feed(opening));
    }
    match watch_opening(fid) {
        Some(opening) => Some(watch_feed(opening)),
        None => None,
    }
}

/// These, and then those.
#[tactic(auto, using(crate::proofs::Saids::saying))]
pub fn joined(said: Responses, more: Responses) -> Result<Responses, NoMemory>
    requires said { AreSaid said }
    requires more { AreSaid more }
    ensures exact { IfOk result (λ all. all ≡ said ++ more) }
    ensures said { IfOk result AreSaid }
{
    if said.is_empty() {
        return Ok(more);
    }
    if more.is_empty() {
        return Ok(said);
    }
    let mut all = said;
    for response in more.into_vec() {
        all.push(response)?;
    }
    Ok(all)
}
