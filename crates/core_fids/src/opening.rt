//! Opening fids, after open(5).

ghost use Rattle.std.specs.Prelude.{◌≡◌, ◌||◌, IfOk, IfErr, Ok, None};
ghost use Rattle.std.specs.List.{list_any};
ghost use Rattle.std.specs.Option.{option_map};
ghost use Rattle.std.specs.Prelude.{slice_get};
ghost use Rattle.fid_table.specs.Tables.{fids_of};
ghost use Rattle.acme_watch.specs.Laws.{count_of};
ghost use Rattle.am_journal.specs.Limits.{connection_count};
ghost use Rattle.core_fids.specs.Servers.{fid_by, plumber_in, server_in, windows_in};
ghost use Rattle.core_fids.specs.Refusals.{Gives};
ghost use Rattle.core_fids.specs.Done.{IsDone};
ghost use Rattle.core_fids.specs.Opening.{mode_refusal, opening_refusal, content_refusal, opening_events, opening_of};
ghost use Rattle.core_fids.specs.Opening.{first_refusal, open_refusal, is_file_of, has_open, or_false, open_below};
ghost use Rattle.core_fids.specs.Opening.{sets_first, clears_limit, resets_addr, opening_changes, opening_demand};
ghost use Rattle.core_fids.specs.Opening.{open_fid};

use crate::content::{Content, content_of};
use crate::effect::{Answer, Demand, Effect, EventChange, Reaction};
use crate::fids::{is_open, opened_fid};
use crate::refusal::{Fault, Refusal};
use crate::server::{Server, port_names};
use acme_tree::{May, Node, WinFile, is_live, may_open, qid_of, truncates};
use acme_watch::{OpeningCounts, WatchFile};
use am_journal::CONNECTIONS;
use am_text::{Items, NoMemory, Range};
use core_windows::{Change, Changes, Setting};
use fid_table::{Fid, Sessions};
use ninep_types::RBody;
use std::alloc::Global;
use wait_queue::MAX_OPENINGS;

/// How many connections there are.
const CONNS: u32 = CONNECTIONS as u32;

fn mode_refusal(may: May) -> Option<Refusal>
    ensures { result ≡ mode_refusal may }
{
    match may {
        May::Yes => None,
        May::BadMode => Some(Refusal::BadOpenMode),
        May::Denied => Some(Refusal::PermissionDenied),
    }
}

// Why no more openings can be made, of which there were so many.
fn opening_refusal(openings: usize) -> Option<Refusal>
    ensures { result ≡ opening_refusal openings }
{
    if openings < MAX_OPENINGS {
        None
    } else {
        Some(Refusal::TooManyOpenings)
    }
}

// How many openings of the file were ever made.
fn count_of(counts: OpeningCounts, file: WatchFile) -> u32
    ensures { result ≡ count_of counts file }
{
    match file {
        WatchFile::Log => counts.log,
        WatchFile::Jobs => counts.jobs,
    }
}

fn content_refusal(server: &Server, content: Content) -> Option<Refusal>
    ensures { result ≡ content_refusal (plumber_in server.now) server.now.opened content }
{
    match content {
        Content::Directory => None,
        Content::BodyText(_) => None,
        Content::TagText(_) => None,
        Content::AddrText(_) => None,
        Content::DataOf(_) => None,
        Content::XdataOf(_) => None,
        Content::CtlText(_) => None,
        Content::IndexText => None,
        Content::ErrorsOf(_) => None,
        Content::ConsErrors => None,
        Content::Empty => None,
        Content::SendText => None,
        Content::RulesText => None,
        Content::EventsOf(_) => opening_refusal(server.opened.events),
        Content::PortOf(_) => opening_refusal(server.ports.joined() as usize),
        Content::WatchOf(file) => opening_refusal(count_of(server.opened.watch, file) as usize),
    }
}

fn first_refusal(first: Option<Refusal>, later: Option<Refusal>) -> Option<Refusal>
    ensures { result ≡ first_refusal first later }
{
    match first {
        Some(refusal) => Some(refusal),
        None => later,
    }
}

fn open_refusal(server: &Server, fid: &Fid, mode: u8) -> Option<Refusal>
    ensures { result ≡ open_refusal (server_in server.now) fid.now mode }
{
    let node = fid.node;
    if !is_live(server.windows.world(), port_names(server), node) {
        Some(Refusal::WindowDeleted)
    } else if is_open(fid) {
        Some(Refusal::FidIsOpen)
    } else {
        first_refusal(
            mode_refusal(may_open(node, mode)),
            content_refusal(server, content_of(node)),
        )
    }
}

// Whether a node is the `ctl`, or the `addr`, of a window.
fn is_file_of(window: u32, file: WinFile, node: Node) -> bool
    ensures { result ≡ is_file_of window file node }
{
    match (file, node) {
        (WinFile::Ctl, Node::File(of, WinFile::Ctl)) => of == window,
        (WinFile::Addr, Node::File(of, WinFile::Addr)) => of == window,
        _ => false,
    }
}

// Whether the k-th fid of a connection has the file of the window open.
fn open_at(sessions: &Sessions, conn: u32, window: u32, file: WinFile, k: usize) -> bool
    ensures { result ≡ or_false (option_map (has_open window file) (slice_get (fids_of sessions.now.present conn) k)) }
{
    match sessions.fid_at(conn, k) {
        Some((_, fid)) => is_open(fid) && is_file_of(window, file, fid.node),
        None => false,
    }
}

fn either(a: bool, b: bool) -> bool
    ensures { result ≡ (a || b) }
{
    a || b
}

// Whether one of the connection's fids has it open.
#[tactic(auto, using(crate::proofs::Scanned::scanning))]
fn has_open(sessions: &Sessions, conn: u32, window: u32, file: WinFile) -> bool
    ensures { result ≡ list_any (has_open window file) (fids_of sessions.now.present conn) }
{
    let count = sessions.count(conn);
    let mut found = false;
    let mut k = 0;
    while k < count {
        found = either(found, open_at(sessions, conn, window, file, k));
        k += 1;
    }
    found
}

// Whether one of all connections has a fid that has it open.
#[tactic(auto, using(crate::proofs::Scanned::connections))]
fn someone_has_open(sessions: &Sessions, window: u32, file: WinFile) -> bool
    ensures { result ≡ open_below sessions.now.present window file connection_count }
{
    let mut found = false;
    let mut conn = 0;
    while conn < CONNS {
        found = either(found, has_open(sessions, conn, window, file));
        conn += 1;
    }
    found
}

// A setting of a window, which is made where no fid has the file open.
fn sets_first(
    alloc: Global,
    sessions: &Sessions,
    window: u32,
    file: WinFile,
    setting: Setting,
) -> Result<Changes, NoMemory>
    ensures { IfOk result (λ changes. changes ≡ sets_first sessions.now.present window file setting) }
{
    if someone_has_open(sessions, window, file) {
        return Ok(Items::new(alloc));
    }
    let mut changes = Items::new(alloc);
    changes.push(Change::Sets { window, setting })?;
    Ok(changes)
}

fn clears_limit(alloc: Global, sessions: &Sessions, window: u32) -> Result<Changes, NoMemory>
    ensures { IfOk result (λ changes. changes ≡ clears_limit sessions.now.present window) }
{
    sets_first(alloc, sessions, window, WinFile::Ctl, Setting::NoLimit)
}

fn resets_addr(alloc: Global, sessions: &Sessions, window: u32) -> Result<Changes, NoMemory>
    ensures { IfOk result (λ changes. changes ≡ resets_addr sessions.now.present window) }
{
    let front = Setting::Addr(Range { q0: 0, q1: 0 });
    sets_first(alloc, sessions, window, WinFile::Addr, front)
}

fn opening_changes(
    alloc: Global,
    sessions: &Sessions,
    content: Content,
) -> Result<Changes, NoMemory>
    ensures { IfOk result (λ changes. changes ≡ opening_changes sessions.now.present content) }
{
    match content {
        Content::CtlText(window) => clears_limit(alloc, sessions, window),
        Content::AddrText(window) => resets_addr(alloc, sessions, window),
        Content::Directory => Ok(Items::new(alloc)),
        Content::BodyText(_) => Ok(Items::new(alloc)),
        Content::TagText(_) => Ok(Items::new(alloc)),
        Content::DataOf(_) => Ok(Items::new(alloc)),
        Content::XdataOf(_) => Ok(Items::new(alloc)),
        Content::IndexText => Ok(Items::new(alloc)),
        Content::ErrorsOf(_) => Ok(Items::new(alloc)),
        Content::ConsErrors => Ok(Items::new(alloc)),
        Content::Empty => Ok(Items::new(alloc)),
        Content::EventsOf(_) => Ok(Items::new(alloc)),
        Content::SendText => Ok(Items::new(alloc)),
        Content::RulesText => Ok(Items::new(alloc)),
        Content::PortOf(_) => Ok(Items::new(alloc)),
        Content::WatchOf(_) => Ok(Items::new(alloc)),
    }
}

fn opening_events(content: Content) -> EventChange
    ensures { result ≡ opening_events content }
{
    match content {
        Content::EventsOf(window) => EventChange::Opens { window },
        Content::PortOf(port) => EventChange::Joins { port },
        Content::WatchOf(file) => EventChange::Watches { file },
        Content::Directory => EventChange::Nothing,
        Content::BodyText(_) => EventChange::Nothing,
        Content::TagText(_) => EventChange::Nothing,
        Content::AddrText(_) => EventChange::Nothing,
        Content::DataOf(_) => EventChange::Nothing,
        Content::XdataOf(_) => EventChange::Nothing,
        Content::CtlText(_) => EventChange::Nothing,
        Content::IndexText => EventChange::Nothing,
        Content::ErrorsOf(_) => EventChange::Nothing,
        Content::ConsErrors => EventChange::Nothing,
        Content::Empty => EventChange::Nothing,
        Content::SendText => EventChange::Nothing,
        Content::RulesText => EventChange::Nothing,
    }
}

// The number of the opening that an open of this makes.
fn opening_of(server: &Server, content: Content) -> Option<u32>
    requires { content_refusal (plumber_in server.now) server.now.opened content ≡ None }
    ensures { result ≡ opening_of (plumber_in server.now) server.now.opened content }
{
    match content {
        Content::EventsOf(_) => Some(server.opened.events as u32 + 1),
        Content::PortOf(_) => Some(server.ports.joined() + 1),
        Content::WatchOf(file) => Some(count_of(server.opened.watch, file) + 1),
        Content::Directory => None,
        Content::BodyText(_) => None,
        Content::TagText(_) => None,
        Content::AddrText(_) => None,
        Content::DataOf(_) => None,
        Content::XdataOf(_) => None,
        Content::CtlText(_) => None,
        Content::IndexText => None,
        Content::ErrorsOf(_) => None,
        Content::ConsErrors => None,
        Content::Empty => None,
        Content::SendText => None,
        Content::RulesText => None,
    }
}

// What an open that empties the file, or doesn't, asks of the scene.
fn opening_demand(empties: bool, content: Content) -> Demand
    ensures { result ≡ opening_demand empties content }
{
    match content {
        Content::RulesText if empties => Demand::ClearsRules,
        _ => Demand::Nothing,
    }
}

/// What a Topen does.
pub fn open(alloc: Global, server: &Server, number: u32, mode: u8) -> Result<Reaction, Fault>
    ensures exact { IfOk result (λ d. open_fid (server_in server.now) number (fid_by (server_in server.now) number) mode
        ≡ Ok d) }
    ensures refused { IfErr result (λ e. Gives e (open_fid (server_in server.now) number
        (fid_by (server_in server.now) number) mode)) }
    ensures done { IfOk result (IsDone (windows_in server.now)) }
{
    let Some(fid) = server.sessions.fid(server.conn, number) else {
        return Err(Fault::Refused(Refusal::UnknownFid));
    };
    if let Some(refusal) = open_refusal(server, fid, mode) {
        return Err(Fault::Refused(refusal));
    }
    let content = content_of(fid.node);
    Ok(Reaction {
        effect: Effect::Puts {
            number,
            fid: opened_fid(alloc, fid, mode, opening_of(server, content))?,
        },
        events: opening_events(content),
        changes: opening_changes(alloc, server.sessions, content)?,
        demand: opening_demand(truncates(mode), content),
        answer: Answer::Says(RBody::Open {
            qid: qid_of(fid.node),
            iounit: 0,
        }),
    })
}
