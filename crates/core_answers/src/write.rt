//! Writing, after write(5).

ghost use Rattle.std.specs.Prelude.{◌≡◌, ◌++◌, ◌<◌, ◌^◌, IfOk, IfErr, IsSome, List, Ok, Option, length};
ghost use Rattle.core_windows.specs.Windows.{Window, window_at};
ghost use Rattle.am_text.specs.Part.{part_bytes, part_of};
ghost use Rattle.am_text.specs.Pieces.{decode_part};
ghost use Rattle.core_fids.specs.Contents.{content_of};
ghost use Rattle.core_fids.specs.Done.{HasSpelling, IsOfLiving, IsDone};
ghost use Rattle.core_fids.specs.Fids.{fid_with_part, watch_opening};
ghost use Rattle.core_fids.specs.Refusals.{Gives};
ghost use Rattle.core_fids.specs.Servers.{server_in, windows_in};
ghost use Rattle.core_answers.specs.Writing.{asked_in, demand_reaction, whole_runes, change_reaction, append_reaction};
ghost use Rattle.core_answers.specs.Writing.{add_reaction, errors_reaction, asking_reaction, write_content};
ghost use Rattle.core_answers.specs.Writing.{answer_reaction, watch_reaction, write_reaction};

use crate::addressing::{write_addr, write_data};
use crate::erring::{
    append_changes, errors_changes, errors_of, errors_refusal, fits_body, fits_tag, lives,
    root_errors,
};
use crate::read::why_not_written;
use acme_watch::WatchFile;
use am_text::{Bytes, Items, NoMemory, Part, Runes, decode_part};
use core_fids::{
    Answer, Content, Demand, Effect, EventChange, Fault, Reaction, Refusal, Server, WatchOpening,
    at_most_three, content_of, emptied_fid, fid_with_part, held_with, port_names, watch_opening,
};
use core_windows::{Change, Changes, Windows};
use fid_table::Fid;
use ninep_types::RBody;
use std::alloc::Global;

/// A write to a fid: its number, the fid, and the bytes.
#[derive(Clone, Copy)]
struct Writing<'a> {
    number: u32,
    fid: &'a Fid,
    bytes: &'a [u8],
}

// The whole runes of what the fid holds and of what is written, and the bytes of an unfinished one.
fn runes_of(alloc: Global, writing: &Writing) -> Result<(Runes, Part), NoMemory>
    ensures text { IfOk result (λ made. made.0 ≡ (whole_runes writing.now.fid.now writing.now.bytes.now).text) }
    ensures rest { IfOk result (λ made. made.1 ≡ part_of (whole_runes writing.now.fid.now writing.now.bytes.now).rest) }
{
    let held = at_most_three(writing.fid.part);
    decode_part(alloc, &held, writing.bytes)
}

// What a write does whose changes are these; the fid holds the bytes of an unfinished rune.
fn change_reaction(
    alloc: Global,
    writing: &Writing,
    changes: Changes,
    part: Part,
) -> Result<Reaction, NoMemory>
    requires { length writing.now.bytes.now < 2 ^ 32 }
    ensures exact { IfOk result (λ r. r ≡ change_reaction (asked_in writing.now) changes
        (fid_with_part writing.now.fid.now part)) }
    ensures sent { IfOk result (λ r. HasSpelling r.answer) }
{
    Ok(Reaction::plain(
        Effect::Puts {
            number: writing.number,
            fid: fid_with_part(alloc, writing.fid, part)?,
        },
        changes,
        RBody::Write {
            count: writing.bytes.len() as u32,
        },
    ))
}

#[tactic(auto, using(crate::proofs::Possibly::made))]
fn append(
    alloc: Global,
    windows: &Windows,
    writing: &Writing,
    window: u32,
) -> Result<Reaction, Fault>
    requires { length writing.now.bytes.now < 2 ^ 32 }
    ensures exact { IfOk result (λ r. append_reaction windows.now.present (asked_in writing.now) writing.now.fid.now
        window (whole_runes writing.now.fid.now writing.now.bytes.now) ≡ Ok r) }
    ensures refused { IfErr result (λ e. Gives e (append_reaction windows.now.present (asked_in writing.now)
        writing.now.fid.now window (whole_runes writing.now.fid.now writing.now.bytes.now))) }
    ensures done { IfOk result (IsDone windows.now.present) }
{
    if !lives(windows, window) {
        return Err(Fault::Refused(Refusal::WindowDeleted));
    }
    let (text, part) = runes_of(alloc, writing)?;
    if !fits_body(windows, window, text.as_slice()) {
        return Err(Fault::Refused(Refusal::TextTooLong));
    }
    let changes = append_changes(alloc, windows, window, text)?;
    Ok(change_reaction(alloc, writing, changes, part)?)
}

#[tactic(auto, using(crate::proofs::Possibly::made))]
fn add(alloc: Global, windows: &Windows, writing: &Writing, window: u32) -> Result<Reaction, Fault>
    requires { length writing.now.bytes.now < 2 ^ 32 }
    ensures exact { IfOk result (λ r. add_reaction windows.now.present (asked_in writing.now) writing.now.fid.now window
        (whole_runes writing.now.fid.now writing.now.bytes.now) ≡ Ok r) }
    ensures refused { IfErr result (λ e. Gives e (add_reaction windows.now.present (asked_in writing.now)
        writing.now.fid.now window (whole_runes writing.now.fid.now writing.now.bytes.now))) }
    ensures done { IfOk result (IsDone windows.now.present) }
{
    if !lives(windows, window) {
        return Err(Fault::Refused(Refusal::WindowDeleted));
    }
    let (text, part) = runes_of(alloc, writing)?;
    if !fits_tag(windows, window, text.as_slice()) {
        return Err(Fault::Refused(Refusal::TextTooLong));
    }
    let mut changes = Items::new(alloc);
    changes.push(Change::Adds { window, text })?;
    Ok(change_reaction(alloc, writing, changes, part)?)
}

#[tactic(auto, using(crate::proofs::Possibly::made))]
fn complain(
    alloc: Global,
    windows: &Windows,
    writing: &Writing,
    name: Runes,
) -> Result<Reaction, Fault>
    requires { length writing.now.bytes.now < 2 ^ 32 }
    ensures exact { IfOk result (λ r. errors_reaction windows.now.present (asked_in writing.now) writing.now.fid.now
        name (whole_runes writing.now.fid.now writing.now.bytes.now) ≡ Ok r) }
    ensures refused { IfErr result (λ e. Gives e (errors_reaction windows.now.present (asked_in writing.now)
        writing.now.fid.now name (whole_runes writing.now.fid.now writing.now.bytes.now))) }
    ensures done { IfOk result (IsDone windows.now.present) }
{
    let (text, part) = runes_of(alloc, writing)?;
    let window = windows.named(name.as_slice());
    if let Some(refusal) = errors_refusal(windows, window, text.as_slice()) {
        return Err(Fault::Refused(refusal));
    }
    let changes = errors_changes(alloc, windows, name, window, text)?;
    Ok(change_reaction(alloc, writing, changes, part)?)
}

// What a write does that asks this of a window.
#[tactic(auto, using(crate::proofs::Possibly::asked))]
fn ask(
    alloc: Global,
    windows: &Windows,
    writing: &Writing,
    window: u32,
    demand: Demand,
) -> Result<Reaction, Fault>
    requires small { length writing.now.bytes.now < 2 ^ 32 }
    requires own { IsSome (window_at windows.now.present window) → IsOfLiving windows.now.present demand }
    ensures exact { IfOk result (λ r. asking_reaction windows.now.present (asked_in writing.now) window demand ≡ Ok r) }
    ensures refused { IfErr result (λ e. Gives e (asking_reaction windows.now.present (asked_in writing.now)
        window demand)) }
    ensures done { IfOk result (IsDone windows.now.present) }
{
    if !lives(windows, window) {
        return Err(Fault::Refused(Refusal::WindowDeleted));
    }
    Ok(Reaction::asking(alloc, demand, writing.bytes.len() as u32))
}

// What a write does whose text the scene takes; the fid holds nothing but what the scene leaves.
fn hand(alloc: Global, writing: &Writing, demand: Demand) -> Reaction
    requires small { length writing.now.bytes.now < 2 ^ 32 }
    requires own { (windows : List (Option Window)) → IsOfLiving windows demand }
    ensures exact { result ≡ demand_reaction (asked_in writing.now) writing.now.fid.now demand }
    ensures done { (windows : List (Option Window)) → IsDone windows result }
{
    Reaction {
        effect: Effect::Puts {
            number: writing.number,
            fid: emptied_fid(alloc, writing.fid),
        },
        events: EventChange::Nothing,
        changes: Items::new(alloc),
        demand,
        answer: Answer::Says(RBody::Write {
            count: writing.bytes.len() as u32,
        }),
    }
}

// What an answer to a request does, which the opening of `jobs` gives that the fid is.
#[tactic(auto, using(crate::proofs::Possibly::asked))]
fn answer(alloc: Global, writing: &Writing) -> Result<Reaction, Fault>
    requires small { length writing.now.bytes.now < 2 ^ 32 }
    ensures exact { IfOk result (λ r. answer_reaction (asked_in writing.now) (watch_opening writing.now.fid.now)
        ≡ Ok r) }
    ensures refused { IfErr result (λ e. Gives e (answer_reaction (asked_in writing.now)
        (watch_opening writing.now.fid.now))) }
    ensures done { IfOk result (λ r. (windows : List (Option Window)) → IsDone windows r) }
{
    let Some(WatchOpening { opening, .. }) = watch_opening(writing.fid) else {
        return Err(Fault::Refused(Refusal::FidIsNotOpen));
    };
    let text = Bytes::copied(alloc, writing.bytes)?;
    let count = writing.bytes.len() as u32;
    Ok(Reaction::asking(alloc, Demand::Answers { opening, text }, count))
}

fn write_watch(alloc: Global, writing: &Writing, file: WatchFile) -> Result<Reaction, Fault>
    requires small { length writing.now.bytes.now < 2 ^ 32 }
    ensures exact { IfOk result (λ r. watch_reaction (asked_in writing.now) writing.now.fid.now file ≡ Ok r) }
    ensures refused { IfErr result (λ e. Gives e (watch_reaction (asked_in writing.now) writing.now.fid.now file)) }
    ensures done { IfOk result (λ r. (windows : List (Option Window)) → IsDone windows r) }
{
    match file {
        WatchFile::Log => Err(Fault::Refused(Refusal::PermissionDenied)),
        WatchFile::Jobs => answer(alloc, writing),
    }
}

#[tactic(auto, using(crate::proofs::Possibly::made))]
fn write_content(alloc: Global, windows: &Windows, writing: &Writing) -> Result<Reaction, Fault>
    requires { length writing.now.bytes.now < 2 ^ 32 }
    ensures exact { IfOk result (λ r. write_content windows.now.present (asked_in writing.now) writing.now.fid.now
        (content_of writing.now.fid.now.node) ≡ Ok r) }
    ensures refused { IfErr result (λ e. Gives e (write_content windows.now.present (asked_in writing.now)
        writing.now.fid.now (content_of writing.now.fid.now.node))) }
    ensures done { IfOk result (IsDone windows.now.present) }
{
    match content_of(writing.fid.node) {
        Content::BodyText(window) => append(alloc, windows, writing, window),
        Content::TagText(window) => add(alloc, windows, writing, window),
        Content::CtlText(window) => {
            let text = Bytes::copied(alloc, writing.bytes)?;
            ask(
                alloc,
                windows,
                writing,
                window,
                Demand::Controls { window, text },
            )
        }
        Content::AddrText(window) => write_addr(alloc, windows, window, writing.bytes),
        Content::DataOf(window) => write_data(alloc, windows, window, writing.bytes),
        Content::XdataOf(window) => write_data(alloc, windows, window, writing.bytes),
        Content::ErrorsOf(window) => {
            let name = errors_of(alloc, windows, window)?;
            complain(alloc, windows, writing, name)
        }
        Content::ConsErrors => {
            let name = root_errors(alloc)?;
            complain(alloc, windows, writing, name)
        }
        Content::Empty => Ok(Reaction::plain(
            Effect::Nothing,
            Items::new(alloc),
            RBody::Write {
                count: writing.bytes.len() as u32,
            },
        )),
        Content::Directory => Err(Fault::Refused(Refusal::PermissionDenied)),
        Content::IndexText => Err(Fault::Refused(Refusal::PermissionDenied)),
        Content::EventsOf(window) => {
            let text = Bytes::copied(alloc, writing.bytes)?;
            ask(
                alloc,
                windows,
                writing,
                window,
                Demand::WriteBack { window, text },
            )
        }
        Content::SendText => {
            let text = held_with(alloc, writing.fid, writing.bytes)?;
            Ok(hand(alloc, writing, Demand::Sends { text }))
        }
        Content::RulesText => {
            let text = held_with(alloc, writing.fid, writing.bytes)?;
            Ok(hand(alloc, writing, Demand::AddsRules { text }))
        }
        Content::PortOf(_) => Err(Fault::Refused(Refusal::PermissionDenied)),
        Content::WatchOf(file) => write_watch(alloc, writing, file),
    }
}

/// What a Twrite does.
pub(crate) fn write(
    alloc: Global,
    server: &Server,
    number: u32,
    bytes: &[u8],
) -> Result<Reaction, Fault>
    requires { length bytes.now < 2 ^ 32 }
    ensures exact { IfOk result (λ r. write_reaction (server_in server.now)
        (record { number = number; bytes = bytes.now }) ≡ Ok r) }
    ensures refused { IfErr result (λ e. Gives e (write_reaction (server_in server.now)
        (record { number = number; bytes = bytes.now }))) }
    ensures done { IfOk result (IsDone (windows_in server.now)) }
{
    let Some(fid) = server.sessions.fid(server.conn, number) else {
        return Err(Fault::Refused(Refusal::UnknownFid));
    };
    if let Some(refusal) = why_not_written(server.windows.world(), port_names(server), fid) {
        return Err(Fault::Refused(refusal));
    }
    let writing = Writing { number, fid, bytes };
    write_content(alloc, server.windows, &writing)
}
