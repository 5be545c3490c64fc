//! The report in parts, so that it need not stand in memory whole.

ghost use Rattle.std.specs.Prelude.{◌≡◌, ◌++◌, ◌<◌, ◌+◌, [], IfOk, OnOk, length, get_or, map};
ghost use Rattle.std.specs.List.{concat};
ghost use Rattle.am_journal.specs.Report.{conn_line, window_lines, item_line, life_at, report_text};
ghost use Rattle.am_journal.specs.Sections.{sections, first_line, request_parts, member_parts, section_parts};

use crate::event::Format;
use crate::reporting::{put_conn, put_item, put_state_line, put_title, put_window};
use crate::view::{ConnView, ItemView, View, WindowView};
use am_text::{Bytes, Items, Job, JobLife, NoMemory, put_around, put_request_lines};
use std::alloc::Global;

/// A section of a report.
#[derive(Clone, Copy, Debug, PartialEq, Eq)]
pub enum Section {
    Title,
    Journal,
    Connections,
    Windows,
    Items,
    Requests,
}

/// The sections of a report, in their order.
#[tactic(auto, unfolding(crate::specs::Sections::sections))]
pub fn sections() -> [Section; 6]
    ensures { result ≡ sections }
{
    [
        Section::Title,
        Section::Journal,
        Section::Connections,
        Section::Windows,
        Section::Items,
        Section::Requests,
    ]
}

/// How many parts a section has: its first line, and one for each of its members.
#[tactic(auto, using(crate::proofs::Parted::counts), unfolding(crate::specs::Sections::section_parts))]
pub fn part_count(view: &View, section: Section) -> usize
    ensures { result ≡ length (section_parts view.now section) }
{
    match section {
        Section::Title | Section::Journal => 1,
        Section::Connections => view.conns.as_slice().len() + 1,
        Section::Windows => view.windows.as_slice().len() + 1,
        Section::Items => view.items.as_slice().len() + 1,
        Section::Requests => view.jobs.as_slice().len() + 1,
    }
}

fn put_first(alloc: Global, out: &mut Bytes, view: &View, section: Section) -> Result<(), NoMemory>
    ensures { OnOk result (out.new ≡ out.old ++ first_line view.now section) }
{
    match section {
        Section::Title => put_title(out),
        Section::Journal => put_around(alloc, out, b"journal ", view.entries, b"\n"),
        Section::Connections => {
            put_around(alloc, out, b"connections ", view.conns.len() as u64, b"\n")
        }
        Section::Windows => put_around(alloc, out, b"windows ", view.windows.len() as u64, b"\n"),
        Section::Items => put_around(alloc, out, b"items ", view.items.len() as u64, b"\n"),
        Section::Requests => put_around(alloc, out, b"requests ", view.jobs.len() as u64, b"\n"),
    }
}

fn put_conn_at(
    alloc: Global,
    out: &mut Bytes,
    format: Format,
    views: &[ConnView],
    k: usize,
) -> Result<(), NoMemory>
    requires { k < length views.now }
    ensures { OnOk result (out.new ≡ out.old ++ get_or (map (conn_line format) views.now) k []) }
{
    put_conn(alloc, out, format, &views[k])
}

fn put_window_at(
    alloc: Global,
    out: &mut Bytes,
    views: &[WindowView],
    k: usize,
) -> Result<(), NoMemory>
    requires { k < length views.now }
    ensures { OnOk result (out.new ≡ out.old ++ get_or (map window_lines views.now) k []) }
{
    put_window(alloc, out, &views[k])
}

fn put_item_at(alloc: Global, out: &mut Bytes, views: &[ItemView], k: usize) -> Result<(), NoMemory>
    requires { k < length views.now }
    ensures { OnOk result (out.new ≡ out.old ++ get_or (map item_line views.now) k []) }
{
    put_item(alloc, out, &views[k])
}

fn life_at(lives: &[JobLife], k: usize) -> JobLife
    ensures { result ≡ life_at lives.now k }
{
    match lives.get(k) {
        None => JobLife::Waiting,
        Some(life) => *life,
    }
}

#[tactic(auto, using(crate::proofs::Parted::requested), unfolding(crate::specs::Report::request_told))]
fn put_request_at(alloc: Global, out: &mut Bytes, view: &View, k: usize) -> Result<(), NoMemory>
    requires { k < length view.now.jobs }
    ensures { OnOk result (out.new ≡ out.old
        ++ get_or (request_parts view.now.format view.now.lives 0 view.now.jobs) k []) }
{
    let jobs = view.jobs.as_slice();
    put_request_lines(alloc, out, k as u64 + 1, &jobs[k])?;
    put_state_line(alloc, out, view.format, life_at(view.lives.as_slice(), k))?;
    Ok(())
}

#[tactic(auto, using(crate::proofs::Parted::counts))]
fn put_member(
    alloc: Global,
    out: &mut Bytes,
    view: &View,
    section: Section,
    k: usize,
) -> Result<(), NoMemory>
    requires { k < length (member_parts view.now section) }
    ensures { OnOk result (out.new ≡ out.old ++ get_or (member_parts view.now section) k []) }
{
    match section {
        Section::Title | Section::Journal => Ok(()),
        Section::Connections => put_conn_at(alloc, out, view.format, view.conns.as_slice(), k),
        Section::Windows => put_window_at(alloc, out, view.windows.as_slice(), k),
        Section::Items => put_item_at(alloc, out, view.items.as_slice(), k),
        Section::Requests => put_request_at(alloc, out, view, k),
    }
}

/// A part of a section.
#[tactic(auto, using(crate::proofs::Parted::parts), unfolding(crate::specs::Sections::section_parts))]
pub fn report_part(
    alloc: Global,
    view: &View,
    section: Section,
    at: usize,
) -> Result<Bytes, NoMemory>
    requires { at < length (section_parts view.now section) }
    ensures { IfOk result (λ part. part ≡ get_or (section_parts view.now section) at []) }
{
    let mut out = Items::new(alloc);
    if at == 0 {
        put_first(alloc, &mut out, view, section)?;
    } else {
        put_member(alloc, &mut out, view, section, at - 1)?;
    }
    Ok(out)
}

#[tactic(auto, using(crate::proofs::Parted::joins))]
fn put_section(
    alloc: Global,
    out: &mut Bytes,
    view: &View,
    section: Section,
) -> Result<(), NoMemory>
    ensures { OnOk result (out.new ≡ out.old ++ concat (section_parts view.now section)) }
{
    for at in 0..part_count(view, section) {
        let part = report_part(alloc, view, section, at)?;
        out.append(part.as_slice())?;
    }
    Ok(())
}

/// The report on the editor: its journal's entries, its connections, its live windows, the items of all windows, and
/// its requests.
#[tactic(auto, using(crate::proofs::Parted::reports))]
pub fn report(alloc: Global, view: &View) -> Result<Bytes, NoMemory>
    ensures { IfOk result (λ text. text ≡ report_text view.now) }
{
    let mut out = Items::new(alloc);
    for section in &sections() {
        put_section(alloc, &mut out, view, *section)?;
    }
    Ok(out)
}
