//! The lines of a report.

ghost use Rattle.std.specs.Prelude.{◌≡◌, ◌++◌, OnOk};
ghost use Rattle.std.specs.Fmt.{decimal};
ghost use Rattle.am_journal.specs.Report.{conn_state, user_end, conn_line, modified_word, dot_words, window_line};
ghost use Rattle.am_journal.specs.Report.{body_line, window_lines, title, life_words, item_line};
ghost use Rattle.am_journal.specs.Report.{taken_words, spent_words, good_word, state_words, state_line};

use crate::causes::{put_cause, put_two};
use crate::ending::Ending;
use crate::event::Format;
use crate::view::{ConnView, ItemView, WindowView};
use am_text::{
    Bytes, Items, JobLife, NoMemory, Range, decimal, decode_whole, put_around, put_text_end,
};
use std::alloc::Global;
use win_events::Life;

#[tactic(auto, unfolding(crate::specs::Report::conn_state))]
fn put_state(alloc: Global, out: &mut Bytes, ending: Option<Ending>) -> Result<(), NoMemory>
    ensures { OnOk result (out.new ≡ out.old ++ conn_state ending) }
{
    match ending {
        None => out.append(b"live"),
        Some(ending) => {
            let mut words = Items::new(alloc);
            put_cause(&mut words, ending)?;
            put_two(out, b"ended ", words.as_slice())
        }
    }
}

#[tactic(auto, using(crate::proofs::Joined::joined))]
fn put_user(alloc: Global, out: &mut Bytes, format: Format, user: &[u8]) -> Result<(), NoMemory>
    ensures { OnOk result (out.new ≡ out.old ++ user_end format user.now) }
{
    match format {
        Format::One => out.append(b"\n"),
        Format::Two => {
            out.append(b" ")?;
            put_text_end(alloc, out, decode_whole(alloc, user)?.as_slice())
        }
    }
}

#[tactic(auto, using(crate::proofs::Joined::joined), unfolding(crate::specs::Report::conn_line))]
pub(crate) fn put_conn(
    alloc: Global,
    out: &mut Bytes,
    format: Format,
    view: &ConnView,
) -> Result<(), NoMemory>
    ensures { OnOk result (out.new ≡ out.old ++ conn_line format view.now) }
{
    put_around(alloc, out, b"connection ", u64::from(view.conn), b" ")?;
    put_state(alloc, out, view.ending)?;
    put_user(alloc, out, format, view.user.as_slice())?;
    Ok(())
}

fn modified_word(modified: bool) -> &'static [u8]
    ensures { result.now ≡ modified_word modified }
{
    if modified { b"1 " } else { b"0 " }
}

#[tactic(auto, using(crate::proofs::Joined::joined), unfolding(crate::specs::Report::dot_words))]
fn put_dot(alloc: Global, out: &mut Bytes, dot: Range) -> Result<(), NoMemory>
    ensures { OnOk result (out.new ≡ out.old ++ dot_words dot) }
{
    put_around(alloc, out, b"", dot.q0 as u64, b" ")?;
    put_around(alloc, out, b"", dot.q1 as u64, b" ")?;
    Ok(())
}

#[tactic(auto, using(crate::proofs::Joined::joined), unfolding(crate::specs::Report::window_line))]
fn put_window_line(alloc: Global, out: &mut Bytes, view: &WindowView) -> Result<(), NoMemory>
    ensures { OnOk result (out.new ≡ out.old ++ window_line view.now) }
{
    put_around(alloc, out, b"window ", u64::from(view.id), b" ")?;
    out.append(modified_word(view.modified))?;
    put_dot(alloc, out, view.dot)?;
    put_text_end(alloc, out, view.name.as_slice())?;
    Ok(())
}

#[tactic(auto, using(crate::proofs::Joined::joined), unfolding(crate::specs::Report::body_line))]
fn put_body_line(alloc: Global, out: &mut Bytes, view: &WindowView) -> Result<(), NoMemory>
    ensures { OnOk result (out.new ≡ out.old ++ body_line view.now) }
{
    out.append(b"body ")?;
    put_text_end(alloc, out, view.body.as_slice())?;
    Ok(())
}

#[tactic(auto, using(crate::proofs::Joined::joined))]
pub(crate) fn put_window(alloc: Global, out: &mut Bytes, view: &WindowView) -> Result<(), NoMemory>
    ensures { OnOk result (out.new ≡ out.old ++ window_lines view.now) }
{
    put_window_line(alloc, out, view)?;
    put_body_line(alloc, out, view)?;
    Ok(())
}

#[tactic(auto, unfolding(crate::specs::Report::title))]
pub(crate) fn put_title(out: &mut Bytes) -> Result<(), NoMemory>
    ensures { OnOk result (out.new ≡ out.old ++ title) }
{
    out.append(b"report\n")
}

#[tactic(auto, using(crate::proofs::Joined::joined))]
fn put_last(alloc: Global, out: &mut Bytes, before: &[u8], n: u64) -> Result<(), NoMemory>
    ensures { OnOk result (out.new ≡ out.old ++ (before.now ++ decimal n)) }
{
    out.append(before)?;
    out.append(decimal(alloc, n)?.as_slice())?;
    Ok(())
}

#[tactic(auto, using(crate::proofs::Joined::joined), unfolding(crate::specs::Report::taken_words))]
fn put_taken(alloc: Global, out: &mut Bytes, opening: u32, at: u64) -> Result<(), NoMemory>
    ensures { OnOk result (out.new ≡ out.old ++ taken_words opening at) }
{
    put_around(alloc, out, b"taken ", u64::from(opening), b" ")?;
    put_last(alloc, out, b"", at)
}

#[tactic(auto, using(crate::proofs::Joined::joined), unfolding(crate::specs::Report::spent_words))]
fn put_spent(
    alloc: Global,
    out: &mut Bytes,
    name: &[u8],
    opening: u32,
    at: u64,
    end: u64,
) -> Result<(), NoMemory>
    ensures { OnOk result (out.new ≡ out.old ++ spent_words name.now opening at end) }
{
    put_around(alloc, out, name, u64::from(opening), b" ")?;
    put_around(alloc, out, b"", at, b" ")?;
    put_last(alloc, out, b"", end)
}

#[tactic(auto, using(crate::proofs::Joined::joined), unfolding(crate::specs::Report::life_words))]
fn put_life(alloc: Global, out: &mut Bytes, life: Life) -> Result<(), NoMemory>
    ensures { OnOk result (out.new ≡ out.old ++ life_words life) }
{
    match life {
        Life::Pending => out.append(b"pending"),
        Life::Taken { opening, at } => put_taken(alloc, out, opening, at),
        Life::Back { opening, at, back } => put_spent(alloc, out, b"back ", opening, at, back),
        Life::Dropped { at } => put_last(alloc, out, b"dropped ", at),
    }
}

#[tactic(auto, using(crate::proofs::Joined::joined), unfolding(crate::specs::Report::item_line))]
pub(crate) fn put_item(alloc: Global, out: &mut Bytes, view: &ItemView) -> Result<(), NoMemory>
    ensures { OnOk result (out.new ≡ out.old ++ item_line view.now) }
{
    put_around(alloc, out, b"item ", u64::from(view.window), b" ")?;
    put_around(alloc, out, b"", view.number, b" ")?;
    put_life(alloc, out, view.life)?;
    out.append(b" ")?;
    let spelling = decode_whole(alloc, view.spelled.as_slice())?;
    put_text_end(alloc, out, spelling.as_slice())?;
    Ok(())
}

fn good_word(good: bool) -> &'static [u8]
    ensures { result.now ≡ good_word good }
{
    if good { b" ok" } else { b" fail" }
}

#[tactic(auto, using(crate::proofs::Joined::joined), unfolding(crate::specs::Report::state_words))]
fn put_job_life(alloc: Global, out: &mut Bytes, life: JobLife) -> Result<(), NoMemory>
    ensures { OnOk result (out.new ≡ out.old ++ state_words life) }
{
    match life {
        JobLife::Waiting => out.append(b"waiting"),
        JobLife::Taken { opening, at } => put_taken(alloc, out, opening, at),
        JobLife::Answered {
            opening,
            at,
            answer,
            good,
        } => {
            put_spent(alloc, out, b"answered ", opening, at, answer)?;
            out.append(good_word(good))
        }
        JobLife::Lost { opening, at, close } => put_spent(alloc, out, b"lost ", opening, at, close),
    }
}

#[tactic(auto, using(crate::proofs::Joined::joined), unfolding(crate::specs::Report::state_line))]
pub(crate) fn put_state_line(
    alloc: Global,
    out: &mut Bytes,
    format: Format,
    life: JobLife,
) -> Result<(), NoMemory>
    ensures { OnOk result (out.new ≡ out.old ++ state_line format life) }
{
    match format {
        Format::One => Ok(()),
        Format::Two => {
            out.append(b"state ")?;
            put_job_life(alloc, out, life)?;
            out.append(b"\n")
        }
    }
}
