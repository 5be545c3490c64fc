//! The items of all windows with their lives, the openings of event files, and the reads that wait. AT is the number of
//! the entry at which a call is made.
//!
//! | call | numbers | texts | answer |
//! |---|---|---|---|
//! | `add` | a window | | the number of the opening |
//! | `key` | the window and a place | the text that is typed there | the number of the item |
//! | `click` | the window, the range, the flag, and the range of the expansion | its text | the number of the item |
//! | `chord` | the window, the range and the flag | its text, the argument and its place | the number of the item |
//! | `ask` | ASKER, AT | | `gets "`PIECE`"` or `waits` |
//! | `serve` | AT | | ASKER `gets "`PIECE`"`, or `none` |
//! | `find` | the window | a message that is written back | the number of the item, `already` or `no such` |
//! | `item`, `taken` | the window and a number | | whether there is such an item; whether it was taken and not written
//! back |
//! | `open`, `living` | a window; an opening | | `yes` or `no` |
//! | `openings`, `latest` | | | the number |
//! | `ledger`, `kept` | | | a field for each item: its window, its number, its life and its messages; or `none` |
//! | `keep`, `back` | | | `ok` |
//! | `written` | the window, the number of the item, AT | | `ok` |
//! | `cancel` | a connection and a tag | | whether the read waited |
//! | `leave` | the opening, AT | | `ok` |
//! | `delete` | the window, AT | | `ok` |
//!
//! The last four keep the state before.

ghost use Rattle.am_text.specs.Twice.{IsSteady};

use crate::answers::{asked_line, put_text, says, says_whether, served_line};
use crate::call::{Call, asker_of, bytes_of, one_of, tag_of, two_of};
use crate::fault::Fault;
use crate::items::{Put, read_put};
use am_text::{Bytes, decimal};
use event_book::{BackFault, Book, ItemView, ItemViews};
use std::alloc::Global;
use wait_queue::{Asker, MAX_OPENINGS};
use win_events::{BackMsg, read_back};

fn add(alloc: Global, book: &mut Book, numbers: &[u32]) -> Result<Bytes, Fault> {
    let window = one_of(numbers)?;
    if book.openings() >= MAX_OPENINGS {
        return Err(Fault::NoCase);
    }
    let opening = book.add_opening(window)?;
    Ok(decimal(alloc, opening.into())?)
}

fn put(alloc: Global, book: &mut Book, call: &Call<'_>) -> Result<Bytes, Fault> {
    let Put { window, item } = read_put(alloc, call)?;
    if !book.is_open(window) {
        return Err(Fault::NoCase);
    }
    let number = book.put(window, item)?;
    Ok(decimal(alloc, number)?)
}

fn asked(alloc: Global, book: &mut Book, asker: Asker, at: u64) -> Result<Bytes, Fault> {
    if !book.is_living(asker.opening) || book.latest() > at {
        return Err(Fault::NoCase);
    }
    asked_line(alloc, &book.ask(asker, at)?)
}

fn ask(alloc: Global, book: &mut Book, numbers: &[u32]) -> Result<Bytes, Fault> {
    let [asker @ .., at] = numbers else {
        return Err(Fault::NoCase);
    };
    asked(alloc, book, asker_of(asker)?, u64::from(*at))
}

fn serve(alloc: Global, book: &mut Book, numbers: &[u32]) -> Result<Bytes, Fault> {
    let at = u64::from(one_of(numbers)?);
    if book.latest() > at {
        return Err(Fault::NoCase);
    }
    served_line(alloc, book.serve(at)?)
}

fn found(alloc: Global, answer: Result<u64, BackFault>) -> Result<Bytes, Fault> {
    match answer {
        Ok(number) => Ok(decimal(alloc, number)?),
        Err(BackFault::Already) => says(alloc, "already"),
        Err(BackFault::NoSuch) => says(alloc, "no such"),
    }
}

fn message_of(alloc: Global, field: &str) -> Result<BackMsg, Fault> {
    match read_back(bytes_of(alloc, field)?.as_slice()) {
        Some(message) => Ok(message),
        None => Err(Fault::NoCase),
    }
}

fn find(alloc: Global, book: &Book, call: &Call<'_>) -> Result<Bytes, Fault> {
    let window = one_of(call.numbers.as_slice())?;
    found(alloc, book.find(window, &message_of(alloc, call.texts)?))
}

fn item(alloc: Global, book: &Book, numbers: &[u32]) -> Result<Bytes, Fault> {
    let (window, number) = two_of(numbers)?;
    says_whether(alloc, book.item(window, number.into()).is_some())
}

fn taken(alloc: Global, book: &Book, numbers: &[u32]) -> Result<Bytes, Fault> {
    let (window, number) = two_of(numbers)?;
    says_whether(alloc, book.is_taken(window, number.into()))
}

fn put_view(alloc: Global, line: &mut Bytes, view: &ItemView) -> Result<(), Fault> {
    let front = format!(in alloc; "{} {} {:?} ", view.window, view.number, view.life)?;
    line.append(front.as_bytes())?;
    put_text(alloc, line, view.spelled.as_slice())
}

fn views_line(alloc: Global, views: &ItemViews) -> Result<Bytes, Fault> {
    if views.is_empty() {
        return says(alloc, "none");
    }
    let mut line = Bytes::new(alloc);
    for view in views.as_slice() {
        if !line.is_empty() {
            line.append(b"\t")?;
        }
        put_view(alloc, &mut line, view)?;
    }
    Ok(line)
}

fn ledger(alloc: Global, book: &Book) -> Result<Bytes, Fault> {
    let views = book.ledger()?;
    views_line(alloc, &views)
}

fn kept_ledger(alloc: Global, book: &Book) -> Result<Bytes, Fault> {
    let views = book.kept_ledger()?;
    views_line(alloc, &views)
}

fn written(alloc: Global, book: &mut Book, numbers: &[u32]) -> Result<Bytes, Fault>
    requires { IsSteady book.old }
{
    let [window, number, at] = numbers else {
        return Err(Fault::NoCase);
    };
    let (number, at) = (u64::from(*number), u64::from(*at));
    if !book.is_taken(*window, number) || book.latest() > at {
        return Err(Fault::NoCase);
    }
    book.written(*window, number, at);
    says(alloc, "ok")
}

fn cancel(alloc: Global, book: &mut Book, numbers: &[u32]) -> Result<Bytes, Fault>
    requires { IsSteady book.old }
{
    let (conn, tag) = two_of(numbers)?;
    let tag = tag_of(tag)?;
    says_whether(alloc, book.cancel(conn, tag))
}

fn leave(alloc: Global, book: &mut Book, numbers: &[u32]) -> Result<Bytes, Fault>
    requires { IsSteady book.old }
{
    let (opening, at) = two_of(numbers)?;
    let at = u64::from(at);
    if !book.is_living(opening) || book.latest() > at {
        return Err(Fault::NoCase);
    }
    book.leave(opening, at);
    says(alloc, "ok")
}

fn delete(alloc: Global, book: &mut Book, numbers: &[u32]) -> Result<Bytes, Fault>
    requires { IsSteady book.old }
{
    let (window, at) = two_of(numbers)?;
    let at = u64::from(at);
    if book.latest() > at {
        return Err(Fault::NoCase);
    }
    book.delete(window, at);
    says(alloc, "ok")
}

// The calls that keep the state.
fn keep(alloc: Global, book: &mut Book, call: &Call<'_>) -> Result<Bytes, Fault> {
    book.keep();
    let numbers = call.numbers.as_slice();
    match call.name {
        "keep" => says(alloc, "ok"),
        "written" => written(alloc, book, numbers),
        "cancel" => cancel(alloc, book, numbers),
        "leave" => leave(alloc, book, numbers),
        "delete" => delete(alloc, book, numbers),
        _ => Err(Fault::NoCase),
    }
}

fn back(alloc: Global, book: &mut Book) -> Result<Bytes, Fault> {
    book.back();
    says(alloc, "ok")
}

// The calls that change nothing.
fn look(alloc: Global, book: &Book, call: &Call<'_>) -> Result<Bytes, Fault> {
    let numbers = call.numbers.as_slice();
    match call.name {
        "find" => find(alloc, book, call),
        "item" => item(alloc, book, numbers),
        "taken" => taken(alloc, book, numbers),
        "open" => says_whether(alloc, book.is_open(one_of(numbers)?)),
        "living" => says_whether(alloc, book.is_living(one_of(numbers)?)),
        "openings" => Ok(decimal(alloc, book.openings() as u64)?),
        "latest" => Ok(decimal(alloc, book.latest())?),
        "ledger" => ledger(alloc, book),
        "kept" => kept_ledger(alloc, book),
        _ => Err(Fault::NoCase),
    }
}

/// The answer to a call.
pub fn answer(alloc: Global, book: &mut Book, call: &Call<'_>) -> Result<Bytes, Fault> {
    let numbers = call.numbers.as_slice();
    match call.name {
        "add" => add(alloc, book, numbers),
        "key" | "click" | "chord" => put(alloc, book, call),
        "ask" => ask(alloc, book, numbers),
        "serve" => serve(alloc, book, numbers),
        "back" => back(alloc, book),
        "keep" | "written" | "cancel" | "leave" | "delete" => keep(alloc, book, call),
        _ => look(alloc, book, call),
    }
}
