//! The tables. A line is a table's word, a call and its fields, with one tab before each: first the numbers, with a
//! comma between them, and then the texts. What is missing at the end is empty. Texts are escaped: a newline as `\n`, a
//! backslash as `\\`. What a table's calls change lives on from line to line, until a line `new`, with which all tables
//! begin afresh. The modules of the tables say which calls there are.
//!
//! | in a table | is |
//! |---|---|
//! | ASKER | the numbers of a read: its connection, its tag, its opening and its count |
//! | EDITS | the fields of edits or changes, each `Q0,Q1,TEXT` |
//!
//! | answer | is |
//! |---|---|
//! | `gets "`PIECE`"` | a read is given this now |
//! | `waits` | a read isn't answered yet |
//! | `none`, `yes`, `no`, `ok` | there is none; it is so; it isn't; it is done |

use crate::answers::says;
use crate::call::{Call, read_call};
use crate::fault::Fault;
use crate::stores::Stores;
use crate::{body, book, log, ports, queue, stores};
use am_text::{Bytes, NoMemory};
use edit_log::UndoLog;
use event_book::Book;
use plumb_ports::Ports;
use std::alloc::Global;
use wait_queue::WaitQueue;
use win_text::Body;

/// The value of each table.
#[derive(Drop)]
pub struct Tables {
    body: Body,
    log: UndoLog,
    queue: WaitQueue,
    book: Book,
    ports: Ports,
    stores: Stores,
}

impl Tables {
    /// The value with which each table begins.
    pub fn new(alloc: Global) -> Result<Tables, NoMemory> {
        let ports = Ports::new(alloc)?;
        Ok(Tables {
            body: Body::new(alloc),
            log: UndoLog::new(alloc),
            queue: WaitQueue::new(alloc),
            book: Book::new(alloc),
            ports,
            stores: Stores::new(alloc),
        })
    }
}

fn called(
    alloc: Global,
    tables: &mut Tables,
    table: &str,
    call: &Call<'_>,
) -> Result<Bytes, Fault> {
    match table {
        "body" => body::answer(alloc, &mut tables.body, call),
        "log" => log::answer(alloc, &mut tables.log, call),
        "queue" => queue::answer(alloc, &mut tables.queue, call),
        "book" => book::answer(alloc, &mut tables.book, call),
        "ports" => ports::answer(alloc, &mut tables.ports, call),
        "stores" => stores::answer(alloc, &mut tables.stores, call),
        _ => Err(Fault::NoCase),
    }
}

fn begin(alloc: Global, tables: &mut Tables) -> Result<Bytes, Fault> {
    *tables = Tables::new(alloc)?;
    says(alloc, "ok")
}

/// The answer to a line, without its newline.
pub fn answer(alloc: Global, tables: &mut Tables, line: &str) -> Result<Bytes, Fault> {
    if line == "new" {
        return begin(alloc, tables);
    }
    let (table, call) = read_call(alloc, line)?;
    called(alloc, tables, table, &call)
}
