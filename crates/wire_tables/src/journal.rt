//! Cases of am_journal.
//!
//! | line | answer |
//! |---|---|
//! | `line` BYTES | the line of the event that is spelled so, escaped, or `none` |
//! | `report` | a report with an event that was written back and two requests, escaped |

use crate::fault::Fault;
use crate::fields::{in_one_line, line};
use am_journal::{
    Format, ItemView, ItemViews, Job, JobKind, Jobs, Life, View, read_line, report, write_line,
};
use am_text::{Bytes, Items, NoMemory, Rune};
use std::alloc::Global;

// Directory, command and input of two requests: nothing, `a` and `b` in two lines, `x \`; `/\`, `m`, nothing.
const PIPE: [&[Rune]; 3] = [&[], &[97, 10, 98], &[120, 32, 92]];

const START: [&[Rune]; 3] = [&[47, 92], &[109], &[]];

pub fn event(alloc: Global, bytes: &[u8]) -> Result<Bytes, Fault> {
    match read_line(alloc, bytes)? {
        Some(event) => in_one_line(alloc, write_line(alloc, &event)?.as_slice()),
        None => Ok(line(format!(in alloc; "none")?)),
    }
}

fn items(alloc: Global) -> Result<ItemViews, NoMemory> {
    let mut items = Items::new(alloc);
    items.push(ItemView {
        window: 1,
        number: 2,
        life: Life::Back {
            opening: 3,
            at: 19,
            back: 20,
        },
        spelled: Items::copied(alloc, b"MX4 5 0 1 \xC3\xA9\n")?,
    })?;
    Ok(items)
}

fn request(
    alloc: Global,
    kind: JobKind,
    window: u32,
    texts: [&[Rune]; 3],
) -> Result<Job, NoMemory> {
    let [dir, command, input] = texts;
    Ok(Job {
        kind,
        window,
        dir: Items::copied(alloc, dir)?,
        command: Items::copied(alloc, command)?,
        input: Items::copied(alloc, input)?,
    })
}

// A request of a window without a directory, and one of the plumber.
fn requests(alloc: Global) -> Result<Jobs, NoMemory> {
    let mut jobs = Items::new(alloc);
    jobs.push(request(alloc, JobKind::Pipe, 12, PIPE)?)?;
    jobs.push(request(alloc, JobKind::Start, 0, START)?)?;
    Ok(jobs)
}

pub fn small_report(alloc: Global) -> Result<Bytes, Fault> {
    let view = View {
        format: Format::One,
        entries: 8,
        conns: Items::new(alloc),
        windows: Items::new(alloc),
        items: items(alloc)?,
        jobs: requests(alloc)?,
        lives: Items::new(alloc),
    };
    in_one_line(alloc, report(alloc, &view)?.as_slice())
}
