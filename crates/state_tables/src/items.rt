//! Items of a book: how they are read.

use crate::call::{Call, cut, text_of};
use crate::fault::Fault;
use am_text::{Range, Runes};
use std::alloc::Global;
use win_events::{Item, Origin, Sort};

/// An item, and the window that it is put into.
#[derive(Drop)]
pub struct Put {
    pub window: u32,
    pub item: Item,
}

fn range(q0: u32, q1: u32) -> Range {
    Range {
        q0: q0 as usize,
        q1: q1 as usize,
    }
}

// An insertion into the body by the keyboard.
fn key(alloc: Global, numbers: &[u32], field: &str) -> Result<Put, Fault> {
    let [window, q0] = numbers else {
        return Err(Fault::NoCase);
    };
    let text = text_of(alloc, field)?;
    let q0 = *q0 as usize;
    let item = Item {
        origin: Origin::K,
        sort: Sort::BodyIns,
        range: Range {
            q0,
            q1: q0.saturating_add(text.len()),
        },
        flag: 0,
        text,
        expanded: None,
        argument: None,
    };
    Ok(Put {
        window: *window,
        item,
    })
}

fn click(range: Range, flag: u32, text: Runes) -> Item {
    Item {
        origin: Origin::M,
        sort: Sort::BodyExec,
        range,
        flag,
        text,
        expanded: None,
        argument: None,
    }
}

// A click of the mouse in the body, expanded to a range with a text.
fn expanded(alloc: Global, numbers: &[u32], field: &str) -> Result<Put, Fault> {
    let [window, q0, q1, flag, from, to] = numbers else {
        return Err(Fault::NoCase);
    };
    let mut item = click(range(*q0, *q1), *flag, Runes::new(alloc));
    item.expanded = Some((range(*from, *to), text_of(alloc, field)?));
    Ok(Put {
        window: *window,
        item,
    })
}

// A click of the mouse on a text, with an argument and its place.
fn chord(alloc: Global, numbers: &[u32], fields: &str) -> Result<Put, Fault> {
    let [window, q0, q1, flag] = numbers else {
        return Err(Fault::NoCase);
    };
    let (text, fields) = cut(fields);
    let (argument, place) = cut(fields);
    let mut item = click(range(*q0, *q1), *flag, text_of(alloc, text)?);
    item.argument = Some((text_of(alloc, argument)?, text_of(alloc, place)?));
    Ok(Put {
        window: *window,
        item,
    })
}

/// The item of a call, and its window.
pub fn read_put(alloc: Global, call: &Call<'_>) -> Result<Put, Fault> {
    let numbers = call.numbers.as_slice();
    match call.name {
        "key" => key(alloc, numbers, call.texts),
        "click" => expanded(alloc, numbers, call.texts),
        "chord" => chord(alloc, numbers, call.texts),
        _ => Err(Fault::NoCase),
    }
}
