//! What the editor keeps beside its windows and its files: the snarfed text, requests, and rules.
//!
//! | call | numbers | texts | answer |
//! |---|---|---|---|
//! | `snarf` | | the text | `ok` |
//! | `snarfed` | | | the text |
//! | `ask` | the window | the kind, the directory, the command, the input | the number of the request |
//! | `request` | its number | | its kind, window, directory, command and input, with one tab between, or `none` |
//! | `requests` | | | how many there are |
//! | `accept` | | the text of rules | `ok`; `bad` and a line; `nodes`; `too many` |
//! | `rules` | | | the accepted text |
//! | `sets` | | | how many sets there are, and how many variables |
//! | `room` | a count of bytes | | whether there is room for so many more |
//! | `forget` | | | `ok`, all rules being forgotten |
//! | `keep`, `back` | | | `ok` |

use crate::answers::{put_text, says, says_whether};
use crate::call::{Call, bytes_of, cut, one_of, text_of};
use crate::fault::Fault;
use am_text::{Bytes, Items, Job, JobKind, NoMemory, Runes, escape};
use core_stores::{Requests, RuleStore, Snarf};
use rule_syntax::RuleFault;
use std::alloc::Global;

/// The snarfed text, the requests and the rules.
#[derive(Drop)]
pub struct Stores {
    snarf: Snarf,
    requests: Requests,
    rules: RuleStore,
}

impl Stores {
    /// None of them.
    pub fn new(alloc: Global) -> Stores {
        Stores {
            snarf: Snarf::new(alloc),
            requests: Requests::new(alloc),
            rules: RuleStore::new(alloc),
        }
    }
}

fn counted(alloc: Global, count: usize) -> Result<Bytes, Fault> {
    let line = format!(in alloc; "{count}")?;
    Ok(Items::from_vec(line.into_bytes()))
}

// ---- snarfed text

fn snarf(alloc: Global, stores: &mut Stores, field: &str) -> Result<Bytes, Fault> {
    stores.snarf.put(text_of(alloc, field)?);
    says(alloc, "ok")
}

// ---- requests

fn kind_of(word: &str) -> Result<JobKind, Fault> {
    match word {
        "run" => Ok(JobKind::Run),
        "pipe" => Ok(JobKind::Pipe),
        "from" => Ok(JobKind::From),
        "to" => Ok(JobKind::To),
        "save" => Ok(JobKind::Save),
        "start" => Ok(JobKind::Start),
        _ => Err(Fault::NoCase),
    }
}

fn kind_word(kind: JobKind) -> &'static str {
    match kind {
        JobKind::Run => "run",
        JobKind::Pipe => "pipe",
        JobKind::From => "from",
        JobKind::To => "to",
        JobKind::Save => "save",
        JobKind::Start => "start",
    }
}

fn job_of(alloc: Global, window: u32, fields: &str) -> Result<Job, Fault> {
    let (kind, fields) = cut(fields);
    let (dir, fields) = cut(fields);
    let (command, input) = cut(fields);
    Ok(Job {
        kind: kind_of(kind)?,
        window,
        dir: text_of(alloc, dir)?,
        command: text_of(alloc, command)?,
        input: text_of(alloc, input)?,
    })
}

fn ask(alloc: Global, requests: &mut Requests, call: &Call<'_>) -> Result<Bytes, Fault> {
    let window = one_of(call.numbers.as_slice())?;
    requests.add(job_of(alloc, window, call.texts)?)?;
    counted(alloc, requests.len())
}

fn put_field(alloc: Global, line: &mut Bytes, text: &Runes) -> Result<(), NoMemory> {
    line.append(b"\t")?;
    line.append(escape(alloc, text.as_slice())?.as_slice())
}

fn job_line(alloc: Global, job: &Job) -> Result<Bytes, Fault> {
    let front = format!(in alloc; "{}\t{}", kind_word(job.kind), job.window)?;
    let mut line = Items::from_vec(front.into_bytes());
    put_field(alloc, &mut line, &job.dir)?;
    put_field(alloc, &mut line, &job.command)?;
    put_field(alloc, &mut line, &job.input)?;
    Ok(line)
}

fn request(alloc: Global, requests: &Requests, numbers: &[u32]) -> Result<Bytes, Fault> {
    match requests.get(one_of(numbers)? as usize) {
        Some(job) => job_line(alloc, job),
        None => says(alloc, "none"),
    }
}

// ---- rules

fn bad_line(alloc: Global, line: usize) -> Result<Bytes, Fault> {
    let line = format!(in alloc; "bad {line}")?;
    Ok(Items::from_vec(line.into_bytes()))
}

fn refused(alloc: Global, fault: RuleFault) -> Result<Bytes, Fault> {
    match fault {
        RuleFault::Bad(line) => bad_line(alloc, line),
        RuleFault::Nodes => says(alloc, "nodes"),
        RuleFault::NoMemory => Err(Fault::NoMemory),
    }
}

fn accept(alloc: Global, rules: &mut RuleStore, field: &str) -> Result<Bytes, Fault> {
    let text = bytes_of(alloc, field)?;
    let (sets, vars) = match rules.read(alloc, text.as_slice()) {
        Ok(read) => read,
        Err(fault) => return refused(alloc, fault),
    };
    if !rules.has_room(text.len()) {
        return says(alloc, "too many");
    }
    rules.add(sets, vars, text.as_slice())?;
    says(alloc, "ok")
}

fn text_line(alloc: Global, rules: &RuleStore) -> Result<Bytes, Fault> {
    let mut line = Bytes::new(alloc);
    put_text(alloc, &mut line, rules.text())?;
    Ok(line)
}

fn sets_line(alloc: Global, rules: &RuleStore) -> Result<Bytes, Fault> {
    let line = format!(in alloc; "{},{}", rules.sets().len(), rules.vars().len())?;
    Ok(Items::from_vec(line.into_bytes()))
}

fn forget(alloc: Global, rules: &mut RuleStore) -> Result<Bytes, Fault> {
    rules.clear();
    says(alloc, "ok")
}

// ---- both states

fn keep(alloc: Global, stores: &mut Stores) -> Result<Bytes, Fault> {
    stores.snarf.keep();
    stores.requests.keep();
    stores.rules.keep();
    says(alloc, "ok")
}

fn back(alloc: Global, stores: &mut Stores) -> Result<Bytes, Fault> {
    stores.snarf.back();
    stores.requests.back();
    stores.rules.back();
    says(alloc, "ok")
}

// The calls that change nothing.
fn look(alloc: Global, stores: &Stores, call: &Call<'_>) -> Result<Bytes, Fault> {
    let numbers = call.numbers.as_slice();
    match call.name {
        "snarfed" => Ok(escape(alloc, stores.snarf.text())?),
        "request" => request(alloc, &stores.requests, numbers),
        "requests" => counted(alloc, stores.requests.all().len()),
        "rules" => text_line(alloc, &stores.rules),
        "sets" => sets_line(alloc, &stores.rules),
        "room" => says_whether(alloc, stores.rules.has_room(one_of(numbers)? as usize)),
        _ => Err(Fault::NoCase),
    }
}

/// The answer to a call.
pub fn answer(alloc: Global, stores: &mut Stores, call: &Call<'_>) -> Result<Bytes, Fault> {
    match call.name {
        "snarf" => snarf(alloc, stores, call.texts),
        "ask" => ask(alloc, &mut stores.requests, call),
        "accept" => accept(alloc, &mut stores.rules, call.texts),
        "forget" => forget(alloc, &mut stores.rules),
        "keep" => keep(alloc, stores),
        "back" => back(alloc, stores),
        _ => look(alloc, stores, call),
    }
}
