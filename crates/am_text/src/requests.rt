//! The two lines of a request.

ghost use Rattle.std.specs.Prelude.{◌≡◌, ◌++◌, OnOk};
ghost use Rattle.am_text.specs.Requests.{kind_word, request_line, input_line, request_lines};

use crate::fields::{put_around, put_text_end};
use crate::items::Bytes;
use crate::job::{Job, JobKind};
use crate::line::escape;
use crate::memory::NoMemory;
use std::alloc::Global;

fn kind_word(kind: JobKind) -> &'static [u8]
    ensures { result.now ≡ kind_word kind }
{
    match kind {
        JobKind::Run => b"run",
        JobKind::Pipe => b"pipe",
        JobKind::From => b"from",
        JobKind::To => b"to",
        JobKind::Save => b"save",
        JobKind::Start => b"start",
    }
}

#[tactic(auto, using(crate::proofs::Joined::words), unfolding(crate::specs::Requests::request_line))]
fn put_request_line(alloc: Global, out: &mut Bytes, k: u64, job: &Job) -> Result<(), NoMemory>
    ensures { OnOk result (out.new ≡ out.old ++ request_line k job.now) }
{
    put_around(alloc, out, b"request ", k, b" ")?;
    out.append(kind_word(job.kind))?;
    put_around(alloc, out, b" ", u64::from(job.window), b" ")?;
    out.append(escape(alloc, job.dir.as_slice())?.as_slice())?;
    out.append(b" ")?;
    put_text_end(alloc, out, job.command.as_slice())?;
    Ok(())
}

#[tactic(auto, using(crate::proofs::Joined::words), unfolding(crate::specs::Requests::input_line))]
fn put_input_line(alloc: Global, out: &mut Bytes, job: &Job) -> Result<(), NoMemory>
    ensures { OnOk result (out.new ≡ out.old ++ input_line job.now) }
{
    out.append(b"input ")?;
    put_text_end(alloc, out, job.input.as_slice())?;
    Ok(())
}

/// Puts the two lines of a request with this number at the end, as reports and the file `jobs` have them.
#[tactic(auto, using(crate::proofs::Joined::words))]
pub fn put_request_lines(alloc: Global, out: &mut Bytes, k: u64, job: &Job) -> Result<(), NoMemory>
    ensures { OnOk result (out.new ≡ out.old ++ request_lines k job.now) }
{
    put_request_line(alloc, out, k, job)?;
    put_input_line(alloc, out, job)?;
    Ok(())
}
