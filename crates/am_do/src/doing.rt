//! All lines.

ghost use Rattle.std.specs.Prelude.{◌≡◌, ◌≤◌, OnOk};
ghost use Rattle.am_base.specs.Seen.{seen};
ghost use Rattle.ninep_types.specs.Spelling.{IsString};
ghost use Rattle.ninep_client.specs.Asking.{begun};
ghost use Rattle.am_do.specs.Lawful.{AreLawful};
ghost use Rattle.am_do.specs.Talks.{lines_told, told_of};
ghost use Rattle.am_do.specs.Written.{Put, Comes};
ghost use Rattle.am_do.specs.Went.{IsReady, ends};

use crate::DoLines;
use crate::beginning::begin;
use crate::opening::do_line;
use crate::stop::Stop;
use am_base::{Sink, Source, write_all};
use ninep_client::Client;
use std::alloc::Global;

/// Why a talk has stopped, if it has, and whether the output has failed.
#[derive(Drop)]
pub struct Done {
    pub stop: Option<Stop>,
    pub failed: bool,
}

// Writes a text, unless the output has failed before, and answers whether it has failed by now.
fn put<O: Sink>(output: &mut O, failed: bool, text: &[u8]) -> bool
    ensures { Put failed result
        (seen (O.told output.old) (O.told output.new)) text.now }
{
    if failed {
        return true;
    }
    match write_all(output, text) {
        Ok(()) => false,
        Err(_) => true,
    }
}

// Does the lines, once the tree is attached.
fn do_all<R: Source, W: Sink, O: Sink>(
    alloc: Global,
    client: &mut Client<R, W>,
    lines: DoLines,
    output: &mut O,
) -> Done
    requires ready { IsReady client.old.talk }
    requires lawful { AreLawful lines }
    ensures comes { Comes result.stop (lines_told client.old.talk.msize lines) client.old.talk
        (ends (W.told client.old.sink) (W.told client.new.sink)
        (R.told client.old.source) (R.told client.new.source))
        result.failed (seen (O.told output.old) (O.told output.new)) }
    ensures later_sink { (W.told client.old.sink).faults ≤ (W.told client.new.sink).faults }
    ensures later_source { (R.told client.old.source).faults ≤ (R.told client.new.source).faults }
{
    let mut failed = false;
    for line in lines.into_vec() {
        match do_line(alloc, client, line) {
            Ok(text) => failed = put(output, failed, text.as_slice()),
            Err(stop) => return Done {
                stop: Some(stop),
                failed,
            },
        }
    }
    Done { stop: None, failed }
}

/// Agrees on the version with a server, attaches a tree, does the lines in order, and writes the answer to each. A
/// failing output doesn't end the lines.
///
/// What is sent is a function of the tree, the lines and the replies (`told_of`), and so is what is written.
pub fn do_lines<R: Source, W: Sink, O: Sink>(
    alloc: Global,
    client: &mut Client<R, W>,
    tree: &[u8],
    lines: DoLines,
    output: &mut O,
) -> Done
    requires begun { client.old.talk ≡ begun }
    requires tree { IsString tree.now }
    requires lawful { AreLawful lines }
    ensures comes { Comes result.stop (told_of tree.now lines) client.old.talk
        (ends (W.told client.old.sink) (W.told client.new.sink)
        (R.told client.old.source) (R.told client.new.source))
        result.failed (seen (O.told output.old) (O.told output.new)) }
{
    match begin(alloc, client, tree) {
        Ok(()) => do_all(alloc, client, lines, output),
        Err(stop) => Done {
            stop: Some(stop),
            failed: false,
        },
    }
}
