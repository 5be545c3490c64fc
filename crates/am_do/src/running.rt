//! What `do` does, from its input to its end.

ghost use Rattle.std.specs.Prelude.{◌≡◌, ◌≢◌, None, Some, false, MatchOption};
ghost use Rattle.am_base.specs.Outside.{untold};
ghost use Rattle.am_base.specs.Seen.{given, host_seen, seen};
ghost use Rattle.ninep_types.specs.Spelling.{IsString};
ghost use Rattle.am_do.specs.Ends.{Says, Reads, Dials, IsGivenAt, TalksOver, Refuses, end_at, peer};
ghost use Rattle.am_do.specs.declared.running.DoEnd.TheVariants as end;
ghost use Rattle.am_do.specs.Lines.{lines_from};
ghost use Rattle.am_do.specs.Lawful.{AreLawful};
ghost use Rattle.am_text.specs.Lines.{lines_of};

use crate::doing::{Done, do_lines};
use crate::stop::Stop;
use crate::{DoLines, LinesFault, read_do_lines};
use am_base::{Gate, Host, INPUT_LIMIT, Link, ReadStop, Sink, Source, read_to_end, write_all};
use am_journal::refused_line;
use am_text::NoMemory;
use ninep_client::{CallFault, Client};
use std::alloc::Global;

/// How `do` ends. Each has an exit status.
#[derive(Clone, Copy, Debug, PartialEq, Eq)]
pub enum DoEnd {
    /// All lines were done, and all was written.
    Done,
    /// A line, or the whole input, is refused.
    Script,
    /// The input could not be read.
    ReadFault,
    /// The socket could not be connected to, or gave no halves.
    HostFault,
    /// The talk has stopped.
    Talk,
    /// Memory ran out.
    NoMemory,
    /// The output could not be written.
    WriteFault,
}

/// What came of `do`: how it ended, the objects that it talked over, and why the talk has stopped, if it has.
#[derive(Drop)]
pub struct Doing<L, S, K> {
    pub end: DoEnd,
    pub link: Option<L>,
    pub reader: Option<S>,
    pub writer: Option<K>,
    pub stop: Option<Stop>,
}

/// What came of `do` over a host.
pub type HostDoing<H> = Doing<
    <<H as Host>::G as Gate>::L,
    <<<H as Host>::G as Gate>::L as Link>::R,
    <<<H as Host>::G as Gate>::L as Link>::W,
>;

// Nothing was talked over.
fn idle<L, S, K>(end: DoEnd, link: Option<L>) -> Doing<L, S, K>
    ensures { result ≡ record { end = end; link = link; reader = None; writer = None; stop = None } }
{
    Doing {
        end,
        link,
        reader: None,
        writer: None,
        stop: None,
    }
}

fn end_at(stop: &Option<Stop>, failed: bool) -> DoEnd
    ensures { result ≡ end_at stop.now failed }
{
    match stop {
        None => {
            if failed {
                DoEnd::WriteFault
            } else {
                DoEnd::Done
            }
        }
        Some(Stop::Fault(CallFault::NoMemory)) => DoEnd::NoMemory,
        Some(_) => DoEnd::Talk,
    }
}

// Talks over a link.
fn talk<O: Sink, L: Link>(
    alloc: Global,
    link: L,
    tree: &[u8],
    lines: DoLines,
    output: &mut O,
) -> Doing<L, L::R, L::W>
    requires fresh { ((L.told link).faults ≡ 0) × ((L.told link).is_halved ≡ false) }
    requires tree { IsString tree.now }
    requires lawful { AreLawful lines }
    ensures talks { TalksOver (peer L.told L.R.told L.W.told) tree.now lines
        (seen (O.told output.old) (O.told output.new)) result }
    ensures link { MatchOption result.link ⊥ (λ now. (L.told now).dialled ≡ (L.told link).dialled) }
{
    let mut link = link;
    match link.halves() {
        Ok((source, sink)) => {
            let mut client = Client::new(alloc, source, sink);
            let Done { stop, failed } = do_lines(alloc, &mut client, tree, lines, output);
            let (reader, writer) = client.parts();
            Doing {
                end: end_at(&stop, failed),
                link: Some(link),
                reader: Some(reader),
                writer: Some(writer),
                stop,
            }
        }
        Err(_) => idle(DoEnd::HostFault, Some(link)),
    }
}

// Does lines that were read.
fn dial_and_talk<O: Sink, H: Host>(
    alloc: Global,
    path: &str,
    tree: &[u8],
    lines: DoLines,
    output: &mut O,
    host: &mut H,
) -> HostDoing<H>
    requires tree { IsString tree.now }
    requires lawful { AreLawful lines }
    ensures dials { Dials (peer H.G.L.told H.G.L.R.told H.G.L.W.told) tree.now lines
        (given untold untold (H.told host.old) (H.told host.new)) (seen (O.told output.old) (O.told output.new)) result }
    ensures untouched { result.link ≡ None → result.end ≢ end.HostFault → host.new ≡ host.old }
    ensures given { IsGivenAt (peer H.G.L.told H.G.L.R.told H.G.L.W.told) path.now
        (host_seen (H.told host.old) (H.told host.new)) result.link }
{
    match host.dial(path) {
        Ok(link) => talk(alloc, link, tree, lines, output),
        Err(_) => idle(DoEnd::HostFault, None),
    }
}

// Refuses a line, or the whole input.
fn refuse<O: Sink, L, S, K>(alloc: Global, line: u64, word: &[u8], output: &mut O) -> Doing<L, S, K>
    ensures refuses { Refuses line word.now (seen (O.told output.old) (O.told output.new)) result }
    ensures unlinked { result.link ≡ None }
{
    match refused_line(alloc, line, word) {
        Ok(text) => {
            let _written = write_all(output, text.as_slice());
            idle(DoEnd::Script, None)
        }
        Err(NoMemory) => idle(DoEnd::NoMemory, None),
    }
}

// Does an input of lawful length.
fn do_input<O: Sink, H: Host>(
    alloc: Global,
    path: &str,
    tree: &[u8],
    input: &[u8],
    output: &mut O,
    host: &mut H,
) -> HostDoing<H>
    requires tree { IsString tree.now }
    ensures reads { Reads (peer H.G.L.told H.G.L.R.told H.G.L.W.told) tree.now (lines_from 1 (lines_of input.now))
        (given untold untold (H.told host.old) (H.told host.new)) (seen (O.told output.old) (O.told output.new)) result }
    ensures untouched { result.link ≡ None → result.end ≢ end.HostFault → host.new ≡ host.old }
    ensures given { IsGivenAt (peer H.G.L.told H.G.L.R.told H.G.L.W.told) path.now
        (host_seen (H.told host.old) (H.told host.new)) result.link }
{
    match read_do_lines(alloc, input) {
        Ok(lines) => dial_and_talk(alloc, path, tree, lines, output, host),
        Err(LinesFault::Line(k)) => refuse(alloc, k, b"line", output),
        Err(LinesFault::NoMemory) => idle(DoEnd::NoMemory, None),
    }
}

/// Reads lines to the end of the input, connects to a path, attaches a tree, does the lines in order, and writes the
/// answer to each. All lines are checked before anything is dialled.
pub fn do_path<I: Source, O: Sink, H: Host>(
    alloc: Global,
    path: &str,
    tree: &[u8],
    input: &mut I,
    output: &mut O,
    host: &mut H,
) -> HostDoing<H>
    requires tree { IsString tree.now }
    ensures says { Says (peer H.G.L.told H.G.L.R.told H.G.L.W.told) tree.now
        (given (I.told input.old) (I.told input.new) (H.told host.old) (H.told host.new)) (seen (O.told output.old) (O.told output.new)) result }
    // The host is asked for nothing before all lines are checked.
    ensures untouched { result.link ≡ None → result.end ≢ end.HostFault → host.new ≡ host.old }
    // It gave one link, which was dialled at the path, or none.
    ensures given { IsGivenAt (peer H.G.L.told H.G.L.R.told H.G.L.W.told) path.now
        (host_seen (H.told host.old) (H.told host.new)) result.link }
{
    match read_to_end(alloc, input, INPUT_LIMIT) {
        Ok(bytes) => do_input(alloc, path, tree, bytes.as_slice(), output, host),
        Err(ReadStop::TooLong) => refuse(alloc, 0, b"input", output),
        Err(ReadStop::ReadFault) => idle(DoEnd::ReadFault, None),
        Err(ReadStop::NoMemory) => idle(DoEnd::NoMemory, None),
    }
}
