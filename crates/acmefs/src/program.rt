//! All that the program does.

ghost use Rattle.std.specs.Prelude.{◌≡◌, None, []};
ghost use Rattle.am_base.specs.Seen.{given, seen};
ghost use Rattle.acmefs.specs.Top.{OfWords, run};
ghost use Rattle.am_words.specs.Words.{asks_do, asks_serve};
ghost use Rattle.core_laws.specs.Refusals.{RefusalsAreExact};
ghost use Rattle.event_laws.specs.Laws.{EventLaws};
ghost use Rattle.event_laws.specs.PortLaws.{PortLaws};
ghost use Rattle.am_slots.specs.Slots.{outside};

use crate::asked::do_asked;
use crate::outcome::Outcome;
use am_base::{Host, Sink, Source};
use am_text::Words;
use core_laws::refusals_follow_from_the_state;
use event_laws::{events_are_lawful, ports_are_lawful};
use std::alloc::Global;
use std::sync::Wait;
use std::thread::Threads;

/// Does all that the program does: what the words after its name ask for. The word `replay` alone asks for a replay of
/// the transcript that the input gives, `trace` alone for the same in words, and `pack` alone for packing a text in
/// words into a transcript. The words
/// `drill N` ask for a drill of N rounds, 1 to 100,000, which reads nothing. The words `serve PATH --clients N` ask for
/// serving one connection for each of N slots, at the gates that the host makes for the path, with the script that the
/// input gives beside them; the option may stand before the path, and may be one word, `--clients=N`. The words `do
/// PATH TREE` ask for doing the lines that the input gives over a connection to the path, the tree being `acme` or
/// `plumb`. Every other list of words is refused.
///
/// The status is 0 where all was done and written, 1 for other words, 2 where a line or the whole input is refused, 3
/// where the input failed, 4 where the output failed, 5 where a gate could not be bound or gave no connection, or a
/// path not be dialled, 6 where memory ran out, 7 where a server doesn't speak as it should or has ended before the
/// lines.
pub fn acmefs<I: Source, O: Sink, H: Host, R: Threads + Wait + Sync>(
    rt: &R,
    alloc: Global,
    words: &Words,
    input: &mut I,
    output: &mut O,
    host: &mut H,
) -> Outcome<H>
    // What the words ask for is done as its record says, and what statuses 1, 3 and 4 say of any words.
    ensures words { OfWords words.now (run result.status
        (outside H.G.told H.G.L.told H.G.L.R.told H.G.L.W.told)
        (given (I.told input.old) (I.told input.new) (H.told host.old) (H.told host.new))
        (seen (O.told output.old) (O.told output.new)) result.journal result.served) }
    // Only words that ask for serving, or for doing lines, touch the host.
    ensures untouched { asks_serve words.now ≡ None → asks_do words.now ≡ None → host.new ≡ host.old }
    // Where no slot and no client is told of, the host was asked for nothing: it binds only once a script was read, and
    // dials only once all lines were checked, and both only where there was memory to begin.
    ensures unasked { result.served ≡ [] → host.new ≡ host.old }
    // Each message of the journal is answered by the text of the refusal that the state gives it, exactly where there
    // is one, and else by its own R message, unless it is a read that waits.
    ensures answered { RefusalsAreExact result.journal }
    // What came of the items of event files: their order, what each opening got of them, and when they were dropped.
    ensures events { EventLaws result.journal }
    // What each opening of a port got of the messages that came to it.
    ensures ports { PortLaws result.journal }
{
    refusals_follow_from_the_state();
    events_are_lawful();
    ports_are_lawful();
    do_asked(rt, alloc, words, input, output, host)
}
