//! Packing what an input gives.

ghost use Rattle.std.specs.Prelude.{◌≡◌, ◌≤◌, ◌<◌, length};
ghost use Rattle.am_base.specs.Outside.{AreTold};
ghost use Rattle.am_base.specs.Seen.{seen};
ghost use Rattle.am_journal.specs.Journal.{AreSpelled};
ghost use Rattle.std.specs.List.{AllByRecursion};
ghost use Rattle.am_journal.specs.Lawful.{IsLawful, IsInRange};
ghost use Rattle.am_replay.specs.Packing.{packing_of, too_long};
ghost use Rattle.am_replay.specs.Scripts.{none_read};
ghost use Rattle.am_replay.specs.PackEnds.{end_of, Packs, PackSays};

use crate::packing::{Fault, Packing, Refusal, packed_text, read_lines, refused_at};
use crate::script::empty_journal;
use am_base::{ReadStop, Sink, Source, read_to_end, write_all};
use am_journal::{Format, Journal};
use am_text::NoMemory;
use std::alloc::Global;

/// The most bytes that a text in words has.
pub const PACK_LIMIT: usize = 67108864;

/// How packing ended.
#[derive(Clone, Copy, Debug, PartialEq, Eq)]
pub enum PackEnd {
    /// All was read and written.
    Done,
    /// A line, or the whole text, is refused.
    Script,
    /// The input could not be read.
    ReadFault,
    /// The output could not be written.
    WriteFault,
    /// Memory ran out.
    NoMemory,
}

/// How packing ended, and the events that the text spells.
#[derive(Drop)]
pub struct Packed {
    pub end: PackEnd,
    pub journal: Journal,
}

fn nothing(alloc: Global, end: PackEnd) -> Packed
    ensures end { result.end ≡ end }
    ensures journal { result.journal ≡ none_read }
{
    Packed {
        end,
        journal: empty_journal(alloc, Format::One),
    }
}

fn end_of(refused: Option<Refusal>, failed: bool) -> PackEnd
    ensures { result ≡ end_of refused failed }
{
    match refused {
        Some(_) => PackEnd::Script,
        None => {
            if failed {
                PackEnd::WriteFault
            } else {
                PackEnd::Done
            }
        }
    }
}

/// Writes the lines of what was read.
fn write_packing<O: Sink>(alloc: Global, packing: Packing, output: &mut O) -> Packed
    requires lawful { AllByRecursion IsLawful packing.journal.events }
    requires in_range { AllByRecursion IsInRange packing.journal.events }
    ensures packs { Packs result.end packing
        (seen (O.told output.old) (O.told output.new))
        result.journal }
    ensures spelled { AreSpelled result.journal.events }
{
    let Ok(text) = packed_text(alloc, &packing) else {
        return nothing(alloc, PackEnd::NoMemory);
    };
    let failed = write_all(output, text.as_slice()).is_err();
    let Packing { journal, refused } = packing;
    Packed {
        end: end_of(refused, failed),
        journal,
    }
}

fn pack_lines<O: Sink>(alloc: Global, bytes: &[u8], output: &mut O) -> Packed
    requires { length bytes.now ≤ 67108864 }
    ensures packs { Packs result.end (packing_of bytes.now)
        (seen (O.told output.old) (O.told output.new))
        result.journal }
    ensures spelled { AreSpelled result.journal.events }
{
    match read_lines(alloc, bytes) {
        Ok(packing) => write_packing(alloc, packing, output),
        Err(NoMemory) => nothing(alloc, PackEnd::NoMemory),
    }
}

fn refuse_input<O: Sink>(alloc: Global, output: &mut O) -> Packed
    ensures packs { Packs result.end too_long
        (seen (O.told output.old) (O.told output.new))
        result.journal }
    ensures spelled { AreSpelled result.journal.events }
{
    let packing = refused_at(empty_journal(alloc, Format::One), 0, Fault::Input);
    write_packing(alloc, packing, output)
}

/// Packs the text in words that the input gives: at most 67,108,864 bytes, up to a line `report` or the end. The
/// journal has the format that its heading tells and the events that its lines spell, and the output gets that
/// journal's lines. Messages to connections are read and dropped. At a line that isn't in words the text is refused,
/// after the lines before it. No event is done, so that one that isn't enabled passes.
pub fn pack<I: Source, O: Sink>(alloc: Global, input: &mut I, output: &mut O) -> Packed
    ensures says { PackSays result.end (I.told input.old) (I.told input.new)
        (seen (O.told output.old) (O.told output.new))
        result.journal }
    // Each event has a line in a transcript.
    ensures spelled { AreSpelled result.journal.events }
{
    match read_to_end(alloc, input, PACK_LIMIT) {
        Ok(bytes) => pack_lines(alloc, bytes.as_slice(), output),
        Err(ReadStop::TooLong) => refuse_input(alloc, output),
        Err(ReadStop::ReadFault) => nothing(alloc, PackEnd::ReadFault),
        Err(ReadStop::NoMemory) => nothing(alloc, PackEnd::NoMemory),
    }
}
