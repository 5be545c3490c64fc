//! The heading of a transcript.

ghost use Rattle.std.specs.Prelude.{◌≡◌, ◌≤◌, length};
ghost use Rattle.am_text.specs.Lines.{lines_of};
ghost use Rattle.am_journal.specs.Journal.{format_of, behind_heading, heading_text};

use crate::event::Format;
use am_text::split_line;

/// The heading of a transcript of this format, with its newline: none in format 1.
pub fn heading(format: Format) -> &'static [u8]
    ensures { result.now ≡ heading_text format }
{
    match format {
        Format::One => b"",
        Format::Two => b"acmefs 2\n",
    }
}

/// The format that an input tells, and what stands behind its heading, if it has one.
pub fn split_heading(input: &[u8]) -> (Format, &[u8])
    ensures format { result.0 ≡ format_of (lines_of input.now) }
    ensures rest { lines_of result.1.now ≡ behind_heading (lines_of input.now) }
    ensures shorter { length result.1.now ≤ length input.now }
{
    if input.is_empty() {
        return (Format::One, input);
    }
    let (line, rest) = split_line(input);
    if line == b"acmefs 2".as_slice() {
        (Format::Two, rest)
    } else {
        (Format::One, input)
    }
}
