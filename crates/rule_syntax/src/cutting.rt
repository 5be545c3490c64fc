//! Where whole sets end in a text of rules that is still being written.

ghost use Rattle.std.specs.Prelude.{◌≡◌, ◌≤◌, ◌<◌, ◌+◌, ◌^◌, length};
ghost use Rattle.rule_syntax.specs.Cutting.{front, behind, after_blank, after_line, sets_end, IsScanOf};

use crate::text_words::{has_newline, is_blank_line, is_rule};
use am_text::cut_line;

/// Where the last whole set ends in the lines so far, how many bytes those have, and whether a set is begun behind it.
#[derive(Clone, Copy)]
pub struct Scan {
    pub at: usize,
    pub end: usize,
    pub begun: bool,
}

// A blank line ends the set, if one is begun.
fn after_blank(scan: Scan, at: usize) -> Scan
    ensures { result ≡ after_blank scan at }
{
    let end = if scan.begun { at } else { scan.end };
    Scan {
        at,
        end,
        begun: false,
    }
}

// One line further.
fn after_line(scan: Scan, line: &[u8]) -> Scan
    requires { scan.at + length line.now + 1 < 2 ^ 64 }
    ensures { result ≡ after_line scan line.now }
{
    let at = scan.at + line.len() + 1;
    if is_blank_line(line) {
        return after_blank(scan, at);
    }
    Scan {
        at,
        end: scan.end,
        begun: scan.begun || is_rule(line),
    }
}

impl Scan {
    /// Before the first line.
    pub fn new() -> Scan
        ensures { result ≡ front }
    {
        Scan {
            at: 0,
            end: 0,
            begun: false,
        }
    }

    /// All lines of a text further, where this is how far a front of it was scanned. Only what stands behind its lines
    /// is looked at.
    #[tactic(auto, using(crate::proofs::Scans::scans))]
    pub fn go_on(self, text: &[u8]) -> Scan
        requires { IsScanOf self text.now }
        ensures scan { IsScanOf result text.now }
        ensures exact { result.end ≡ sets_end text.now }
        ensures inside { result.end ≤ length text.now }
    {
        let mut scan = self;
        let mut rest = text.split_at(scan.at).1;
        // No text has more bytes than this.
        let _most = text.len();
        while has_newline(rest) {
            let (line, after) = cut_line(rest);
            scan = after_line(scan, line);
            rest = after;
        }
        scan
    }
}

/// How many bytes of a text whole sets of rules take: all up to and with the last blank line that ends a set. A line
/// ends by its newline, and a set that ends has a line which is neither blank, nor a comment, nor a definition.
#[tactic(auto, using(crate::proofs::Scans::scans))]
pub fn sets_end(text: &[u8]) -> usize
    ensures exact { result ≡ sets_end text.now }
    ensures inside { result ≤ length text.now }
{
    Scan::new().go_on(text).end
}
