//! Reads the command of Edit that a text is.

ghost use Rattle.std.specs.Prelude.{◌≡◌, ◌≤◌, ◌<◌, ◌+◌, false, length, drop, Some, IfOk, IfErr};
ghost use Rattle.std.specs.Option.{option_map};
ghost use Rattle.am_text.specs.Ascii.{space};
ghost use Rattle.re_syntax.specs.Tree as expression;
ghost use Rattle.addr_syntax.specs.Tree as address;
ghost use Rattle.addr_syntax.specs.Tree.{Missing};
ghost use Rattle.addr_syntax.specs.Marks.{next_of};
ghost use Rattle.addr_syntax.specs.Answer.{IsLimited};
ghost use Rattle.edit_parts.specs.Kinds.{is_next};
ghost use Rattle.edit_parts.specs.Tree.{Command, command};
ghost use Rattle.edit_parts.specs.Answer.{IsBuiltExpression};
ghost use Rattle.edit_parts.specs.Texts.{after_blanks};
ghost use Rattle.sam_syntax.specs.Answer as edit;
ghost use Rattle.sam_syntax.specs.Edits.{edit_of};
ghost use Rattle.sam_syntax.specs.Texts.{quoted_expression, first_address};
ghost use Rattle.edit_files.specs.Names.{names_in};
ghost use Rattle.edit_files.specs.Letters.{letter_at, windows_letter, file_letter};
ghost use Rattle.edit_files.specs.Command.{FilesCommand, files_command, Drops, Enter, ReadIn, WriteOut};
ghost use Rattle.edit_files.specs.Files.{sam_of, inner_of, in_windows, file_of, ranged_of};
ghost use Rattle.edit_files.specs.Files.{solid_files, files_of};
ghost use Rattle.edit_files.specs.Answer.{IsInLimits, PassesLimit, EditFails, FilesFails, past, Refuses};
ghost use Rattle.edit_files.specs.declared.letter.Letter.TheVariants as Letter;

use crate::command::FilesCmd;
use crate::letter::{Letter, letter_at, reads_at};
use crate::names::{lone_name, read_names};
use crate::scan::{after_blanks, quoted_expression};
use addr_syntax::{Limited, addr_at};
use am_text::{Rune, Runes};
use edit_parts::{Act, Addr, Cmd, SynFault};
use re_spans::Re;
use sam_syntax::parse_edit;
use std::alloc::Global;

// The command of sam that stands from a place on.
fn edit_at(alloc: Global, text: &[Rune], from: usize) -> Result<Cmd, SynFault>
    requires { from ≤ length text.now }
    ensures ok { IfOk result (λ c. edit_of (drop from text.now) ≡ Some (command c)) }
    ensures small { IfOk result (λ c. edit.IsInLimits (command c)) }
    ensures err { IfErr result (EditFails edit_of text.now from) }
{
    match parse_edit(alloc, &text[from..]) {
        Ok(cmd) => Ok(cmd),
        Err(SynFault::Bad(place)) => Err(SynFault::Bad(from + place)),
        Err(SynFault::Nodes) => Err(SynFault::Nodes),
        Err(SynFault::Deep) => Err(SynFault::Deep),
        Err(SynFault::NoMemory) => Err(SynFault::NoMemory),
    }
}

// The command of `X` or `Y`, behind the expression.
fn inner(alloc: Global, text: &[Rune], from: usize) -> Result<Cmd, SynFault>
    requires { from ≤ length text.now }
    ensures ok { IfOk result (λ c. inner_of (after_blanks (drop from text.now)) ≡ Some (command c)) }
    ensures small { IfOk result (λ c. edit.IsInLimits (command c)) }
    ensures err { IfErr result (EditFails (λ t. inner_of (after_blanks t)) text.now from) }
{
    let at = after_blanks(text, from);
    if at < text.len() {
        edit_at(alloc, text, at)
    } else {
        Ok(Cmd {
            addr: None,
            act: Act::Print,
        })
    }
}

// What is told of a command whose expression has too many nodes: a fault of the grammar goes before that.
fn past(found: Result<Cmd, SynFault>) -> SynFault
    ensures { result ≡ past found }
{
    match found {
        Ok(cmd) => {
            drop(cmd);
            SynFault::Nodes
        }
        Err(SynFault::Bad(place)) => SynFault::Bad(place),
        Err(SynFault::Nodes) => SynFault::Nodes,
        Err(SynFault::Deep) => SynFault::Nodes,
        Err(SynFault::NoMemory) => SynFault::NoMemory,
    }
}

// `X` or `Y`.
fn in_windows(with_match: bool, re: Re, cmd: Cmd) -> FilesCmd
    ensures { files_command result ≡ in_windows with_match (expression.tree re) (command cmd) }
{
    if with_match {
        FilesCmd::Each(re, cmd)
    } else {
        FilesCmd::Other(re, cmd)
    }
}

// `X` or `Y`, whose letter stands at a place.
fn windows_at(
    alloc: Global,
    text: &[Rune],
    at: usize,
    with_match: bool,
) -> Result<FilesCmd, SynFault>
    requires here { at < length text.now }
    requires letter { letter_at (drop at text.now) ≡ windows_letter with_match }
    ensures ok { IfOk result (λ c. solid_files (drop at text.now) ≡ Some (files_command c)) }
    ensures small { IfOk result (λ c. IsInLimits (files_command c)) }
    ensures err { IfErr result (FilesFails solid_files text.now at) }
{
    let (re, end) = quoted_expression(alloc, text, after_blanks(text, at + 1))?;
    let found = inner(alloc, text, end);
    let Some(re) = re else {
        return Err(past(found));
    };
    Ok(in_windows(with_match, re, found?))
}

// `B`, whose letter stands at a place.
fn open_at(alloc: Global, text: &[Rune], at: usize) -> Result<FilesCmd, SynFault>
    requires here { at < length text.now }
    requires letter { letter_at (drop at text.now) ≡ Letter.Open }
    ensures ok { IfOk result (λ c. solid_files (drop at text.now) ≡ Some (files_command c)) }
    ensures small { IfOk result (λ c. IsInLimits (files_command c)) }
    ensures err { IfErr result (FilesFails solid_files text.now at) }
{
    match lone_name(alloc, text, at + 1)? {
        Some(name) => Ok(FilesCmd::Open(name)),
        None => Err(SynFault::Bad(text.len())),
    }
}

// `D`, whose letter stands at a place.
fn drop_at(alloc: Global, text: &[Rune], at: usize) -> Result<FilesCmd, SynFault>
    requires here { at < length text.now }
    requires letter { letter_at (drop at text.now) ≡ Letter.Drop }
    ensures ok { IfOk result (λ c. solid_files (drop at text.now) ≡ Some (files_command c)) }
    ensures small { IfOk result (λ c. IsInLimits (files_command c)) }
    ensures err { IfErr result (FilesFails solid_files text.now at) }
{
    Ok(FilesCmd::Drop(read_names(alloc, text, at + 1, false)?))
}

// `e`, whose letter stands at a place.
fn enter_at(alloc: Global, text: &[Rune], at: usize) -> Result<FilesCmd, SynFault>
    requires here { at < length text.now }
    requires letter { letter_at (drop at text.now) ≡ Letter.Enter }
    ensures ok { IfOk result (λ c. solid_files (drop at text.now) ≡ Some (files_command c)) }
    ensures small { IfOk result (λ c. IsInLimits (files_command c)) }
    ensures err { IfErr result (FilesFails solid_files text.now at) }
{
    Ok(FilesCmd::Enter(lone_name(alloc, text, at + 1)?))
}

// `r` or `w`.
fn file(reads_in: bool, addr: Option<Addr>, name: Option<Runes>) -> FilesCmd
    ensures { files_command result ≡ file_of reads_in (address.tree_of addr) name }
{
    if reads_in {
        FilesCmd::ReadIn(addr, name)
    } else {
        FilesCmd::WriteOut(addr, name)
    }
}

// `r` or `w` without an address, whose letter stands at a place.
fn file_at(alloc: Global, text: &[Rune], at: usize, reads_in: bool) -> Result<FilesCmd, SynFault>
    requires here { at < length text.now }
    requires letter { letter_at (drop at text.now) ≡ file_letter reads_in }
    ensures ok { IfOk result (λ c. solid_files (drop at text.now) ≡ Some (files_command c)) }
    ensures small { IfOk result (λ c. IsInLimits (files_command c)) }
    ensures err { IfErr result (FilesFails solid_files text.now at) }
{
    let name = lone_name(alloc, text, at + 1)?;
    Ok(file(reads_in, None, name))
}

// `r` or `w` at an address that may pass a limit.
fn in_limits(reads_in: bool, addr: Limited<Addr>, name: Option<Runes>) -> Result<FilesCmd, SynFault>
    ensures ok { IfOk result (λ c. (a : address.Tree) → IsLimited addr a → (files_command c ≡ file_of reads_in a name)
        × IsInLimits (files_command c)) }
    ensures err { IfErr result (λ e. (a : address.Tree) → IsLimited addr a → PassesLimit (file_of reads_in a name) e) }
{
    match addr {
        Limited::Whole(addr) => Ok(file(reads_in, Some(addr), name)),
        Limited::Deep => Err(SynFault::Deep),
        Limited::Large => Err(SynFault::Nodes),
    }
}

// `r` or `w` at an address, behind the letter.
fn ranged(
    alloc: Global,
    text: &[Rune],
    from: usize,
    reads_in: bool,
    addr: Limited<Addr>,
) -> Result<FilesCmd, SynFault>
    requires { from ≤ length text.now }
    ensures ok { IfOk result (λ c. (a : address.Tree) → IsLimited addr a
        → (ranged_of reads_in a (drop from text.now) ≡ Some (files_command c)) × IsInLimits (files_command c)) }
    ensures err { IfErr result (λ e. (a : address.Tree) → IsLimited addr a
        → FilesFails (ranged_of reads_in a) text.now from e) }
{
    match lone_name(alloc, text, from) {
        Ok(name) => in_limits(reads_in, addr, name),
        Err(fault) => {
            drop(addr);
            Err(fault)
        }
    }
}

// The command of sam that stands from a place on, all of the rest.
fn sam_at(alloc: Global, text: &[Rune], from: usize) -> Result<FilesCmd, SynFault>
    requires { from ≤ length text.now }
    ensures ok { IfOk result (λ c. sam_of (drop from text.now) ≡ Some (files_command c)) }
    ensures small { IfOk result (λ c. IsInLimits (files_command c)) }
    ensures err { IfErr result (FilesFails sam_of text.now from) }
{
    Ok(FilesCmd::One(edit_at(alloc, text, from)?))
}

// A command that begins with an address.
fn addressed_at(alloc: Global, text: &[Rune], from: usize) -> Result<FilesCmd, SynFault>
    requires here { from < length text.now }
    requires letter { letter_at (drop from text.now) ≡ Letter.Address }
    ensures ok { IfOk result (λ c. solid_files (drop from text.now) ≡ Some (files_command c)) }
    ensures small { IfOk result (λ c. IsInLimits (files_command c)) }
    ensures err { IfErr result (FilesFails solid_files text.now from) }
{
    let (addr, end) = addr_at(alloc, text, from)?;
    let at = after_blanks(text, end);
    match reads_at(text, at) {
        Some(reads_in) => ranged(alloc, text, at + 1, reads_in, addr),
        None => {
            drop(addr);
            sam_at(alloc, text, from)
        }
    }
}

// The command whose first rune stands at a place.
fn command_at(alloc: Global, text: &[Rune], at: usize) -> Result<FilesCmd, SynFault>
    requires within { at ≤ length text.now }
    requires solid { is_next space (next_of (drop at text.now)) ≡ false }
    ensures ok { IfOk result (λ c. solid_files (drop at text.now) ≡ Some (files_command c)) }
    ensures small { IfOk result (λ c. IsInLimits (files_command c)) }
    ensures err { IfErr result (FilesFails solid_files text.now at) }
{
    match letter_at(text, at) {
        Letter::Each => windows_at(alloc, text, at, true),
        Letter::Other => windows_at(alloc, text, at, false),
        Letter::Open => open_at(alloc, text, at),
        Letter::Drop => drop_at(alloc, text, at),
        Letter::Enter => enter_at(alloc, text, at),
        Letter::ReadIn => file_at(alloc, text, at, true),
        Letter::WriteOut => file_at(alloc, text, at, false),
        Letter::Address => addressed_at(alloc, text, at),
        Letter::Sam => sam_at(alloc, text, at),
    }
}

/// Reads a command of Edit, all of the text: one over windows and files, or one of sam(1).
///
/// `Bad` tells the first place at which no command goes on, or the end of a text that only stops short of one.
/// `Nodes` comes exactly where a text in the grammar has an expression of more than 2,048 nodes, and `Deep` exactly
/// where it has none and more than 32 levels (a block and each of `x y g v` is one) or an address of more than 1,024
/// operators.
pub fn parse_files(alloc: Global, text: &[Rune]) -> Result<FilesCmd, SynFault>
    ensures read { IfOk result (λ c. files_of text.now ≡ Some (files_command c)) }
    ensures small { IfOk result (λ c. IsInLimits (files_command c)) }
    ensures refused { IfErr result (Refuses text.now) }
{
    command_at(alloc, text, after_blanks(text, 0))
}
