//! The tree of a command.

use addr_syntax::Addr;
use am_text::Runes;
use re_syntax::Re;

/// A command of the Edit language, as sam(1) has it: a range of the text, and what is done with it.
#[derive(Drop)]
#[cycle(command)]
pub struct Cmd {
    /// The range; `None` where no address is written, which means dot.
    pub addr: Option<Addr>,
    pub act: Act,
}

/// Commands, in the order in which they are done.
pub type Cmds = Vec<Cmd>;

/// What a command does with its range.
#[derive(Drop)]
#[cycle(command)]
pub enum Act {
    /// Nothing is written: dot becomes the range.
    Nothing,
    /// `a`: puts the text after the range.
    Append(Runes),
    /// `c`: puts the text in the place of the range.
    Change(Runes),
    /// `i`: puts the text before the range.
    Insert(Runes),
    /// `d`: deletes the range.
    Delete,
    /// `s`: puts a text in the place of the match of number `nth`, from 1, or of all from it on.
    Subst {
        nth: u64,
        re: Re,
        /// The text as it is written, in which `&` is the match and `\1` to `\9` are its groups.
        with: Runes,
        all: bool,
    },
    /// `m`: moves the range behind that of the address.
    Move(Addr),
    /// `t`: copies the range behind that of the address.
    Copy(Addr),
    /// `p`: prints the range.
    Print,
    /// `=`: prints the lines of the range.
    LineNo,
    /// `=#`: prints the places of the range.
    CharNo,
    /// `x`: does the command for each match in the range.
    Each(Re, Box<Cmd>),
    /// `y`: does the command for each text before, between and behind the matches in the range.
    Between(Re, Box<Cmd>),
    /// `g`: does the command where the range has a match.
    If(Re, Box<Cmd>),
    /// `v`: does the command where the range has none.
    Unless(Re, Box<Cmd>),
    /// `{ }`: does each of the commands, with the range as its dot.
    Block(Cmds),
    /// `|`: the range's text is to go through the command, and its output to take the range's place.
    Pipe(Runes),
    /// `<`: the command's output is to take the place of the range.
    From(Runes),
    /// `>`: the range's text is to be the command's input.
    To(Runes),
}
