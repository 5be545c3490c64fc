//! Rules, their arguments, and variables.

use am_text::{Items, Rune, Runes};

/// A text of a message that rules test and set.
#[derive(Clone, Copy, Debug, PartialEq, Eq)]
pub enum Field {
    Src,
    Dst,
    Wdir,
    /// The type of the data.
    Sort,
    Data,
}

/// The object and the verb of a rule: what it tests or does.
#[derive(Clone, Copy, Debug, PartialEq, Eq)]
pub enum Verb {
    /// `src is` and the like: the text is the argument.
    Is(Field),
    /// `src matches` and the like: the expression matches the whole text.
    Matches(Field),
    /// `src set` and the like: the text becomes the argument.
    Set(Field),
    /// `arg isfile`: the argument names a file.
    ArgIsFile,
    /// `arg isdir`: the argument names a directory.
    ArgIsDir,
    /// `data isfile`: the data name a file. The argument isn't used.
    DataIsFile,
    /// `data isdir`: the data name a directory. The argument isn't used.
    DataIsDir,
    /// `attr add`: the attributes of the argument are put, in place of those with their names.
    Add,
    /// `attr delete`: the attribute with this name is removed.
    Delete,
    /// `plumb to`: the port.
    To,
    /// `plumb start`: the command that is started where the port isn't open, and always where there is none.
    Start,
    /// `plumb client`: the same, and the message is kept for the port, if there is one.
    Client,
}

/// A variable that is replaced when a message is matched.
#[derive(Clone, Copy, Debug, PartialEq, Eq)]
pub enum Late {
    /// `$0` to `$9`: the match, and its groups.
    Group(u8),
    Attr,
    Data,
    Dir,
    Dst,
    File,
    Ndata,
    Src,
    /// `$type`.
    Sort,
    Wdir,
}

/// A part of an argument.
#[derive(Clone, Copy, Debug, PartialEq, Eq)]
pub enum Piece {
    Rune(Rune),
    Late(Late),
}

/// The argument of a rule: a text, and variables that are replaced when a message is matched.
pub type Argument = Items<Piece>;

/// One rule.
#[derive(Drop)]
pub struct Rule {
    pub verb: Verb,
    pub argument: Argument,
}

/// A variable that rules define.
#[derive(Drop)]
pub struct Var {
    pub name: Runes,
    pub value: Runes,
}

/// The variables that were defined, in order. The last one with a name has its value.
pub type Vars = Items<Var>;
