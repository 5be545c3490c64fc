//! Reading a text that is executed.

ghost use Rattle.std.specs.Prelude.{◌≡◌, ◌<◌, ◌≤◌, length};
ghost use Rattle.acme_cmd.specs.Commands.{is_name, done_of, is_idle, builtin_of, sign_of, classified, HasItsArgumentIn};

use crate::blanks::{after_blanks, split_word, trimmed};
use crate::command::{Builtin, Command};
use am_text::{BAR, GREATER, JobKind, LESS, Rune};

// Whether a text is this name.
#[tactic(auto, unfolding(crate::specs::Commands::is_name))]
pub(crate) fn is_name(text: &[Rune], name: &[u8]) -> bool
    ensures { result ≡ is_name text.now name.now }
{
    let mut rest = text;
    let mut left = name;
    while let [byte, bytes @ ..] = left {
        match rest {
            [rune, runes @ ..] if *rune == Rune::from(*byte) => {
                rest = runes;
                left = bytes;
            }
            _ => return false,
        }
    }
    rest.is_empty()
}

// The built-in commands that do something.
#[tactic(auto, unfolding(crate::specs::Commands::done_of))]
fn done_of(word: &[Rune]) -> Option<Builtin>
    ensures { result ≡ done_of word.now }
{
    if is_name(word, b"Cut") {
        return Some(Builtin::Cut);
    }
    if is_name(word, b"Del") {
        return Some(Builtin::Del);
    }
    if is_name(word, b"Delete") {
        return Some(Builtin::Delete);
    }
    if is_name(word, b"Edit") {
        return Some(Builtin::Edit);
    }
    if is_name(word, b"Get") {
        return Some(Builtin::Get);
    }
    if is_name(word, b"Look") {
        return Some(Builtin::Look);
    }
    if is_name(word, b"New") {
        return Some(Builtin::New);
    }
    if is_name(word, b"Paste") {
        return Some(Builtin::Paste);
    }
    if is_name(word, b"Put") {
        return Some(Builtin::Put);
    }
    if is_name(word, b"Redo") {
        return Some(Builtin::Redo);
    }
    if is_name(word, b"Snarf") {
        return Some(Builtin::Snarf);
    }
    if is_name(word, b"Undo") {
        return Some(Builtin::Undo);
    }
    None
}

// The built-in commands that do nothing.
#[tactic(auto, unfolding(crate::specs::Commands::is_idle))]
fn is_idle(word: &[Rune]) -> bool
    ensures { result ≡ is_idle word.now }
{
    is_name(word, b"Delcol")
        || is_name(word, b"Dump")
        || is_name(word, b"Exit")
        || is_name(word, b"Font")
        || is_name(word, b"ID")
        || is_name(word, b"Incl")
        || is_name(word, b"Indent")
        || is_name(word, b"Kill")
        || is_name(word, b"Load")
        || is_name(word, b"Local")
        || is_name(word, b"Newcol")
        || is_name(word, b"Putall")
        || is_name(word, b"Send")
        || is_name(word, b"Sort")
        || is_name(word, b"Tab")
        || is_name(word, b"Zerox")
}

fn builtin_of(word: &[Rune]) -> Option<Builtin>
    ensures { result ≡ builtin_of word.now }
{
    match done_of(word) {
        Some(builtin) => Some(builtin),
        None => {
            if is_idle(word) {
                Some(Builtin::Idle)
            } else {
                None
            }
        }
    }
}

fn sign_of(text: &[Rune]) -> Option<JobKind>
    ensures { result ≡ sign_of text.now }
{
    match text {
        [BAR, ..] => Some(JobKind::Pipe),
        [LESS, ..] => Some(JobKind::From),
        [GREATER, ..] => Some(JobKind::To),
        _ => None,
    }
}

/// What a text that is executed asks for, after acme(1).
///
/// A text that begins with `|`, `<` or `>` is a request of that kind, and its command is all after the
/// sign. Else the word is the text up to the first blank after leading ones, and its argument is the
/// rest; a word that is no built-in command is external. Blanks, tabs and newlines at the ends of the
/// command and of the argument are left out. It takes no memory.
pub fn classify(text: &[Rune]) -> Command
    ensures exact { result ≡ classified text.now }
    ensures inside { HasItsArgumentIn (length text.now) result }
{
    if let Some(kind) = sign_of(text) {
        return Command::Pipe(kind, trimmed(text, &text[1..]));
    }
    let (word, rest) = split_word(after_blanks(text));
    match builtin_of(word) {
        Some(builtin) => Command::Builtin(builtin, trimmed(text, rest)),
        None => Command::External,
    }
}
