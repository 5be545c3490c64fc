//! Reading the words after the program's name.

ghost use Rattle.std.specs.Prelude.{◌≡◌, [], ◌∷◌, Some, true, is_some, IfErr, IfNone, IfOk, IfSome, string_bytes};
ghost use Rattle.std.specs.List.{AllByRecursion};
ghost use Rattle.std.specs.Str.{IsUtf8};
ghost use Rattle.am_words.specs.Words.{AreKnown, AsksFor, IsText, IsWithin, asks_do, asks_drill, asks_serve, in_three};
ghost use Rattle.am_words.specs.Words.{in_two, rounds_of, tree_of, with_tree};

use crate::asked::{Asked, Doing, Serving};
use crate::commands::{parse_drill, parse_serve};
use crate::table::{
    asks_in_three, asks_in_two, is_pack, is_path, is_replay, is_trace, rounds_of, tree_of,
};
use am_text::{Bytes, NoMemory};
use std::alloc::Global;
use std::str;

// The texts that two words are.
fn two_texts<'a>(first: &'a [u8], second: &'a [u8]) -> Option<(&'a str, &'a str)>
    ensures some { IfSome result (λ t. (t.0.now ≡ first.now) × (t.1.now ≡ second.now)) }
    ensures each { IfSome result (λ t. AllByRecursion IsUtf8 (first.now ∷ second.now ∷ [])) }
    ensures none { IfNone result (¬ AllByRecursion IsUtf8 (first.now ∷ second.now ∷ [])) }
{
    Some((str::from_utf8(first).ok()?, str::from_utf8(second).ok()?))
}

// The texts that three words are.
fn three_texts<'a>(
    first: &'a [u8],
    second: &'a [u8],
    third: &'a [u8],
) -> Option<(&'a str, &'a str, &'a str)>
    ensures some { IfSome result (λ t. (t.0.now ≡ first.now) × (t.1.now ≡ second.now) × (t.2.now ≡ third.now)) }
    ensures each { IfSome result (λ t. AllByRecursion IsUtf8 (first.now ∷ second.now ∷ third.now ∷ [])) }
    ensures none { IfNone result (¬ AllByRecursion IsUtf8 (first.now ∷ second.now ∷ third.now ∷ [])) }
{
    let (first, second) = two_texts(first, second)?;
    Some((first, second, str::from_utf8(third).ok()?))
}

// How many rounds the word asks for.
fn read_number(alloc: Global, number: &[u8]) -> Result<Option<u64>, NoMemory>
    ensures exact { IfOk result (λ rounds. rounds ≡ rounds_of number.now) }
    ensures known { IfErr result (λ e. is_some (rounds_of number.now) ≡ true) }
{
    if rounds_of(number).is_none() {
        return Ok(None);
    }
    match str::from_utf8(number) {
        Ok(text) => Ok(Some(parse_drill(alloc, &[text])?)),
        Err(_) => unreachable!(),
    }
}

// The path and the number of clients that two words ask for.
fn read_two(alloc: Global, first: &[u8], second: &[u8]) -> Result<Option<Serving>, NoMemory>
    ensures some { IfOk result (λ r. IfSome r (λ s. in_two first.now second.now
        ≡ Some (string_bytes s.path, s.clients))) }
    ensures none { IfOk result (λ r. IfNone r (¬ IsText (in_two first.now second.now))) }
    ensures known { IfErr result (λ e. IsText (in_two first.now second.now)) }
{
    if !asks_in_two(first, second) {
        return Ok(None);
    }
    match two_texts(first, second) {
        Some((first, second)) => Ok(Some(parse_serve(alloc, &[first, second])?)),
        None => Ok(None),
    }
}

// The path and the number of clients that three words ask for.
fn read_three(
    alloc: Global,
    first: &[u8],
    second: &[u8],
    third: &[u8],
) -> Result<Option<Serving>, NoMemory>
    ensures some { IfOk result (λ r. IfSome r (λ s. in_three first.now second.now third.now
        ≡ Some (string_bytes s.path, s.clients))) }
    ensures none { IfOk result (λ r. IfNone r (¬ IsText (in_three first.now second.now third.now))) }
    ensures known { IfErr result (λ e. IsText (in_three first.now second.now third.now)) }
{
    if !asks_in_three(first, second, third) {
        return Ok(None);
    }
    match three_texts(first, second, third) {
        Some((first, second, third)) => Ok(Some(parse_serve(alloc, &[first, second, third])?)),
        None => Ok(None),
    }
}

// How many rounds the words ask for, where they ask for a drill.
fn read_drill(alloc: Global, words: &[Bytes]) -> Result<Option<u64>, NoMemory>
    ensures exact { IfOk result (λ rounds. rounds ≡ asks_drill words.now) }
    ensures known { IfErr result (λ e. is_some (asks_drill words.now) ≡ true) }
{
    match words {
        [command, number] if command.as_slice() == b"drill".as_slice() => {
            read_number(alloc, number.as_slice())
        }
        _ => Ok(None),
    }
}

// The path and the number of clients, where the words ask for serving.
fn read_serve(alloc: Global, words: &[Bytes]) -> Result<Option<Serving>, NoMemory>
    ensures some { IfOk result (λ r. IfSome r (λ s. asks_serve words.now ≡ Some (string_bytes s.path, s.clients))) }
    ensures none { IfOk result (λ r. IfNone r (¬ IsText (asks_serve words.now))) }
    ensures known { IfErr result (λ e. IsText (asks_serve words.now)) }
{
    match words {
        [command, first, second] if command.as_slice() == b"serve".as_slice() => {
            read_two(alloc, first.as_slice(), second.as_slice())
        }
        [command, first, second, third] if command.as_slice() == b"serve".as_slice() => {
            read_three(alloc, first.as_slice(), second.as_slice(), third.as_slice())
        }
        _ => Ok(None),
    }
}

// The path and the tree that two words ask for.
fn read_path_and_tree(alloc: Global, path: &[u8], tree: &[u8]) -> Result<Option<Doing>, NoMemory>
    ensures some { IfOk result (λ r. IfSome r (λ d. with_tree path.now (tree_of tree.now)
        ≡ Some (string_bytes d.path, d.tree))) }
    ensures none { IfOk result (λ r. IfNone r (¬ IsText (with_tree path.now (tree_of tree.now)))) }
    ensures known { IfErr result (λ e. IsText (with_tree path.now (tree_of tree.now))) }
{
    let Some(tree) = tree_of(tree) else {
        return Ok(None);
    };
    if !is_path(path) {
        return Ok(None);
    }
    match str::from_utf8(path) {
        Ok(text) => Ok(Some(Doing {
            path: String::from_str(alloc, text)?,
            tree,
        })),
        Err(_) => Ok(None),
    }
}

// The path and the tree, where the words ask for doing lines.
fn read_do(alloc: Global, words: &[Bytes]) -> Result<Option<Doing>, NoMemory>
    ensures some { IfOk result (λ r. IfSome r (λ d. asks_do words.now ≡ Some (string_bytes d.path, d.tree))) }
    ensures none { IfOk result (λ r. IfNone r (¬ IsText (asks_do words.now))) }
    ensures known { IfErr result (λ e. IsText (asks_do words.now)) }
{
    match words {
        [command, path, tree] if command.as_slice() == b"do".as_slice() => {
            read_path_and_tree(alloc, path.as_slice(), tree.as_slice())
        }
        _ => Ok(None),
    }
}

/// What the words after the program's name ask for: a replay by `replay`, a trace by `trace`, packing by `pack`, a
/// drill by `drill N`, serving by `serve PATH --clients N`, where the option may stand before the path, and may be one
/// word, `--clients=N`, and doing lines by `do PATH TREE`, the tree being `acme` or `plumb`. A number of rounds is 1 to
/// 100,000, one of clients 1 to 64, in digits without a leading zero. A path is a text that isn't empty and doesn't
/// begin with `-`. Other words ask for nothing.
pub fn read_words(alloc: Global, words: &[Bytes]) -> Result<Option<Asked>, NoMemory>
    // What is asked for is what the words say.
    ensures asked { IfOk result (λ asked. IfSome asked (AsksFor words.now)) }
    // None only where they ask for nothing.
    ensures other { IfOk result (λ asked. IfNone asked (¬ AreKnown words.now)) }
    // A number is within its limits.
    ensures limits { IfOk result (λ asked. IfSome asked IsWithin) }
    // Memory runs out only where something is asked for.
    ensures known { IfErr result (λ e. AreKnown words.now) }
{
    if is_replay(words) {
        return Ok(Some(Asked::Replay));
    }
    if is_trace(words) {
        return Ok(Some(Asked::Trace));
    }
    if is_pack(words) {
        return Ok(Some(Asked::Pack));
    }
    if let Some(rounds) = read_drill(alloc, words)? {
        return Ok(Some(Asked::Drill { rounds }));
    }
    if let Some(Serving { path, clients }) = read_serve(alloc, words)? {
        return Ok(Some(Asked::Serve { path, clients }));
    }
    match read_do(alloc, words)? {
        Some(Doing { path, tree }) => Ok(Some(Asked::Do { path, tree })),
        None => Ok(None),
    }
}
