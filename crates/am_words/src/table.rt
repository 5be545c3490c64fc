//! The table of the words, as a test that takes no memory.

ghost use Rattle.std.specs.Prelude.{◌≡◌, is_some};
ghost use Rattle.am_words.specs.Words.{are_alone, are_pack, are_replay, are_trace, clients_of, in_three, in_two};
ghost use Rattle.am_words.specs.Words.{is_path, path_and_clients, rounds_of, tree_of};

use crate::asked::Tree;
use am_journal::CONNECTIONS;
use am_text::{Bytes, after_front, read_decimal};

/// Whether the words ask for a replay.
pub(crate) fn is_replay(words: &[Bytes]) -> bool
    ensures { result ≡ are_replay words.now }
{
    match words {
        [word] => word.as_slice() == b"replay".as_slice(),
        _ => false,
    }
}

fn are_alone(name: &[u8], words: &[Bytes]) -> bool
    ensures { result ≡ are_alone name.now words.now }
{
    match words {
        [word] => word.as_slice() == name,
        _ => false,
    }
}

/// Whether the words ask for a trace.
pub(crate) fn is_trace(words: &[Bytes]) -> bool
    ensures { result ≡ are_trace words.now }
{
    are_alone(b"trace", words)
}

/// Whether the words ask for packing.
pub(crate) fn is_pack(words: &[Bytes]) -> bool
    ensures { result ≡ are_pack words.now }
{
    are_alone(b"pack", words)
}

/// The most rounds of a drill.
const MOST_ROUNDS: u64 = 100_000;

/// The number of rounds, where the word is one.
pub(crate) fn rounds_of(number: &[u8]) -> Option<u64>
    ensures { result ≡ rounds_of number.now }
{
    match read_decimal(number) {
        Some(n) if 0 < n && n <= MOST_ROUNDS => Some(n),
        _ => None,
    }
}

/// The number of clients, where the word is one.
pub(crate) fn clients_of(number: &[u8]) -> Option<u32>
    ensures { result ≡ clients_of number.now }
{
    match read_decimal(number) {
        Some(n) if 0 < n && n <= CONNECTIONS as u64 => Some(n as u32),
        _ => None,
    }
}

/// Whether a word is a path.
pub(crate) fn is_path(path: &[u8]) -> bool
    ensures { result ≡ is_path path.now }
{
    match path.first() {
        Some(byte) => *byte != b'-',
        None => false,
    }
}

fn are_path_and_clients(path: &[u8], number: &[u8]) -> bool
    ensures { result ≡ is_some (path_and_clients path.now number.now) }
{
    is_path(path) && clients_of(number).is_some()
}

/// Whether the words after `serve` are a path and the option, in one word with its number.
pub(crate) fn asks_in_two(first: &[u8], second: &[u8]) -> bool
    ensures { result ≡ is_some (in_two first.now second.now) }
{
    match after_front(b"--clients=", first) {
        Some(number) => are_path_and_clients(second, number),
        None => match after_front(b"--clients=", second) {
            Some(number) => are_path_and_clients(first, number),
            None => false,
        },
    }
}

/// Whether the words after `serve` are a path, the option and its number.
pub(crate) fn asks_in_three(first: &[u8], second: &[u8], third: &[u8]) -> bool
    ensures { result ≡ is_some (in_three first.now second.now third.now) }
{
    if first == b"--clients".as_slice() {
        are_path_and_clients(third, second)
    } else if second == b"--clients".as_slice() {
        are_path_and_clients(first, third)
    } else {
        false
    }
}

/// The tree that a word names.
pub(crate) fn tree_of(name: &[u8]) -> Option<Tree>
    ensures { result ≡ tree_of name.now }
{
    if name == b"acme".as_slice() {
        Some(Tree::Acme)
    } else if name == b"plumb".as_slice() {
        Some(Tree::Plumb)
    } else {
        None
    }
}
