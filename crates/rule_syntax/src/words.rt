//! Words of a line.

ghost use Rattle.std.specs.Prelude.{◌≡◌, ◌≤◌, length};
ghost use Rattle.std.specs.Int.{is_in_range};
ghost use Rattle.std.specs.Str.{bytes_eq};
ghost use Rattle.am_text.specs.Lines.{first_line, after_line};
ghost use Rattle.rule_syntax.specs.Words.{is_gap, is_blank, is_digit, is_name_rune, word, after_word, after_gaps};
ghost use Rattle.rule_syntax.specs.Words.{after_blanks, trimmed, name_part, after_name, is_blank_line, is_comment};
ghost use Rattle.rule_syntax.specs.Words.{begins_with_digit};

use am_text::{DIGIT_0, DIGIT_9, HASH, NEWLINE, Rune, SPACE, TAB, UNDERSCORE};

const UPPER_A: Rune = 0x41;

const UPPER_Z: Rune = 0x5A;

const LOWER_A: Rune = 0x61;

const LOWER_Z: Rune = 0x7A;

fn is_within(low: Rune, high: Rune, c: Rune) -> bool
    ensures { result ≡ is_in_range low high c }
{
    low <= c && c <= high
}

pub(crate) fn is_digit(c: Rune) -> bool
    ensures { result ≡ is_digit c }
{
    is_within(DIGIT_0, DIGIT_9, c)
}

pub(crate) fn is_name_rune(c: Rune) -> bool
    ensures { result ≡ is_name_rune c }
{
    is_digit(c)
        || is_within(UPPER_A, UPPER_Z, c)
        || is_within(LOWER_A, LOWER_Z, c)
        || c == UNDERSCORE
}

fn is_gap(c: Rune) -> bool
    ensures { result ≡ is_gap c }
{
    c == SPACE || c == TAB
}

/// Whether a text is this word of ASCII.
pub(crate) fn is_word(text: &[Rune], word: &[u8]) -> bool
    ensures { result ≡ bytes_eq text.now word.now }
{
    let mut left = word;
    let mut rest = text;
    while let [b, bs @ ..] = left {
        match rest {
            [c, cs @ ..] if *c == u32::from(*b) => {
                left = bs;
                rest = cs;
            }
            _ => return false,
        }
    }
    rest.is_empty()
}

/// The text up to its first blank or tab, and from there on.
pub(crate) fn split_word(text: &[Rune]) -> (&[Rune], &[Rune])
    ensures front { result.0.now ≡ word text.now }
    ensures rest { result.1.now ≡ after_word text.now }
{
    let mut at = 0;
    for c in text {
        if is_gap(*c) {
            return text.split_at(at);
        }
        at += 1;
    }
    text.split_at(at)
}

/// The letters, digits and `_` in front, and what follows them.
pub(crate) fn split_name(text: &[Rune]) -> (&[Rune], &[Rune])
    ensures front { result.0.now ≡ name_part text.now }
    ensures rest { result.1.now ≡ after_name text.now }
{
    let mut at = 0;
    for c in text {
        if !is_name_rune(*c) {
            return text.split_at(at);
        }
        at += 1;
    }
    text.split_at(at)
}

/// The text up to its first newline, and what follows that.
pub(crate) fn cut_line(text: &[Rune]) -> (&[Rune], &[Rune])
    ensures line { result.0.now ≡ first_line text.now }
    ensures rest { result.1.now ≡ after_line text.now }
{
    let mut at = 0;
    for c in text {
        if *c == NEWLINE {
            let (line, rest) = text.split_at(at);
            return (line, rest.split_at(1).1);
        }
        at += 1;
    }
    text.split_at(at)
}

/// The text after the blanks and tabs in front.
pub(crate) fn after_gaps(text: &[Rune]) -> &[Rune]
    ensures { result.now ≡ after_gaps text.now }
{
    let mut rest = text;
    while let [c, after @ ..] = rest {
        if !is_gap(*c) {
            return rest;
        }
        rest = after;
    }
    rest
}

/// The text after the blanks in front.
pub(crate) fn after_blanks(text: &[Rune]) -> &[Rune]
    ensures { result.now ≡ after_blanks text.now }
{
    let mut rest = text;
    while let [c, after @ ..] = rest {
        if *c != SPACE {
            return rest;
        }
        rest = after;
    }
    rest
}

/// The text without the blanks at its end.
pub(crate) fn trimmed(text: &[Rune]) -> &[Rune]
    ensures { result.now ≡ trimmed text.now }
{
    let mut end = text.len();
    while end > 0 && text[end - 1] == SPACE {
        end -= 1;
    }
    text.split_at(end).0
}

/// Whether a line has blanks and tabs alone.
pub(crate) fn is_blank_line(line: &[Rune]) -> bool
    ensures { result ≡ is_blank_line line.now }
{
    line.iter().all(|c| is_gap(*c))
}

/// Whether a line begins with `#`.
pub(crate) fn is_comment(line: &[Rune]) -> bool
    ensures { result ≡ is_comment line.now }
{
    match line {
        [c, ..] => *c == HASH,
        [] => false,
    }
}

pub(crate) fn begins_with_digit(text: &[Rune]) -> bool
    ensures { result ≡ begins_with_digit text.now }
{
    match text {
        [c, ..] => is_digit(*c),
        [] => false,
    }
}
