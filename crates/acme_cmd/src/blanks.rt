//! Blanks, and texts cut at them.

ghost use Rattle.std.specs.Prelude.{◌≡◌, ◌+◌, ◌-◌, ◌≤◌, length};
ghost use Rattle.acme_cmd.specs.Blanks.{is_blank, after_blanks, word, after_word, end_of, trimmed, IsIn};

use am_text::{NEWLINE, Range, Rune, SPACE, TAB};

pub(crate) fn is_blank(rune: Rune) -> bool
    ensures { result ≡ is_blank rune }
{
    rune == SPACE || rune == TAB || rune == NEWLINE
}

// The text after the blanks in front.
pub(crate) fn after_blanks(text: &[Rune]) -> &[Rune]
    ensures exact { result.now ≡ after_blanks text.now }
    ensures inside { length result.now ≤ length text.now }
{
    let mut rest = text;
    while let [rune, after @ ..] = rest {
        if !is_blank(*rune) {
            return rest;
        }
        rest = after;
    }
    rest
}

// The text up to its first blank, and from there on.
pub(crate) fn split_word(text: &[Rune]) -> (&[Rune], &[Rune])
    ensures front { result.0.now ≡ word text.now }
    ensures rest { result.1.now ≡ after_word text.now }
    ensures inside { length result.1.now ≤ length text.now }
{
    let mut at = 0;
    for rune in text {
        if is_blank(*rune) {
            return text.split_at(at);
        }
        at += 1;
    }
    text.split_at(at)
}

// How long the text is without the blanks at its end.
fn end_of(text: &[Rune]) -> usize
    ensures exact { result ≡ end_of text.now }
    ensures inside { result ≤ length text.now }
{
    let mut end = text.len();
    while end > 0 && is_blank(text[end - 1]) {
        end -= 1;
    }
    end
}

// Where the end of a text stands in it, without the blanks at both its ends.
pub(crate) fn trimmed(text: &[Rune], rest: &[Rune]) -> Range
    requires { length rest.now ≤ length text.now }
    ensures exact { result ≡ trimmed text.now rest.now }
    ensures inside { IsIn (length text.now) result }
{
    let argument = after_blanks(rest);
    let q0 = text.len() - argument.len();
    Range {
        q0,
        q1: q0 + end_of(argument),
    }
}
