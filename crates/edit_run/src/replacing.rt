//! What `s` puts in the place of a match.

ghost use Rattle.std.specs.Prelude.{◌≡◌, ◌≤◌, ◌++◌, true, false, length, slice_index_or, None, IfOk, OnOk};
ghost use Rattle.re_syntax.specs.Tree.{tree};
ghost use Rattle.re_syntax.specs.Match.{Matches};
ghost use Rattle.re_spans.specs.Groups.{groups_of};
ghost use Rattle.edit_run.specs.Replacing.{text_of, group_text, is_group, plain, escaped, expand, names_group};
ghost use Rattle.edit_run.specs.Replacing.{substitute};

use crate::texts::text_at;
use am_text::{
    AMPERSAND, BACKSLASH, DIGIT_0, DIGIT_9, Items, LETTER_N, Letters, NEWLINE, NoMemory, Range,
    Rune, Runes,
};
use re_spans::{Groups, Re, groups};
use std::alloc::Global;

// Whether the rune is one of `1` to `9`.
fn is_group(rune: Rune) -> bool
    ensures { result ≡ is_group rune }
{
    DIGIT_0 < rune && rune <= DIGIT_9
}

// Whether a text names a group.
fn names_group(with: &[Rune]) -> bool
    ensures { result ≡ names_group false with.now }
{
    let mut behind = false;
    let mut rest = with;
    while let [rune, after @ ..] = rest {
        if behind && is_group(*rune) {
            return true;
        }
        behind = !behind && *rune == BACKSLASH;
        rest = after;
    }
    false
}

// The groups of a match, where they are wanted.
fn groups_wanted<T: Letters>(
    alloc: Global,
    re: &Re,
    text: &T,
    span: Range,
    are_wanted: bool,
) -> Result<Groups, NoMemory>
    requires order { span.q0 ≤ span.q1 }
    requires within { span.q1 ≤ length (T.letters text.now) }
    requires matches { Matches (tree re.now) (T.letters text.now) span.q0 span.q1 }
    ensures { IfOk result (λ all. are_wanted ≡ true → all ≡ groups_of (tree re.now) (T.letters text.now) span) }
{
    if are_wanted {
        let all = groups(alloc, re, text, span)?;
        Ok(all)
    } else {
        Ok(Items::new(alloc))
    }
}

// The range of a group, where it took part.
fn group_at(groups: &[Option<Range>], number: usize) -> Option<Range>
    ensures { result ≡ slice_index_or groups.now number None }
{
    if number < groups.len() {
        groups[number]
    } else {
        None
    }
}

// Puts the text of a group at the end, where it took part.
fn put_group<T: Letters>(
    alloc: Global,
    text: &T,
    group: Option<Range>,
    made: &mut Runes,
) -> Result<(), NoMemory>
    ensures { OnOk result (made.new ≡ made.old ++ text_of (T.letters text.now) group) }
{
    match group {
        Some(range) => made.append(text_at(alloc, text, range)?.as_slice()),
        None => Ok(()),
    }
}

// Puts what a rune stands for behind no backslash.
fn put_plain(rune: Rune, whole: &[Rune], made: &mut Runes) -> Result<(), NoMemory>
    ensures { OnOk result (made.new ≡ made.old ++ plain whole.now rune) }
{
    if rune == AMPERSAND {
        made.append(whole)
    } else {
        made.push(rune)
    }
}

// Puts what a rune stands for behind a backslash.
fn put_escaped<T: Letters>(
    alloc: Global,
    text: &T,
    groups: &[Option<Range>],
    rune: Rune,
    made: &mut Runes,
) -> Result<(), NoMemory>
    ensures { OnOk result (made.new ≡ made.old ++ escaped (group_text (T.letters text.now) groups.now) rune) }
{
    if is_group(rune) {
        let group = group_at(groups, (rune - DIGIT_0) as usize);
        return put_group(alloc, text, group, made);
    }
    if rune == LETTER_N {
        made.push(NEWLINE)
    } else {
        made.push(rune)
    }
}

// The text that is written so, for a match with this text and these groups.
#[tactic(auto, using(crate::proofs::Naming::writing))]
fn expand<T: Letters>(
    alloc: Global,
    text: &T,
    with: &[Rune],
    whole: &[Rune],
    groups: &[Option<Range>],
) -> Result<Runes, NoMemory>
    ensures { IfOk result (λ made. made ≡ expand whole.now (group_text (T.letters text.now) groups.now)
        false with.now) }
{
    let mut made = Items::new(alloc);
    let mut behind = false;
    let mut rest = with;
    while let [rune, after @ ..] = rest {
        if behind {
            put_escaped(alloc, text, groups, *rune, &mut made)?;
            behind = false;
        } else if *rune == BACKSLASH {
            behind = true;
        } else {
            put_plain(*rune, whole, &mut made)?;
        }
        rest = after;
    }
    if behind {
        made.push(BACKSLASH)?;
    }
    Ok(made)
}

/// What takes the place of a match: the text as it is written, in which `&` is the match, `\1` to `\9` are its groups,
/// `\n` is a newline, and `\` before any other rune is that rune.
#[tactic(auto, using(crate::proofs::Naming::substituted_by))]
pub fn substitute<T: Letters>(
    alloc: Global,
    re: &Re,
    text: &T,
    with: &[Rune],
    span: Range,
) -> Result<Runes, NoMemory>
    requires order { span.q0 ≤ span.q1 }
    requires within { span.q1 ≤ length (T.letters text.now) }
    requires matches { Matches (tree re.now) (T.letters text.now) span.q0 span.q1 }
    ensures { IfOk result (λ made. made ≡ substitute (tree re.now) (T.letters text.now) with.now span) }
{
    let whole = text_at(alloc, text, span)?;
    let groups = groups_wanted(alloc, re, text, span, names_group(with))?;
    expand(alloc, text, with, whole.as_slice(), groups.as_slice())
}
