//! Objects and verbs of rules, and what their arguments have to be.

ghost use Rattle.std.specs.Prelude.{◌≡◌, true, IfOk, IfSome};
ghost use Rattle.rule_syntax.specs.Arguments as arguments;
ghost use Rattle.rule_syntax.specs.Expressions.{size_of, size_fit};
ghost use Rattle.rule_syntax.specs.Edged.{AreEdgesOf, without_edges};
ghost use Rattle.rule_syntax.specs.Verbs.{field_of, text_verb, data_verb, field_verb, arg_verb, attr_verb, plumb_verb};
ghost use Rattle.rule_syntax.specs.Verbs.{verb_of, needs_none, is_port_rune, are_port_runes, is_taken, is_port_name};
ghost use Rattle.rule_syntax.specs.Verbs.{pattern_fit, port_fit, argument_fit, is_to, is_request, any_to, any_request};
ghost use Rattle.rule_syntax.specs.Verbs.{is_repeated, plumbs};

use crate::argument::{is_literal, runes_of};
use crate::expression::{Judged, expression_judged};
use crate::fit::Fit;
use crate::read_rule::ReadRule;
use crate::rule::{Field, Piece, Verb};
use crate::words::{is_name_rune, is_word};
use am_text::{DOT, MINUS, NoMemory, Rune};
use std::alloc::Global;

#[tactic(auto, unfolding(crate::specs::Verbs::field_of))]
fn field_of(object: &[Rune]) -> Option<Field>
    ensures { result ≡ field_of object.now }
{
    if is_word(object, b"src") {
        Some(Field::Src)
    } else if is_word(object, b"dst") {
        Some(Field::Dst)
    } else if is_word(object, b"wdir") {
        Some(Field::Wdir)
    } else if is_word(object, b"type") {
        Some(Field::Sort)
    } else if is_word(object, b"data") {
        Some(Field::Data)
    } else {
        None
    }
}

#[tactic(auto, unfolding(crate::specs::Verbs::text_verb))]
fn text_verb(field: Field, word: &[Rune]) -> Option<Verb>
    ensures { result ≡ text_verb field word.now }
{
    if is_word(word, b"is") {
        Some(Verb::Is(field))
    } else if is_word(word, b"matches") {
        Some(Verb::Matches(field))
    } else if is_word(word, b"set") {
        Some(Verb::Set(field))
    } else {
        None
    }
}

#[tactic(auto, unfolding(crate::specs::Verbs::data_verb))]
fn data_verb(word: &[Rune]) -> Option<Verb>
    ensures { result ≡ data_verb word.now }
{
    if is_word(word, b"isfile") {
        Some(Verb::DataIsFile)
    } else if is_word(word, b"isdir") {
        Some(Verb::DataIsDir)
    } else {
        None
    }
}

fn field_verb(field: Option<Field>, word: &[Rune]) -> Option<Verb>
    ensures { result ≡ field_verb field word.now }
{
    match field {
        None => None,
        Some(Field::Src) => text_verb(Field::Src, word),
        Some(Field::Dst) => text_verb(Field::Dst, word),
        Some(Field::Wdir) => text_verb(Field::Wdir, word),
        Some(Field::Sort) => text_verb(Field::Sort, word),
        Some(Field::Data) => match text_verb(Field::Data, word) {
            Some(verb) => Some(verb),
            None => data_verb(word),
        },
    }
}

#[tactic(auto, unfolding(crate::specs::Verbs::arg_verb))]
fn arg_verb(word: &[Rune]) -> Option<Verb>
    ensures { result ≡ arg_verb word.now }
{
    if is_word(word, b"isfile") {
        Some(Verb::ArgIsFile)
    } else if is_word(word, b"isdir") {
        Some(Verb::ArgIsDir)
    } else {
        None
    }
}

#[tactic(auto, unfolding(crate::specs::Verbs::attr_verb))]
fn attr_verb(word: &[Rune]) -> Option<Verb>
    ensures { result ≡ attr_verb word.now }
{
    if is_word(word, b"add") {
        Some(Verb::Add)
    } else if is_word(word, b"delete") {
        Some(Verb::Delete)
    } else {
        None
    }
}

#[tactic(auto, unfolding(crate::specs::Verbs::plumb_verb))]
fn plumb_verb(word: &[Rune]) -> Option<Verb>
    ensures { result ≡ plumb_verb word.now }
{
    if is_word(word, b"to") {
        Some(Verb::To)
    } else if is_word(word, b"start") {
        Some(Verb::Start)
    } else if is_word(word, b"client") {
        Some(Verb::Client)
    } else {
        None
    }
}

/// What an object and a verb are together.
#[tactic(auto, unfolding(crate::specs::Verbs::verb_of))]
pub(crate) fn verb_of(object: &[Rune], word: &[Rune]) -> Option<Verb>
    ensures { result ≡ verb_of object.now word.now }
{
    if is_word(object, b"arg") {
        arg_verb(word)
    } else if is_word(object, b"attr") {
        attr_verb(word)
    } else if is_word(object, b"plumb") {
        plumb_verb(word)
    } else {
        field_verb(field_of(object), word)
    }
}

/// Whether a rule may stand without an argument.
pub(crate) fn needs_none(verb: Verb) -> bool
    ensures { result ≡ needs_none verb }
{
    match verb {
        Verb::DataIsFile => true,
        Verb::DataIsDir => true,
        _ => false,
    }
}

fn is_port_rune(c: Rune) -> bool
    ensures { result ≡ is_port_rune c }
{
    is_name_rune(c) || c == DOT || c == MINUS
}

fn are_port_runes(name: &[Rune]) -> bool
    ensures { result ≡ are_port_runes name.now }
{
    name.iter().all(|c| is_port_rune(*c))
}

fn is_taken(name: &[Rune]) -> bool
    ensures { result ≡ is_taken name.now }
{
    is_word(name, b"send") || is_word(name, b"rules")
}

#[tactic(auto, unfolding(crate::specs::Verbs::is_port_name))]
fn is_port_name(name: &[Rune]) -> bool
    ensures { result ≡ is_port_name name.now }
{
    if 1 <= name.len() && name.len() <= 64 {
        are_port_runes(name) && !is_taken(name)
    } else {
        false
    }
}

// Of an argument that is no expression, or one with variables.
fn without_edges(fit: Fit) -> Judged
    ensures { result ≡ without_edges fit }
{
    Judged { fit, edges: None }
}

// The same of one without variables.
fn literal_judged(alloc: Global, pieces: &[Piece]) -> Result<Judged, NoMemory>
    requires { arguments.is_literal pieces.now ≡ true }
    ensures fit { IfOk result (λ judged. judged.fit ≡ size_fit (size_of (arguments.runes_of pieces.now))) }
    ensures edges { IfOk result (λ judged. IfSome judged.edges (AreEdgesOf pieces.now)) }
{
    let text = runes_of(alloc, pieces)?;
    let judged = expression_judged(alloc, text.as_slice())?;
    Ok(judged)
}

// How an argument fits as an expression, and its edges.
fn pattern_judged(alloc: Global, pieces: &[Piece]) -> Result<Judged, NoMemory>
    ensures fit { IfOk result (λ judged. judged.fit ≡ pattern_fit pieces.now) }
    ensures edges { IfOk result (λ judged. IfSome judged.edges (AreEdgesOf pieces.now)) }
{
    if is_literal(pieces) {
        return literal_judged(alloc, pieces);
    }
    Ok(without_edges(Fit::Fits))
}

fn port_fit(alloc: Global, pieces: &[Piece]) -> Result<Fit, NoMemory>
    ensures { IfOk result (λ fit. fit ≡ port_fit pieces.now) }
{
    if !is_literal(pieces) {
        return Ok(Fit::Unfit);
    }
    if is_port_name(runes_of(alloc, pieces)?.as_slice()) {
        Ok(Fit::Fits)
    } else {
        Ok(Fit::Unfit)
    }
}

/// How an argument fits a verb, and its edges.
pub(crate) fn argument_judged(
    alloc: Global,
    verb: Verb,
    pieces: &[Piece],
) -> Result<Judged, NoMemory>
    ensures fit { IfOk result (λ judged. judged.fit ≡ argument_fit verb pieces.now) }
    ensures edges { IfOk result (λ judged. IfSome judged.edges (AreEdgesOf pieces.now)) }
{
    match verb {
        Verb::Matches(_) => pattern_judged(alloc, pieces),
        Verb::To => Ok(without_edges(port_fit(alloc, pieces)?)),
        _ => Ok(without_edges(Fit::Fits)),
    }
}

fn is_to(verb: Verb) -> bool
    ensures { result ≡ is_to verb }
{
    match verb {
        Verb::To => true,
        _ => false,
    }
}

fn is_request(verb: Verb) -> bool
    ensures { result ≡ is_request verb }
{
    match verb {
        Verb::Start => true,
        Verb::Client => true,
        _ => false,
    }
}

fn any_to(rules: &[ReadRule]) -> bool
    ensures { result ≡ any_to rules.now }
{
    rules.iter().any(|rule| is_to(rule.get().verb))
}

fn any_request(rules: &[ReadRule]) -> bool
    ensures { result ≡ any_request rules.now }
{
    rules.iter().any(|rule| is_request(rule.get().verb))
}

/// Whether a set has a rule already that it may have once: a port, or a command.
pub(crate) fn is_repeated(verb: Verb, rules: &[ReadRule]) -> bool
    ensures { result ≡ is_repeated verb rules.now }
{
    (is_to(verb) && any_to(rules)) || (is_request(verb) && any_request(rules))
}

/// Whether a set has a port or a command.
pub(crate) fn plumbs(rules: &[ReadRule]) -> bool
    ensures { result ≡ plumbs rules.now }
{
    any_to(rules) || any_request(rules)
}
