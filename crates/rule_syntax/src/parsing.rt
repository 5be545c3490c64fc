//! Texts of rules, line by line.

ghost use Rattle.std.specs.Prelude.{◌≡◌, IfOk, IfErr, Ok, option_copied};
ghost use Rattle.am_text.specs.Lines.{lines_of};
ghost use Rattle.am_text.specs.Utf8.{decode};
ghost use Rattle.rule_syntax.specs.Parsing.{after_equals, value_text, defined, rule_added, rule_judged, rule_told};
ghost use Rattle.rule_syntax.specs.Parsing.{rule_from, rule_line, definition_or_rule, set_ended, line_read, told};
ghost use Rattle.rule_syntax.specs.Parsing.{end_told, lines_read, begun, rules_of, Refuses};

use crate::argument::{argument_of, runes_of};
use crate::expression::Judged;
use crate::fault::RuleFault;
use crate::fit::Fit;
use crate::read_rule::{ReadRule, RuleSets, Rules};
use crate::rule::{Argument, Rule, Var, Vars, Verb};
use crate::verbs::{argument_judged, is_repeated, needs_none, plumbs, verb_of};
use crate::words::{
    after_blanks, after_gaps, begins_with_digit, cut_line, is_blank_line, is_comment, split_name,
    split_word, trimmed,
};
use am_text::{EQUALS, NoMemory, Rune, Runes, decode_whole};
use std::alloc::Global;

/// What the lines so far gave: the sets, the rules of the set that is read, the variables, and whether an expression is
/// too large.
#[derive(Drop)]
pub struct State {
    pub sets: RuleSets,
    pub rules: Rules,
    pub vars: Vars,
    pub large: bool,
}

// The text after a `=` and the blanks behind it.
fn after_equals(text: &[Rune]) -> Option<&[Rune]>
    ensures { option_copied result ≡ after_equals text.now }
{
    match text {
        [EQUALS, rest @ ..] => Some(after_blanks(rest)),
        _ => None,
    }
}

// The text of the value, where the line defines a variable.
fn value_text(line: &[Rune]) -> Option<&[Rune]>
    ensures { option_copied result ≡ value_text line.now }
{
    let (name, rest) = split_name(line);
    if name.is_empty() || begins_with_digit(line) {
        return None;
    }
    after_equals(after_blanks(rest))
}

fn defined(
    alloc: Global,
    state: State,
    name: &[Rune],
    value: Option<Argument>,
) -> Result<Option<State>, NoMemory>
    ensures { IfOk result (λ s. s ≡ defined state name.now value) }
{
    let Some(pieces) = value else {
        return Ok(None);
    };
    let var = Var {
        name: Runes::copied(alloc, name)?,
        value: runes_of(alloc, pieces.as_slice())?,
    };
    let mut state = state;
    state.vars.push(var)?;
    Ok(Some(state))
}

// A set has some rules once.
fn rule_added(state: State, rule: ReadRule, large: bool) -> Result<Option<State>, NoMemory>
    ensures { IfOk result (λ s. s ≡ rule_added state rule large) }
{
    if is_repeated(rule.get().verb, state.rules.as_slice()) {
        return Ok(None);
    }
    let mut state = state;
    state.rules.push(rule)?;
    state.large = state.large || large;
    Ok(Some(state))
}

fn rule_judged(state: State, rule: ReadRule, fit: Fit) -> Result<Option<State>, NoMemory>
    ensures { IfOk result (λ s. s ≡ rule_judged state rule fit) }
{
    match fit {
        Fit::Unfit => Ok(None),
        Fit::Fits => rule_added(state, rule, false),
        Fit::TooLarge => rule_added(state, rule, true),
    }
}

fn rule_told(
    alloc: Global,
    state: State,
    verb: Verb,
    argument: Option<Argument>,
) -> Result<Option<State>, NoMemory>
    ensures { IfOk result (λ s. s ≡ rule_told state verb argument) }
{
    let Some(argument) = argument else {
        return Ok(None);
    };
    let Judged { fit, edges } = argument_judged(alloc, verb, argument.as_slice())?;
    rule_judged(state, ReadRule::new(Rule { verb, argument }, edges), fit)
}

fn rule_from(
    alloc: Global,
    state: State,
    verb: Option<Verb>,
    raw: &[Rune],
) -> Result<Option<State>, NoMemory>
    ensures { IfOk result (λ s. s ≡ rule_from state verb raw.now) }
{
    let Some(verb) = verb else {
        return Ok(None);
    };
    if trimmed(raw).is_empty() && !needs_none(verb) {
        return Ok(None);
    }
    let argument = argument_of(alloc, state.vars.as_slice(), raw)?;
    rule_told(alloc, state, verb, argument)
}

// Object, verb and argument, with blanks or tabs between.
fn rule_line(alloc: Global, state: State, line: &[Rune]) -> Result<Option<State>, NoMemory>
    ensures { IfOk result (λ s. s ≡ rule_line state line.now) }
{
    let (object, rest) = split_word(line);
    let (word, rest) = split_word(after_gaps(rest));
    rule_from(alloc, state, verb_of(object, word), after_gaps(rest))
}

fn definition_or_rule(alloc: Global, state: State, line: &[Rune]) -> Result<Option<State>, NoMemory>
    ensures { IfOk result (λ s. s ≡ definition_or_rule state line.now (value_text line.now)) }
{
    match value_text(line) {
        None => rule_line(alloc, state, line),
        Some(raw) => {
            let value = argument_of(alloc, state.vars.as_slice(), raw)?;
            defined(alloc, state, split_name(line).0, value)
        }
    }
}

fn set_ended(alloc: Global, state: State) -> Result<Option<State>, NoMemory>
    ensures { IfOk result (λ s. s ≡ set_ended state) }
{
    if state.rules.is_empty() {
        return Ok(Some(state));
    }
    if !plumbs(state.rules.as_slice()) {
        return Ok(None);
    }
    let State {
        mut sets,
        rules,
        vars,
        large,
    } = state;
    sets.push(rules)?;
    Ok(Some(State {
        sets,
        rules: Rules::new(alloc),
        vars,
        large,
    }))
}

#[tactic(auto, unfolding(crate::specs::Parsing::line_read))]
fn line_read(alloc: Global, state: State, line: &[Rune]) -> Result<Option<State>, NoMemory>
    ensures { IfOk result (λ s. s ≡ line_read state line.now) }
{
    if is_blank_line(line) {
        return set_ended(alloc, state);
    }
    if is_comment(line) {
        return Ok(Some(state));
    }
    definition_or_rule(alloc, state, line)
}

// The sets and the variables, at the end of the text.
fn end_told(alloc: Global, state: State, lines: usize) -> Result<(RuleSets, Vars), RuleFault>
    ensures ok { IfOk result (λ x. end_told lines (set_ended state) ≡ Ok x) }
    ensures refused { IfErr result (λ e. Refuses e (end_told lines (set_ended state))) }
{
    let Some(state) = set_ended(alloc, state)? else {
        return Err(RuleFault::Bad(lines));
    };
    if state.large {
        return Err(RuleFault::Nodes);
    }
    let State { sets, vars, .. } = state;
    Ok((sets, vars))
}

fn copied_var(alloc: Global, var: &Var) -> Result<Var, NoMemory>
    ensures { IfOk result (λ v. v ≡ var.now) }
{
    Ok(Var {
        name: Runes::copied(alloc, var.name.as_slice())?,
        value: Runes::copied(alloc, var.value.as_slice())?,
    })
}

#[tactic(auto, using(crate::proofs::ParsingLemmas::vars))]
fn copied_vars(alloc: Global, vars: &[Var]) -> Result<Vars, NoMemory>
    ensures { IfOk result (λ new. new ≡ vars.now) }
{
    let mut new = Vars::new(alloc);
    for var in vars {
        new.push(copied_var(alloc, var)?)?;
    }
    Ok(new)
}

fn begun(alloc: Global, known: &[Var]) -> Result<State, NoMemory>
    ensures { IfOk result (λ s. s ≡ begun known.now) }
{
    Ok(State {
        sets: RuleSets::new(alloc),
        rules: Rules::new(alloc),
        vars: copied_vars(alloc, known)?,
        large: false,
    })
}

#[tactic(auto, using(crate::proofs::ParsingLemmas::lines))]
fn lines_read(alloc: Global, state: State, text: &[Rune]) -> Result<(RuleSets, Vars), RuleFault>
    ensures ok { IfOk result (λ x. lines_read 0 state (lines_of text.now) ≡ Ok x) }
    ensures refused { IfErr result (λ e. Refuses e (lines_read 0 state (lines_of text.now))) }
{
    let mut state = state;
    let mut rest = text;
    let mut lines = 0;
    // Each line takes a rune at least, so there are no more lines than this.
    let _most = text.len();
    while !rest.is_empty() {
        let (line, after) = cut_line(rest);
        lines += 1;
        match line_read(alloc, state, line)? {
            Some(next) => state = next,
            None => return Err(RuleFault::Bad(lines)),
        }
        rest = after;
    }
    end_told(alloc, state, lines)
}

/// The sets of a text of rules, and the variables after it. The text is read as UTF-8, and its variables come after
/// those that were known. An expression without variables that are replaced when matched has to be one.
pub fn parse_rules(alloc: Global, text: &[u8], known: &Vars) -> Result<(RuleSets, Vars), RuleFault>
    ensures ok { IfOk result (λ x. rules_of (decode text.now) known.now ≡ Ok x) }
    ensures refused { IfErr result (λ e. Refuses e (rules_of (decode text.now) known.now)) }
{
    let text = decode_whole(alloc, text)?;
    let state = begun(alloc, known.as_slice())?;
    lines_read(alloc, state, text.as_slice())
}
