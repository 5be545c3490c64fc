//! What each verb does to the state, and whether the rule holds.

ghost use Rattle.std.specs.Prelude.{◌≡◌, true, IfOk, OnOk, IsTrue};
ghost use Rattle.re_syntax.specs.Tree.{tree};
ghost use Rattle.plumb_rules.specs.Patterns.{click_span, IsMatchIn};
ghost use Rattle.rule_syntax.specs.Edged.{NeverMatches};
ghost use Rattle.rule_syntax.specs.declared.rule.Verb.TheVariants as verbs;
ghost use Rattle.plumb_rules.specs.Refused.{IsRefused};
ghost use Rattle.plumb_rules.specs.Fields as fields;
ghost use Rattle.plumb_rules.specs.Unchanged.{keeps_message};
ghost use Rattle.plumb_rules.specs.Verbs.{where_holds, is_text, set, with_match, whole_data, clicked_msg, clicked};
ghost use Rattle.plumb_rules.specs.Verbs.{data_matches, field_matches, tree_matches, matches, isfile, isdir, add};
ghost use Rattle.plumb_rules.specs.Verbs.{delete, to, verb_done, rule_done};

use crate::answer::Way;
use crate::attributes::{Click, click_of, is_absent};
use crate::draft::Draft;
use crate::fields::FieldText;
use crate::matched::Matched;
use crate::matching::{click_span, is_whole};
use crate::pattern::pattern_of;
use crate::state::State;
use crate::texts::{argument_text, data_name, has_group, part_of, whole_name};
use am_text::{Items, NoMemory, Range, Runes, encode};
use name_tree::Tree;
use plumb_msg::{PlumbMsg, read_attrs};
use re_syntax::Re;
use rule_syntax::{Field, Piece, ReadRule, Verb};
use std::alloc::Global;

/// Whether a rule with this verb leaves the message as it is, where it holds.
pub fn keeps_message(msg: &PlumbMsg, verb: Verb) -> bool
    ensures { result ≡ keeps_message msg.now verb }
{
    match verb {
        Verb::Is(_) => true,
        Verb::Matches(Field::Src) => true,
        Verb::Matches(Field::Dst) => true,
        Verb::Matches(Field::Wdir) => true,
        Verb::Matches(Field::Sort) => true,
        Verb::Matches(Field::Data) => is_absent(click_of(msg.attrs.as_slice())),
        Verb::Set(_) => false,
        Verb::ArgIsFile => true,
        Verb::ArgIsDir => true,
        Verb::DataIsFile => true,
        Verb::DataIsDir => true,
        Verb::Add => false,
        Verb::Delete => false,
        Verb::To => true,
        Verb::Start => true,
        Verb::Client => true,
    }
}

// The text is that of the field.
#[tactic(auto, unfolding(crate::specs::Verbs::is_text))]
fn is_text(alloc: Global, state: &State, field: Field, text: &Runes) -> Result<bool, NoMemory>
    ensures { IfOk result (λ holds. where_holds state.now holds ≡ is_text state.now field text.now) }
{
    let present = state.msg.text(alloc, field)?;
    Ok(present.get().as_slice() == text.as_slice())
}

// The field gets the text.
#[tactic(auto, unfolding(crate::specs::Verbs::set))]
fn set(alloc: Global, state: &mut State, field: Field, text: &Runes) -> Result<bool, NoMemory>
    ensures { IfOk result (λ holds. where_holds state.new holds ≡ set state.old field text.now) }
{
    state.msg.set(alloc, field, text)?;
    Ok(true)
}

// With the match of a text.
fn with_match<'a>(state: &mut State<'a>, re: Re, text: FieldText<'a>, found: Range)
    requires { IsMatchIn (tree re) text found }
    ensures { state.new ≡ with_match state.old (tree re) text.entry found }
{
    state.matched = Some(Matched::new(re, text, found));
}

// The whole data match.
#[tactic(auto, unfolding(crate::specs::Verbs::whole_data))]
fn whole_data<'a>(
    alloc: Global,
    state: &mut State<'a>,
    re: Re,
    text: FieldText<'a>,
) -> Result<bool, NoMemory>
    ensures { IfOk result (λ holds. where_holds state.new holds ≡ whole_data state.old (tree re) text.entry) }
{
    if !is_whole(alloc, &re, text.get())? {
        return Ok(false);
    }
    let found = Range {
        q0: 0,
        q1: text.get().len(),
    };
    with_match(state, re, text, found);
    Ok(true)
}

// The data become the match at the click, and the click goes.
fn click(alloc: Global, msg: &mut Draft, text: &Runes, found: Range) -> Result<(), NoMemory>
    ensures { OnOk result (msg.new ≡ clicked_msg msg.old text.now found) }
{
    let part = Items::copied(alloc, part_of(text.as_slice(), found))?;
    msg.set(alloc, Field::Data, &part)?;
    msg.unclick(alloc)
}

#[tactic(auto, unfolding(crate::specs::Verbs::clicked))]
fn clicked<'a>(
    alloc: Global,
    state: &mut State<'a>,
    re: Re,
    text: FieldText<'a>,
    at: u64,
) -> Result<bool, NoMemory>
    ensures { IfOk result (λ holds. where_holds state.new holds ≡ clicked state.old (tree re) text.entry
        (click_span (tree re) text.entry at)) }
{
    let Some(found) = click_span(alloc, &re, text.get(), at)? else {
        return Ok(false);
    };
    click(alloc, &mut state.msg, text.get(), found)?;
    with_match(state, re, text, found);
    Ok(true)
}

#[tactic(auto, unfolding(crate::specs::Verbs::data_matches))]
fn data_matches(alloc: Global, state: &mut State, re: Re) -> Result<bool, NoMemory>
    ensures { IfOk result (λ holds. where_holds state.new holds ≡ data_matches state.old (tree re)) }
{
    let text = state.msg.text(alloc, Field::Data)?;
    match click_of(state.msg.get().attrs.as_slice()) {
        Click::Absent => whole_data(alloc, state, re, text),
        Click::Unread => Ok(false),
        Click::At(at) => clicked(alloc, state, re, text, at),
    }
}

#[tactic(auto, unfolding(crate::specs::Verbs::field_matches))]
fn field_matches(alloc: Global, state: &State, field: Field, re: &Re) -> Result<bool, NoMemory>
    ensures { IfOk result (λ holds. where_holds state.now holds ≡ field_matches state.now field (tree re.now)) }
{
    let text = state.msg.text(alloc, field)?;
    is_whole(alloc, re, text.get())
}

#[tactic(auto, unfolding(crate::specs::Verbs::tree_matches))]
fn tree_matches(alloc: Global, state: &mut State, field: Field, re: Re) -> Result<bool, NoMemory>
    ensures { IfOk result (λ holds. where_holds state.new holds ≡ tree_matches state.old field (tree re)) }
{
    match field {
        Field::Src => field_matches(alloc, state, Field::Src, &re),
        Field::Dst => field_matches(alloc, state, Field::Dst, &re),
        Field::Wdir => field_matches(alloc, state, Field::Wdir, &re),
        Field::Sort => field_matches(alloc, state, Field::Sort, &re),
        Field::Data => data_matches(alloc, state, re),
    }
}

// The text is a pattern that matches.
#[tactic(auto, unfolding(crate::specs::Verbs::matches))]
fn matches(alloc: Global, state: &mut State, field: Field, text: &Runes) -> Result<bool, NoMemory>
    ensures { IfOk result (λ holds. where_holds state.new holds ≡ matches state.old field text.now) }
{
    match pattern_of(alloc, text.as_slice())? {
        None => Ok(false),
        Some(re) => tree_matches(alloc, state, field, re),
    }
}

// The name is that of a file.
#[tactic(auto, unfolding(crate::specs::Verbs::isfile))]
fn isfile(alloc: Global, tree: &Tree, state: &mut State, name: Runes) -> Result<bool, NoMemory>
    ensures { IfOk result (λ holds. where_holds state.new holds ≡ isfile tree.now.present state.old name) }
{
    if !tree.is_file(encode(alloc, &name)?.as_slice()) {
        return Ok(false);
    }
    state.file = Some(name);
    Ok(true)
}

// The name is that of a directory.
#[tactic(auto, unfolding(crate::specs::Verbs::isdir))]
fn isdir(alloc: Global, tree: &Tree, state: &mut State, name: Runes) -> Result<bool, NoMemory>
    ensures { IfOk result (λ holds. where_holds state.new holds ≡ isdir tree.now.present state.old name) }
{
    if !tree.is_directory(encode(alloc, &name)?.as_slice()) {
        return Ok(false);
    }
    state.dir = Some(name);
    Ok(true)
}

// The attributes of a line are put.
#[tactic(auto, unfolding(crate::specs::Verbs::add))]
fn add(alloc: Global, state: &mut State, text: &Runes) -> Result<bool, NoMemory>
    ensures { IfOk result (λ holds. where_holds state.new holds ≡ add state.old text.now) }
{
    let line = encode(alloc, text)?;
    let Some(more) = read_attrs(alloc, line.as_slice())? else {
        return Ok(false);
    };
    state.msg.add(alloc, more.as_slice())?;
    Ok(true)
}

// The attribute with this name goes.
#[tactic(auto, unfolding(crate::specs::Verbs::delete))]
fn delete(alloc: Global, state: &mut State, text: &Runes) -> Result<bool, NoMemory>
    ensures { IfOk result (λ holds. where_holds state.new holds ≡ delete state.old text.now) }
{
    let name = encode(alloc, text)?;
    state.msg.delete(alloc, name.as_slice())?;
    Ok(true)
}

#[tactic(auto, unfolding(crate::specs::Verbs::to))]
fn to(alloc: Global, state: &mut State, text: &Runes) -> Result<bool, NoMemory>
    ensures { IfOk result (λ holds. where_holds state.new holds ≡ to state.old text.now) }
{
    state.port = Some(encode(alloc, text)?);
    Ok(true)
}

fn verb_done(
    alloc: Global,
    tree: &Tree,
    state: &mut State,
    verb: Verb,
    text: Runes,
) -> Result<bool, NoMemory>
    ensures { IfOk result (λ holds. where_holds state.new holds ≡ verb_done tree.now.present state.old verb text) }
{
    match verb {
        Verb::Is(field) => is_text(alloc, state, field, &text),
        Verb::Matches(field) => matches(alloc, state, field, &text),
        Verb::Set(field) => set(alloc, state, field, &text),
        Verb::ArgIsFile => {
            let name = whole_name(alloc, &state.msg, text.as_slice())?;
            isfile(alloc, tree, state, name)
        }
        Verb::ArgIsDir => {
            let name = whole_name(alloc, &state.msg, text.as_slice())?;
            isdir(alloc, tree, state, name)
        }
        Verb::DataIsFile => {
            let name = data_name(alloc, &state.msg)?;
            isfile(alloc, tree, state, name)
        }
        Verb::DataIsDir => {
            let name = data_name(alloc, &state.msg)?;
            isdir(alloc, tree, state, name)
        }
        Verb::Add => add(alloc, state, &text),
        Verb::Delete => delete(alloc, state, &text),
        Verb::To => to(alloc, state, &text),
        Verb::Start => {
            state.way = Way::Start(text);
            Ok(true)
        }
        Verb::Client => {
            state.way = Way::Client(text);
            Ok(true)
        }
    }
}

// Whether the edges of a rule's expression tell that it doesn't match the field.
fn never_matches(
    alloc: Global,
    state: &State,
    rule: &ReadRule,
    field: Field,
) -> Result<bool, NoMemory>
    ensures { IfOk result (λ never. IsTrue never → NeverMatches rule.now.argument
        (fields.field_text state.now.msg field)) }
{
    let present = state.msg.text(alloc, field)?;
    Ok(rule.never_matches(present.get().as_slice()))
}

// The same of a rule that has the field, where a part of it isn't enough.
fn field_refused(
    alloc: Global,
    state: &State,
    rule: &ReadRule,
    field: Field,
) -> Result<bool, NoMemory>
    requires field { rule.now.verb ≡ verbs.Matches field }
    requires keeps { keeps_message state.now.msg (verbs.Matches field) ≡ true }
    ensures { IfOk result (λ refused. IsTrue refused → IsRefused state.now rule.now) }
{
    let never = never_matches(alloc, state, rule, field)?;
    Ok(never)
}

// Whether it is known before the expression of a rule is read that the rule doesn't hold. At a click a part of the data
// is enough.
fn is_refused(alloc: Global, state: &State, rule: &ReadRule) -> Result<bool, NoMemory>
    ensures { IfOk result (λ refused. IsTrue refused → IsRefused state.now rule.now) }
{
    let Verb::Matches(field) = rule.get().verb else {
        return Ok(false);
    };
    if !keeps_message(state.msg.get(), Verb::Matches(field)) {
        return Ok(false);
    }
    field_refused(alloc, state, rule, field)
}

// Finds the groups of the last match where an argument has one of them.
fn find_groups(alloc: Global, state: &mut State, pieces: &[Piece]) -> Result<(), NoMemory>
    ensures { OnOk result (state.new ≡ state.old) }
{
    if !has_group(pieces) {
        return Ok(());
    }
    if let Some(found) = &mut state.matched {
        found.find_groups(alloc)?;
    }
    Ok(())
}

/// Does a rule to the state, and answers whether it holds. Where it doesn't, the state is of no use any more.
pub fn rule_done(
    alloc: Global,
    tree: &Tree,
    state: &mut State,
    rule: &ReadRule,
) -> Result<bool, NoMemory>
    ensures { IfOk result (λ holds. where_holds state.new holds ≡ rule_done tree.now.present state.old rule.now) }
{
    if is_refused(alloc, state, rule)? {
        return Ok(false);
    }
    let rule = rule.get();
    let pieces = rule.argument.as_slice();
    find_groups(alloc, state, pieces)?;
    let text = argument_text(alloc, state, pieces)?;
    verb_done(alloc, tree, state, rule.verb, text)
}
