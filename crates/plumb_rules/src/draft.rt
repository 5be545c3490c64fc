//! A message while the rules of a set are done.

ghost use Rattle.std.specs.Prelude.{◌≡◌, IfOk, OnOk, None};
ghost use Rattle.plumb_rules.specs.Attributes.{with_attrs, without_attr, unclicked};
ghost use Rattle.plumb_rules.specs.Drafts.{changed_or};
ghost use Rattle.plumb_rules.specs.Fields.{field_text, with_field, texts_of};

use crate::attributes::{unclicked, with_attrs, without_attr};
use crate::fields::{
    FieldText, FieldTexts, SameFields, except, field_text, is_same, text_in, with_field,
};
use crate::message::copied_msg;
use am_text::{NoMemory, Runes};
use plumb_msg::{Attr, PlumbMsg};
use rule_syntax::Field;
use std::alloc::Global;
use std::marker::Model;

/// A message that rules may change. It is copied at the first change, and the text of a field is decoded anew only where
/// a rule has set that field.
#[derive(Drop)]
pub struct Draft<'a> {
    /// The one that was given.
    given: &'a PlumbMsg,
    /// The texts of its fields.
    texts: &'a FieldTexts,
    /// What the rules made of it.
    changed: Option<PlumbMsg>,
    /// The fields that no rule has set.
    same: SameFields,
}

impl<'a> Model for Draft<'a> {
    ghost use Rattle.std.specs.Prelude.{◌≡◌};
    ghost use Rattle.plumb_msg.specs.declared.message.PlumbMsg.{PlumbMsg};
    ghost use Rattle.plumb_rules.specs.Drafts.{changed_or, AreSame};
    ghost use Rattle.plumb_rules.specs.Fields.{texts_of};

    ghost Value = { PlumbMsg };

    ghost view = { λ d. changed_or d.changed d.given.now };

    ghost invariant = { λ d. (d.texts.now ≡ texts_of d.given.now) × AreSame d.same d.given.now
        (changed_or d.changed d.given.now) };
}

// The message itself, out of its place: a copy of the one that was given, where no rule has changed it yet.
fn taken(
    alloc: Global,
    changed: &mut Option<PlumbMsg>,
    given: &PlumbMsg,
) -> Result<PlumbMsg, NoMemory>
    ensures msg { IfOk result (λ msg. msg ≡ changed_or changed.old given.now) }
    ensures none { changed.new ≡ None }
{
    match changed.take() {
        None => copied_msg(alloc, given),
        Some(msg) => Ok(msg),
    }
}

impl<'a> Draft<'a> {
    /// The message that is given, with the texts of its fields.
    #[tactic(auto, using(crate::proofs::Drafting::drafting))]
    pub fn given(msg: &'a PlumbMsg, texts: &'a FieldTexts) -> Self
        requires { texts.now ≡ texts_of msg.now }
        ensures { result ≡ msg.now }
    {
        Draft {
            given: msg,
            texts,
            changed: None,
            same: SameFields {
                src: true,
                dst: true,
                wdir: true,
                sort: true,
                data_text: true,
            },
        }
    }

    /// The message as it is now.
    pub fn get(&self) -> &PlumbMsg
        ensures { result.now ≡ self.now }
    {
        match &self.changed {
            None => self.given,
            Some(msg) => msg,
        }
    }

    /// The text of a field.
    #[tactic(auto, using(crate::proofs::Drafting::drafting))]
    pub fn text(&self, alloc: Global, field: Field) -> Result<FieldText<'a>, NoMemory>
        ensures { IfOk result (λ text. text ≡ field_text self.now field) }
    {
        let given = text_in(self.texts, field);
        if is_same(self.same, field) {
            return Ok(FieldText::given(given));
        }
        let text = field_text(alloc, self.get(), field)?;
        Ok(FieldText::anew(given, text))
    }

    /// A field gets a text.
    #[tactic(auto, using(crate::proofs::Drafting::drafting))]
    pub fn set(&mut self, alloc: Global, field: Field, text: &Runes) -> Result<(), NoMemory>
        ensures { OnOk result (self.new ≡ with_field self.old field text.now) }
    {
        let msg = taken(alloc, &mut self.changed, self.given)?;
        let msg = with_field(alloc, msg, field, text)?;
        self.changed = Some(msg);
        self.same = except(self.same, field);
        Ok(())
    }

    /// It gets attributes, each in place of the one with its name, or at the end.
    #[tactic(auto, using(crate::proofs::Drafting::drafting))]
    pub fn add(&mut self, alloc: Global, more: &[Attr]) -> Result<(), NoMemory>
        ensures { OnOk result (self.new ≡ record self.old { attrs = with_attrs self.old.attrs more.now }) }
    {
        let msg = taken(alloc, &mut self.changed, self.given)?;
        let attrs = with_attrs(alloc, msg.attrs, more)?;
        self.changed = Some(PlumbMsg { attrs, ..msg });
        Ok(())
    }

    /// It loses the attribute with this name.
    #[tactic(auto, using(crate::proofs::Drafting::drafting))]
    pub fn delete(&mut self, alloc: Global, name: &[u8]) -> Result<(), NoMemory>
        ensures { OnOk result (self.new ≡ record self.old { attrs = without_attr name.now self.old.attrs }) }
    {
        let msg = taken(alloc, &mut self.changed, self.given)?;
        let attrs = without_attr(msg.attrs, name);
        self.changed = Some(PlumbMsg { attrs, ..msg });
        Ok(())
    }

    /// It loses the click.
    #[tactic(auto, using(crate::proofs::Drafting::drafting))]
    pub fn unclick(&mut self, alloc: Global) -> Result<(), NoMemory>
        ensures { OnOk result (self.new ≡ record self.old { attrs = unclicked self.old.attrs }) }
    {
        let msg = taken(alloc, &mut self.changed, self.given)?;
        let attrs = unclicked(msg.attrs);
        self.changed = Some(PlumbMsg { attrs, ..msg });
        Ok(())
    }

    /// The message itself: a copy of the one that was given, where no rule has changed it.
    pub fn into_msg(self, alloc: Global) -> Result<PlumbMsg, NoMemory>
        ensures { IfOk result (λ msg. msg ≡ self.entry) }
    {
        match self.changed {
            None => copied_msg(alloc, self.given),
            Some(msg) => Ok(msg),
        }
    }
}
