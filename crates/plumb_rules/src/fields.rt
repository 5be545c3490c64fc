//! The texts of a message's fields.

ghost use Rattle.std.specs.Prelude.{◌≡◌, IfOk};
ghost use Rattle.plumb_rules.specs.Fields.{field_text, with_field, texts_of, text_in, is_same, except};

use am_text::{NoMemory, Runes, decode_whole, encode};
use plumb_msg::PlumbMsg;
use rule_syntax::Field;
use std::alloc::Global;
use std::marker::Model;

/// The text of a field.
pub fn field_text(alloc: Global, msg: &PlumbMsg, field: Field) -> Result<Runes, NoMemory>
    ensures { IfOk result (λ text. text ≡ field_text msg.now field) }
{
    match field {
        Field::Src => decode_whole(alloc, msg.src.as_slice()),
        Field::Dst => decode_whole(alloc, msg.dst.as_slice()),
        Field::Wdir => decode_whole(alloc, msg.wdir.as_slice()),
        Field::Sort => decode_whole(alloc, msg.sort.as_slice()),
        Field::Data => decode_whole(alloc, msg.body.as_slice()),
    }
}

/// The message with this text in a field.
pub fn with_field(
    alloc: Global,
    msg: PlumbMsg,
    field: Field,
    text: &Runes,
) -> Result<PlumbMsg, NoMemory>
    ensures { IfOk result (λ new. new ≡ with_field msg field text.now) }
{
    let bytes = encode(alloc, text)?;
    match field {
        Field::Src => Ok(PlumbMsg { src: bytes, ..msg }),
        Field::Dst => Ok(PlumbMsg { dst: bytes, ..msg }),
        Field::Wdir => Ok(PlumbMsg { wdir: bytes, ..msg }),
        Field::Sort => Ok(PlumbMsg { sort: bytes, ..msg }),
        Field::Data => Ok(PlumbMsg { body: bytes, ..msg }),
    }
}

/// The texts of all fields of a message.
#[derive(Drop)]
pub struct FieldTexts {
    pub src: Runes,
    pub dst: Runes,
    pub wdir: Runes,
    pub sort: Runes,
    pub data_text: Runes,
}

/// The texts of all fields.
pub fn texts_of(alloc: Global, msg: &PlumbMsg) -> Result<FieldTexts, NoMemory>
    ensures { IfOk result (λ texts. texts ≡ texts_of msg.now) }
{
    Ok(FieldTexts {
        src: decode_whole(alloc, msg.src.as_slice())?,
        dst: decode_whole(alloc, msg.dst.as_slice())?,
        wdir: decode_whole(alloc, msg.wdir.as_slice())?,
        sort: decode_whole(alloc, msg.sort.as_slice())?,
        data_text: decode_whole(alloc, msg.body.as_slice())?,
    })
}

/// The text of one of them.
pub fn text_in(texts: &FieldTexts, field: Field) -> &Runes
    ensures { result.now ≡ text_in texts.now field }
{
    match field {
        Field::Src => &texts.src,
        Field::Dst => &texts.dst,
        Field::Wdir => &texts.wdir,
        Field::Sort => &texts.sort,
        Field::Data => &texts.data_text,
    }
}

/// Which fields have the texts that were given.
#[derive(Clone, Copy)]
pub struct SameFields {
    pub src: bool,
    pub dst: bool,
    pub wdir: bool,
    pub sort: bool,
    pub data_text: bool,
}

/// Whether this field has.
pub fn is_same(same: SameFields, field: Field) -> bool
    ensures { result ≡ is_same same field }
{
    match field {
        Field::Src => same.src,
        Field::Dst => same.dst,
        Field::Wdir => same.wdir,
        Field::Sort => same.sort,
        Field::Data => same.data_text,
    }
}

/// All but this one.
pub fn except(same: SameFields, field: Field) -> SameFields
    ensures { result ≡ except same field }
{
    match field {
        Field::Src => SameFields { src: false, ..same },
        Field::Dst => SameFields { dst: false, ..same },
        Field::Wdir => SameFields {
            wdir: false,
            ..same
        },
        Field::Sort => SameFields {
            sort: false,
            ..same
        },
        Field::Data => SameFields {
            data_text: false,
            ..same
        },
    }
}

/// The text of a field: the one that was given, lent, or one that was decoded anew.
#[derive(Drop)]
pub struct FieldText<'a> {
    given: &'a Runes,
    anew: Option<Runes>,
}

impl<'a> Model for FieldText<'a> {
    ghost use Rattle.std.specs.Prelude.{ℕ, List, unwrap_or};

    ghost Value = { List ℕ };

    ghost view = { λ t. unwrap_or t.anew t.given.now };
}

impl<'a> FieldText<'a> {
    /// The one that was given.
    pub fn given(text: &'a Runes) -> Self
        ensures { result ≡ text.now }
    {
        FieldText {
            given: text,
            anew: None,
        }
    }

    /// One that was decoded anew, in place of the one that was given.
    pub fn anew(given: &'a Runes, text: Runes) -> Self
        ensures { result ≡ text }
    {
        FieldText {
            given,
            anew: Some(text),
        }
    }

    /// The text itself.
    pub fn get(&self) -> &Runes
        ensures { result.now ≡ self.now }
    {
        match &self.anew {
            None => self.given,
            Some(text) => text,
        }
    }
}
