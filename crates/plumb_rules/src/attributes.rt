//! Attributes of a message: the value of one, put in place of one, and taken away.

ghost use Rattle.std.specs.Prelude.{◌≡◌, not, option_copied, IfOk};
ghost use Rattle.am_text.specs.Number.{number_of};
ghost use Rattle.plumb_rules.specs.Attributes.{has_name, attr_value, with_attrs, without_attr, is_absent, click_read};
ghost use Rattle.plumb_rules.specs.Attributes.{click_of, unclicked};

use crate::message::copied_attr;
use crate::placed::PlacedAttrs;
use am_text::{Items, NoMemory, read_decimal};
use plumb_msg::{Attr, Attrs};
use std::alloc::Global;

/// The value of the attribute with this name, if there is one.
pub fn attr_value<'a>(attrs: &'a [Attr], name: &[u8]) -> Option<&'a [u8]>
    ensures { option_copied result ≡ attr_value attrs.now name.now }
{
    let mut rest = attrs;
    while let [attr, others @ ..] = rest {
        if attr.name.as_slice() == name {
            return Some(attr.value.as_slice());
        }
        rest = others;
    }
    None
}

/// With these attributes, each in place of the one with its name, or at the end.
#[tactic(auto, using(crate::proofs::Further::additions))]
pub fn with_attrs(alloc: Global, attrs: Attrs, more: &[Attr]) -> Result<Attrs, NoMemory>
    ensures { IfOk result (λ new. new ≡ with_attrs attrs more.now) }
{
    let mut all = PlacedAttrs::of(alloc, attrs)?;
    for attr in more {
        all = all.with(alloc, copied_attr(alloc, attr)?)?;
    }
    Ok(all.into_attrs())
}

fn is_other(attr: &Attr, name: &[u8]) -> bool
    ensures { result ≡ not (has_name name.now attr.now) }
{
    attr.name.as_slice() != name
}

fn keep_others(attrs: &mut Vec<Attr>, name: &[u8])
    ensures { attrs.new.items ≡ without_attr name.now attrs.old.items }
{
    attrs.retain(|attr| is_other(attr, name));
}

/// Without the attribute with this name.
pub fn without_attr(attrs: Attrs, name: &[u8]) -> Attrs
    ensures { result ≡ without_attr name.now attrs }
{
    let mut all = attrs.into_vec();
    keep_others(&mut all, name);
    Items::from_vec(all)
}

/// The click of a message: its place in the data.
#[derive(Clone, Copy, Debug, PartialEq, Eq)]
pub enum Click {
    /// There is none.
    Absent,
    /// There is one that is no decimal.
    Unread,
    /// There is one at this place.
    At(u64),
}

/// Whether there is no click.
pub fn is_absent(click: Click) -> bool
    ensures { result ≡ is_absent click }
{
    match click {
        Click::Absent => true,
        _ => false,
    }
}

fn click_read(value: &[u8]) -> Click
    ensures { result ≡ click_read (number_of value.now) }
{
    match read_decimal(value) {
        None => Click::Unread,
        Some(place) => Click::At(place),
    }
}

/// The click of a message with these attributes.
#[tactic(auto, unfolding(crate::specs::Attributes::click_of))]
pub fn click_of(attrs: &[Attr]) -> Click
    ensures { result ≡ click_of attrs.now }
{
    match attr_value(attrs, b"click") {
        None => Click::Absent,
        Some(value) => click_read(value),
    }
}

/// Without the click.
#[tactic(auto, unfolding(crate::specs::Attributes::unclicked))]
pub fn unclicked(attrs: Attrs) -> Attrs
    ensures { result ≡ unclicked attrs }
{
    without_attr(attrs, b"click")
}
