//! Writing messages.

ghost use Rattle.std.specs.Prelude.{◌≡◌, ◌++◌, ◌∷◌, [], List, ℕ, true, length, IfOk, OnOk};
ghost use Rattle.std.specs.List.{flat_map};
ghost use Rattle.plumb_msg.specs.Reading.{read_of};
ghost use Rattle.plumb_msg.specs.Spelling.{quoted, needs_quotes, value_text, attr_text, after_blank, attrs_text, line};
ghost use Rattle.plumb_msg.specs.Spelling.{msg_text, are_name_bytes, is_name, are_named, can_spell};
ghost use Rattle.plumb_msg.specs.declared.message.PlumbRead.TheVariants.{Whole};

use crate::limits::MAX_DATA;
use crate::message::{Attr, PlumbMsg};
use crate::names::Names;
use crate::scanning::{is_name_byte, is_special};
use crate::texts::is_line;
use am_text::{Bytes, NoMemory, decimal};
use std::alloc::Global;

#[tactic(auto, using(crate::proofs::SpellLemmas::quotes), unfolding(crate::specs::Spelling::quoted))]
fn quoted(alloc: Global, value: &[u8]) -> Result<Bytes, NoMemory>
    ensures { IfOk result (λ text. text ≡ quoted value.now) }
{
    let mut text = Bytes::new(alloc);
    text.push(b'\'')?;
    for b in value {
        if *b == b'\'' {
            text.push(b'\'')?;
        }
        text.push(*b)?;
    }
    text.push(b'\'')?;
    Ok(text)
}

fn needs_quotes(value: &[u8]) -> bool
    ensures { result ≡ needs_quotes value.now }
{
    value.iter().any(|b| is_special(*b))
}

fn value_text(alloc: Global, value: &[u8]) -> Result<Bytes, NoMemory>
    ensures { IfOk result (λ text. text ≡ value_text value.now) }
{
    if needs_quotes(value) {
        return quoted(alloc, value);
    }
    Bytes::copied(alloc, value)
}

#[tactic(auto, using(crate::proofs::SpellLemmas::joins), unfolding(crate::specs::Spelling::attr_text))]
fn put_attr(alloc: Global, out: &mut Bytes, attr: &Attr) -> Result<(), NoMemory>
    ensures { OnOk result (out.new ≡ out.old ++ attr_text attr.now) }
{
    out.append(attr.name.as_slice())?;
    out.push(b'=')?;
    out.append(value_text(alloc, attr.value.as_slice())?.as_slice())?;
    Ok(())
}

// Puts attributes at the end, each after a blank.
#[tactic(auto, using(crate::proofs::SpellLemmas::attributes))]
fn put_attrs(alloc: Global, out: &mut Bytes, attrs: &[Attr]) -> Result<(), NoMemory>
    ensures { OnOk result (out.new ≡ out.old ++ flat_map after_blank attrs.now) }
{
    for attr in attrs {
        out.push(b' ')?;
        put_attr(alloc, out, attr)?;
    }
    Ok(())
}

/// The line of attributes, without its newline: `name=value` with single blanks between. A value stands in quotes where
/// it has a blank, a tab, a quote or `=`.
pub fn attrs_text(alloc: Global, attrs: &[Attr]) -> Result<Bytes, NoMemory>
    ensures { IfOk result (λ text. text ≡ attrs_text attrs.now) }
{
    let mut text = Bytes::new(alloc);
    if let [first, others @ ..] = attrs {
        put_attr(alloc, &mut text, first)?;
        put_attrs(alloc, &mut text, others)?;
    }
    Ok(text)
}

// Puts a text and a newline at the end.
#[tactic(auto, using(crate::proofs::SpellLemmas::joins))]
fn put_line(out: &mut Bytes, text: &[u8]) -> Result<(), NoMemory>
    ensures { OnOk result (out.new ≡ out.old ++ line text.now) }
{
    out.append(text)?;
    out.push(b'\n')?;
    Ok(())
}

#[tactic(auto, unfolding(crate::specs::Spelling::msg_bytes))]
fn msg_text(alloc: Global, msg: &PlumbMsg) -> Result<Bytes, NoMemory>
    ensures { IfOk result (λ bytes. bytes ≡ msg_text msg.now) }
{
    let attrs = attrs_text(alloc, msg.attrs.as_slice())?;
    let count = decimal(alloc, msg.body.len() as u64)?;
    let mut bytes = Bytes::new(alloc);
    put_line(&mut bytes, msg.src.as_slice())?;
    put_line(&mut bytes, msg.dst.as_slice())?;
    put_line(&mut bytes, msg.wdir.as_slice())?;
    put_line(&mut bytes, msg.sort.as_slice())?;
    put_line(&mut bytes, attrs.as_slice())?;
    put_line(&mut bytes, count.as_slice())?;
    bytes.append(msg.body.as_slice())?;
    Ok(bytes)
}

/// The bytes of a message. A value of an attribute stands in quotes where it has a blank, a tab, a quote or `=`.
pub fn write_msg(alloc: Global, msg: &PlumbMsg) -> Result<Bytes, NoMemory>
    requires { can_spell msg.now ≡ true }
    ensures exact { IfOk result (λ bytes. bytes ≡ msg_text msg.now) }
    // It is read again, whatever follows.
    ensures again { IfOk result (λ bytes. (rest : List ℕ) → read_of (bytes ++ rest) ≡ Whole msg.now (length bytes)) }
{
    msg_text(alloc, msg)
}

fn are_name_bytes(name: &[u8]) -> bool
    ensures { result ≡ are_name_bytes name.now }
{
    name.iter().all(|b| is_name_byte(*b))
}

fn is_name(name: &[u8]) -> bool
    ensures { result ≡ is_name name.now }
{
    !name.is_empty() && are_name_bytes(name)
}

#[tactic(auto, using(crate::proofs::SpellLemmas::naming, crate::proofs::NameLemmas::naming))]
fn are_named(alloc: Global, attrs: &[Attr]) -> Result<bool, NoMemory>
    ensures { IfOk result (λ b. b ≡ are_named [] attrs.now) }
{
    let mut names = Names::new(alloc);
    for attr in attrs {
        let name = attr.name.as_slice();
        if names.has(name) || !is_name(name) {
            return Ok(false);
        }
        names.put(alloc, name)?;
    }
    Ok(true)
}

/// Whether a message can be written: its texts are UTF-8 in one line each, its attributes have names of letters, digits
/// and `_` that differ, and values in one line, and its data have at most 1,048,576 bytes.
#[tactic(auto, unfolding(crate::specs::Spelling::can_spell))]
pub fn can_spell(alloc: Global, msg: &PlumbMsg) -> Result<bool, NoMemory>
    ensures { IfOk result (λ b. b ≡ can_spell msg.now) }
{
    let attrs = attrs_text(alloc, msg.attrs.as_slice())?;
    let named = are_named(alloc, msg.attrs.as_slice())?;
    Ok(
        is_line(msg.src.as_slice())
            && is_line(msg.dst.as_slice())
            && is_line(msg.wdir.as_slice())
            && is_line(msg.sort.as_slice())
            && is_line(attrs.as_slice())
            && named
            && msg.body.len() <= MAX_DATA,
    )
}
