//! Messages that are begun, and that grow.

ghost use Rattle.std.specs.Prelude.{◌≡◌, ◌≤◌, ℕ, List, true, length, take, option_copied, IfOk, IfSome};
ghost use Rattle.std.specs.Str.{is_utf8};
ghost use Rattle.plumb_msg.specs.Reading.{read_of};
ghost use Rattle.plumb_msg.specs.Growing.{is_in_line, behind_line, IsBegun};
ghost use Rattle.plumb_msg.specs.declared.begun.Begun.TheVariants as begun;
ghost use Rattle.plumb_msg.specs.declared.message.PlumbRead.TheVariants.{More};

use crate::memo::Memo;
use crate::reading::count_of;
use crate::texts::{has_newline, is_text_front};
use am_text::{NoMemory, cut_line};
use std::alloc::Global;

/// Where a message that is begun goes on, so that what stands before isn't read again.
#[derive(Drop)]
pub enum Begun {
    /// Nothing is known of it.
    Unknown,
    /// In a line of text, of which whole characters stand before this place.
    Text { at: usize },
    /// In the line of attributes, which begins at the place `from`, and of which whole characters stand before the
    /// place
    /// `at`.
    Attrs { at: usize, from: usize, memo: Memo },
    /// In its data: so many bytes from this place on.
    Data { at: usize, size: usize },
}

// Whether the bytes are a line of text that isn't whole.
fn is_in_line(bytes: &[u8]) -> bool
    ensures { result ≡ is_in_line bytes.now }
{
    !has_newline(bytes) && is_text_front(bytes)
}

// How many bytes whole characters take at the front.
#[tactic(auto, using(crate::proofs::TextLemmas::fronts, crate::proofs::GrowLemmas::wholes))]
fn whole_len(bytes: &[u8]) -> usize
    ensures inside { result ≤ length bytes.now }
    ensures whole { is_utf8 (take result bytes.now) ≡ true }
{
    match str::from_utf8(bytes) {
        Ok(_) => bytes.len(),
        Err(e) => e.valid_up_to(),
    }
}

// What stands behind the first line, where its newline is there.
#[tactic(auto, using(crate::proofs::Lines::fewer))]
fn behind_line(bytes: &[u8]) -> Option<&[u8]>
    ensures behind { option_copied result ≡ behind_line bytes.now }
    ensures fewer { IfSome result (λ rest. length rest.now ≤ length bytes.now) }
{
    if !has_newline(bytes) {
        return None;
    }
    Some(cut_line(bytes).1)
}

// A message that goes on in a line of text.
#[tactic(auto, using(crate::proofs::GrowLemmas::texts))]
fn in_text(at: usize, text: &[u8]) -> Option<Begun>
    requires { IsBegun (begun.Text at) text.now }
    ensures begun { IfSome result (λ b. IsBegun b text.now) }
    ensures more { IfSome result (λ b. read_of text.now ≡ More) }
{
    let rest = text.split_at(at).1;
    if !is_in_line(rest) {
        return None;
    }
    Some(Begun::Text {
        at: at + whole_len(rest),
    })
}

// A message that goes on in its line of attributes.
#[tactic(auto, using(crate::proofs::GrowLemmas::attrs))]
fn in_attrs(
    alloc: Global,
    at: usize,
    from: usize,
    memo: Memo,
    text: &[u8],
) -> Result<Option<Begun>, NoMemory>
    requires { IsBegun (begun.Attrs at from memo) text.now }
    ensures begun { IfOk result (λ o. IfSome o (λ b. IsBegun b text.now)) }
    ensures more { IfOk result (λ o. IfSome o (λ b. read_of text.now ≡ More)) }
{
    let rest = text.split_at(at).1;
    if !is_in_line(rest) {
        return Ok(None);
    }
    let is_scanned = memo.is_scanned(alloc, text.split_at(from).1)?;
    if !is_scanned {
        return Ok(None);
    }
    Ok(Some(Begun::Attrs {
        at: at + whole_len(rest),
        from,
        memo,
    }))
}

// A message that goes on in its data.
#[tactic(auto, using(crate::proofs::GrowLemmas::datas))]
fn in_data(at: usize, size: usize, text: &[u8]) -> Option<Begun>
    requires { IsBegun (begun.Data at size) text.now }
    ensures begun { IfSome result (λ b. IsBegun b text.now) }
    ensures more { IfSome result (λ b. read_of text.now ≡ More) }
{
    if text.len() - at >= size {
        return None;
    }
    Some(Begun::Data { at, size })
}

impl Begun {
    /// Where a message goes on that was read and is begun.
    #[tactic(auto, using(crate::proofs::GrowLemmas::starts))]
    pub fn of(text: &[u8]) -> Begun
        requires { read_of text.now ≡ More }
        ensures { IsBegun result text.now }
    {
        let Some(dst) = behind_line(text) else {
            return Begun::Text { at: 0 };
        };
        let Some(wdir) = behind_line(dst) else {
            return Begun::Text {
                at: text.len() - dst.len(),
            };
        };
        let Some(sort) = behind_line(wdir) else {
            return Begun::Text {
                at: text.len() - wdir.len(),
            };
        };
        let Some(attrs) = behind_line(sort) else {
            return Begun::Text {
                at: text.len() - sort.len(),
            };
        };
        let Some(body) = behind_line(attrs) else {
            let at = text.len() - attrs.len();
            return Begun::Attrs {
                at,
                from: at,
                memo: Memo::new(),
            };
        };
        let Some(bytes) = behind_line(body) else {
            return Begun::Unknown;
        };
        match count_of(cut_line(body).0) {
            Some(size) => Begun::Data {
                at: text.len() - bytes.len(),
                size,
            },
            None => Begun::Unknown,
        }
    }

    /// Where a message goes on that was begun so far, and has grown: only what came since is read. None where that
    /// doesn't show that it still is begun.
    pub fn go_on(self, alloc: Global, text: &[u8]) -> Result<Option<Begun>, NoMemory>
        requires { IsBegun self text.now }
        ensures begun { IfOk result (λ o. IfSome o (λ b. IsBegun b text.now)) }
        ensures more { IfOk result (λ o. IfSome o (λ b. read_of text.now ≡ More)) }
    {
        match self {
            Begun::Unknown => Ok(None),
            Begun::Text { at } => Ok(in_text(at, text)),
            Begun::Attrs { at, from, memo } => in_attrs(alloc, at, from, memo, text),
            Begun::Data { at, size } => Ok(in_data(at, size, text)),
        }
    }

    /// The same once more. It takes what was scanned of a line of attributes, so that this one scans it anew.
    #[tactic(auto, using(crate::proofs::GrowLemmas::starts))]
    pub fn copied(&self) -> Begun
        ensures { (text : List ℕ) → IsBegun self.now text → IsBegun result text }
    {
        match self {
            Begun::Text { at } => Begun::Text { at: *at },
            Begun::Attrs { at, from, memo } => Begun::Attrs {
                at: *at,
                from: *from,
                memo: memo.handed_on(),
            },
            Begun::Data { at, size } => Begun::Data {
                at: *at,
                size: *size,
            },
            Begun::Unknown => Begun::Unknown,
        }
    }
}
