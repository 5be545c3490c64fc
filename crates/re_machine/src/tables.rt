//! The tables of a search, for one way through the text.

ghost use Rattle.std.specs.Prelude.{◌≡◌, ◌<◌, ◌≤◌, ℕ, false, length, map, slice_index, IfOk};
ghost use Rattle.re_syntax.specs.Tree.{tree};
ghost use Rattle.re_sets.specs.Numbers.{letters};
ghost use Rattle.re_sets.specs.Readings.{read_as};
ghost use Rattle.re_sets.specs.Tables.{IsTable};
ghost use Rattle.re_machine.specs.Leaves.{taken_word};
ghost use Rattle.re_machine.specs.Ways.{reading};
ghost use Rattle.re_machine.specs.Contexts.{IsContextOf, IsNeverNull, NoneBegins, BeginsAre};
ghost use Rattle.re_machine.specs.Whole.{table_of, ascii_count, IsWhole};

use crate::contexts::{Context, Contexts};
use crate::leaves::{leaves_of, taking};
use crate::nodes::Nodes;
use crate::set::{LetterSet, meets};
use crate::way::Way;
use am_text::{Letters, NoMemory, Rune};
use re_syntax::Re;
use std::alloc::Global;

// The runes below this one have their letters in a table.
const ASCII: usize = 128;

/// The tables of a tree.
#[derive(Drop)]
pub struct Tables<S> {
    contexts: Contexts<S>,
    leaves: Vec<Re>,
    ascii: Vec<S>,
    firsts: S,
    begins: Vec<bool>,
    is_ever_null: bool,
}

// The letters that take each rune of a table.
fn ascii_of<S: LetterSet>(alloc: Global, leaves: &[Re]) -> Result<Vec<S>, NoMemory>
    requires { length leaves.now ≤ S.SIZE }
    ensures len { IfOk result (λ all. length all.items ≡ ascii_count) }
    ensures sets { IfOk result (λ all. (d : ℕ) → d < ascii_count → slice_index (map S.bits all.items)
        d ≡ taken_word (map tree leaves.now) d) }
{
    let mut all = Vec::new(alloc);
    for rune in 0..ASCII {
        all.push(taking(leaves, rune as Rune))?;
    }
    Ok(all)
}

// Whether a match may begin with each rune of a table.
fn begins_of<S: LetterSet>(alloc: Global, ascii: &[S], firsts: S) -> Result<Vec<bool>, NoMemory>
    ensures len { IfOk result (λ all. length all.items ≡ length ascii.now) }
    ensures begins { IfOk result (λ all. BeginsAre (S.bits firsts) (map S.bits ascii.now) all.items) }
{
    let mut all = Vec::new(alloc);
    for set in ascii {
        all.push(meets(firsts, *set))?;
    }
    Ok(all)
}

impl<S: LetterSet> Tables<S> {
    /// The tables of a tree, or of the mirrored tree for the way back.
    pub fn build(alloc: Global, re: &Re, back: bool) -> Result<Tables<S>, NoMemory>
        requires { letters (tree re.now) ≤ S.SIZE }
        ensures whole { IfOk result (IsWhole S.bits S.SIZE) }
        ensures table { IfOk result (λ t. IsTable (read_as back (tree re.now)) (table_of S.bits S.SIZE t)) }
    {
        let nodes = Nodes::build(alloc, re, back)?;
        let leaves = leaves_of(alloc, &nodes)?;
        let contexts = Contexts::build(alloc, &nodes, leaves.len())?;
        let firsts = contexts.firsts();
        let is_ever_null = contexts.is_ever_null();
        let ascii = ascii_of(alloc, &leaves)?;
        let begins = begins_of(alloc, &ascii, firsts)?;
        Ok(Tables {
            contexts,
            leaves,
            ascii,
            firsts,
            begins,
            is_ever_null,
        })
    }

    /// What may begin, follow and end a match at a place.
    pub fn context<T: Letters>(&self, text: &T, way: Way, k: usize) -> &Context<S>
        requires { k ≤ length (T.letters text.now) }
        ensures { IsContextOf S.bits (table_of S.bits S.SIZE self.now) ((reading way (T.letters text.now)).here k)
            result.now }
    {
        self.contexts.of_place(text, way, k)
    }

    /// The letters that take a rune.
    pub fn takes(&self, rune: Rune) -> S
        requires { IsWhole S.bits S.SIZE self.now }
        ensures { S.bits result ≡ (table_of S.bits S.SIZE self.now).takes rune }
    {
        let n = rune as usize;
        if n < self.ascii.len() {
            self.ascii[n]
        } else {
            taking(&self.leaves, rune)
        }
    }

    /// Whether a match may begin with a rune, wherever it stands.
    pub fn may_begin(&self, rune: Rune) -> bool
        requires { IsWhole S.bits S.SIZE self.now }
        ensures { result ≡ false → NoneBegins (table_of S.bits S.SIZE self.now) rune }
    {
        let n = rune as usize;
        if n < self.begins.len() {
            self.begins[n]
        } else {
            meets(self.firsts, taking(&self.leaves, rune))
        }
    }

    /// Whether the null text is a match at some place.
    pub fn is_ever_null(&self) -> bool
        requires { IsWhole S.bits S.SIZE self.now }
        ensures { result ≡ false → IsNeverNull (table_of S.bits S.SIZE self.now) }
    {
        self.is_ever_null
    }
}
