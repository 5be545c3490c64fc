//! The match of a `data matches` rule.

ghost use Rattle.std.specs.Prelude.{◌≡◌, ℕ, slice_get, IfOk, OnOk};
ghost use Rattle.re_spans.specs.Groups.{groups_of};
ghost use Rattle.re_syntax.specs.Tree.{tree};
ghost use Rattle.plumb_rules.specs.Matches.{range_at, range_of};
ghost use Rattle.plumb_rules.specs.Patterns.{matched, IsMatchIn};

use crate::fields::FieldText;
use am_text::{NoMemory, Range, Rune};
use re_spans::groups;
use re_syntax::{Groups, Re};
use std::alloc::Global;
use std::marker::Model;

/// A match of a text. Contracts see it with the ranges of its groups, which are found once an argument has one of them.
pub struct Matched<'a> {
    re: Re,
    text: FieldText<'a>,
    range: Range,
    groups: Option<Groups>,
}

// By hand, so that the drop of a tree isn't proved again.
impl<'a> Drop for Matched<'a> {
    fn drop(self) {
        let Matched {
            re: _,
            text: _,
            range: _,
            groups: _,
        } = self;
    }
}

impl<'a> Model for Matched<'a> {
    ghost use Rattle.re_syntax.specs.Tree.{tree};
    ghost use Rattle.plumb_rules.specs.Matches.{Match};
    ghost use Rattle.plumb_rules.specs.Patterns.{matched, AreKnown};

    ghost Value = { Match };

    ghost view = { λ m. matched (tree m.re) m.text m.range };

    ghost invariant = { λ m. AreKnown (tree m.re) m.text m.range m.groups };
}

// The range of a number, where there is one.
fn range_at(ranges: &[Option<Range>], number: usize) -> Option<Range>
    ensures { result ≡ range_at (slice_get ranges.now number) }
{
    match ranges.get(number) {
        Some(Some(range)) => Some(*range),
        _ => None,
    }
}

impl<'a> Matched<'a> {
    /// A match inside a text.
    pub fn new(re: Re, text: FieldText<'a>, range: Range) -> Self
        requires { IsMatchIn (tree re) text range }
        ensures { result ≡ matched (tree re) text.entry range }
    {
        Matched {
            re,
            text,
            range,
            groups: None,
        }
    }

    /// Finds the groups, so that they needn't be found for each range.
    pub fn find_groups(&mut self, alloc: Global) -> Result<(), NoMemory>
        ensures { OnOk result (self.new ≡ self.old) }
    {
        if self.groups.is_none() {
            let found = groups(alloc, &self.re, self.text.get(), self.range)?;
            self.groups = Some(found);
        }
        Ok(())
    }

    fn group(&self, alloc: Global, number: usize) -> Result<Option<Range>, NoMemory>
        ensures { IfOk result (λ range. range ≡ range_at (slice_get self.now.groups number)) }
    {
        match &self.groups {
            Some(all) => Ok(range_at(all.as_slice(), number)),
            None => {
                let all = groups(alloc, &self.re, self.text.get(), self.range)?;
                Ok(range_at(all.as_slice(), number))
            }
        }
    }

    /// The range of the match, or of a group.
    pub fn range(&self, alloc: Global, number: usize) -> Result<Option<Range>, NoMemory>
        ensures { IfOk result (λ range. range ≡ range_of self.now number) }
    {
        if number == 0 {
            return Ok(Some(self.range));
        }
        self.group(alloc, number)
    }

    /// The text in which the match lies.
    pub fn text(&self) -> &[Rune]
        ensures { result.now ≡ self.now.text }
    {
        self.text.get().as_slice()
    }
}
