//! Searches for an expression.

ghost use Rattle.std.specs.Prelude.{◌≡◌, ◌≤◌, length, IfOk, IfSome, IfNone};
ghost use Rattle.re_syntax.specs.Tree.{tree};
ghost use Rattle.re_syntax.specs.Match.{IsFirst, IsLast, HasNoSpan};
ghost use Rattle.re_spans.specs.Search.{first_span, last_span, IsBetween};
ghost use Rattle.re_sets.specs.Numbers.{letters};
ghost use Rattle.re_machine.specs.Machines.{IsFormOf};

use crate::copy::copy;
use crate::found::{search_back, search_on};
use crate::leaves::letter_count;
use crate::set::LetterSet;
use crate::tables::Tables;
use crate::wide::Wide;
use am_text::{Letters, NoMemory, Range};
use re_spans::{first_match, last_match};
use re_syntax::Re;
use std::alloc::Global;
use std::marker::Model;

/// The tables of an expression, by how many letters it has.
#[derive(Drop)]
pub enum Form {
    /// Up to 64, forward and backward.
    Word(Tables<u64>, Tables<u64>),
    /// Up to 1,024, which is as many as an expression that was read can have.
    Wide(Tables<Wide>, Tables<Wide>),
    /// More: it is searched for by sets of places.
    Spans,
}

/// An expression made ready to be searched for in many texts. Contracts see its tree.
///
/// A search reads the text from where it begins, and no further than its match needs.
pub struct Machine {
    re: Re,
    // in a box, so that one who holds a machine needs no stack for its tables
    form: Box<Form>,
}

// By hand, so that a crate that drops a machine goes by this drop, and has not to prove those of all that is in it.
impl Drop for Machine {
    fn drop(self) {
        let Machine { re: _, form: _ } = self;
    }
}

impl Model for Machine {
    ghost use Rattle.std.specs.Coded.{codes};
    ghost use Rattle.re_syntax.specs.Tree.{tree};
    ghost use Rattle.re_syntax.specs.declared.re.Re.{Re};
    ghost use Rattle.re_syntax.specs.contracts.re.Re as e;
    ghost use Rattle.re_machine.specs.Machines.{IsFormOf};

    ghost Value = { Re };

    ghost coded = { Prim.hlevel (codes, e.the_row.coded) };

    ghost view = { λ m. m.re };

    ghost invariant = { λ m. IsFormOf (tree m.re) m.form.value };
}

impl Form {
    fn word(alloc: Global, re: &Re) -> Result<Form, NoMemory>
        requires { letters (tree re.now) ≤ 64 }
        ensures { IfOk result (IsFormOf (tree re.now)) }
    {
        let on = Tables::build(alloc, re, false)?;
        let back = Tables::build(alloc, re, true)?;
        Ok(Form::Word(on, back))
    }

    fn wide(alloc: Global, re: &Re) -> Result<Form, NoMemory>
        requires { letters (tree re.now) ≤ 1024 }
        ensures { IfOk result (IsFormOf (tree re.now)) }
    {
        let on = Tables::build(alloc, re, false)?;
        let back = Tables::build(alloc, re, true)?;
        Ok(Form::Wide(on, back))
    }

    fn build(alloc: Global, re: &Re) -> Result<Form, NoMemory>
        ensures { IfOk result (IsFormOf (tree re.now)) }
    {
        let count = letter_count(alloc, re)?;
        if count <= u64::SIZE {
            return Form::word(alloc, re);
        }
        if count <= Wide::SIZE {
            return Form::wide(alloc, re);
        }
        Ok(Form::Spans)
    }
}

impl Machine {
    /// The machine of an expression.
    pub fn build(alloc: Global, re: &Re) -> Result<Machine, NoMemory>
        ensures { IfOk result (λ machine. tree machine ≡ tree re.now) }
    {
        let form = Form::build(alloc, re)?;
        let same = copy(alloc, re)?;
        Ok(Machine {
            re: same,
            form: Box::new(alloc, form)?,
        })
    }

    /// The match that begins first, and of those the longest, inside from and end, leaving out the null one at no_null.
    ///
    /// There is none only where no match is inside these bounds.
    pub fn forward<T: Letters>(
        &self,
        alloc: Global,
        text: &T,
        from: usize,
        end: usize,
        no_null: Option<usize>,
    ) -> Result<Option<Range>, NoMemory>
        requires order { from ≤ end }
        requires within { end ≤ length (T.letters text.now) }
        ensures found { IfOk result (λ answer. IfSome answer (IsFirst (tree self.now) (T.letters text.now) from end
            no_null)) }
        ensures none { IfOk result (λ answer. IfNone answer (HasNoSpan (tree self.now) (T.letters text.now) from end
            no_null)) }
        ensures value { IfOk result (λ answer. answer ≡ first_span (tree self.now) (T.letters text.now) from end
            no_null) }
        ensures inside { IfOk result (λ answer. IfSome answer (IsBetween from end)) }
    {
        match &*self.form {
            Form::Word(on, _) => search_on(alloc, on, text, from, end, no_null),
            Form::Wide(on, _) => search_on(alloc, on, text, from, end, no_null),
            Form::Spans => first_match(alloc, &self.re, text, from, end, no_null),
        }
    }

    /// The match that ends last, and of those the longest, inside start and to, leaving out the null one at no_null.
    ///
    /// There is none only where no match is inside these bounds.
    pub fn backward<T: Letters>(
        &self,
        alloc: Global,
        text: &T,
        start: usize,
        to: usize,
        no_null: Option<usize>,
    ) -> Result<Option<Range>, NoMemory>
        requires order { start ≤ to }
        requires within { to ≤ length (T.letters text.now) }
        ensures found { IfOk result (λ answer. IfSome answer (IsLast (tree self.now) (T.letters text.now) start to
            no_null)) }
        ensures none { IfOk result (λ answer. IfNone answer (HasNoSpan (tree self.now) (T.letters text.now) start to
            no_null)) }
        ensures value { IfOk result (λ answer. answer ≡ last_span (tree self.now) (T.letters text.now) start to
            no_null) }
        ensures inside { IfOk result (λ answer. IfSome answer (IsBetween start to)) }
    {
        match &*self.form {
            Form::Word(_, back) => search_back(alloc, back, text, start, to, no_null),
            Form::Wide(_, back) => search_back(alloc, back, text, start, to, no_null),
            Form::Spans => last_match(alloc, &self.re, text, start, to, no_null),
        }
    }
}
