//! Laws of the definitions. Each function has laws as its contract, and does nothing.

ghost use Rattle.std.specs.Prelude.{◌≡◌, ℕ, List, Option};
ghost use Rattle.re_syntax.specs.Tree.{Tree};
ghost use Rattle.re_syntax.specs.Grammar.{IsExpression};

/// A text has one tree at most.
#[tactic(auto, using(crate::proofs::Complete::one_tree))]
pub fn a_text_has_one_tree()
    ensures { (stop : Option ℕ) (text : List ℕ) (r s : Tree) → IsExpression stop text r → IsExpression stop text s
        → r ≡ s }
{}
