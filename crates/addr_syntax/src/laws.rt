//! Laws of the definitions. Each function has laws as its contract, and does nothing.

ghost use Rattle.std.specs.Prelude.{◌≡◌, ℕ, List};
ghost use Rattle.addr_syntax.specs.Tree.{Tree};
ghost use Rattle.addr_syntax.specs.Grammar.{IsAddress, Begins};
ghost use Rattle.addr_syntax.specs.Laws.{TreesAreThose, SeparatorsJoinLast, SignsJoinFromTheLeft};

/// A text has a tree exactly where it is an address with that tree.
pub fn addresses_have_trees()
    ensures { TreesAreThose }
{}

/// A text has one tree at most.
pub fn an_address_has_one_tree()
    ensures { (text : List ℕ) (a b : Tree) → IsAddress text a → IsAddress text b → a ≡ b }
{}

/// A separator joins all that stands before it to the row of parts and signs behind it.
pub fn separators_join_last()
    ensures { SeparatorsJoinLast }
{}

/// A sign joins the row of parts and signs before it to the part behind it.
pub fn signs_join_from_the_left()
    ensures { SignsJoinFromTheLeft }
{}

/// A text begins with one address at most, where that is as long as it can be.
pub fn a_text_begins_with_one_address()
    ensures { (text rest more : List ℕ) (a b : Tree) → Begins a text rest → Begins b text more → (a ≡ b)
        × (rest ≡ more) }
{}
