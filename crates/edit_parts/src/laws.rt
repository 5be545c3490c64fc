//! Laws of the definitions. Each function has laws as its contract, and does nothing.

ghost use Rattle.std.specs.Prelude.{◌≡◌, ℕ, List, ◌++◌, Option};
ghost use Rattle.addr_syntax.specs.Marks.{next_of};
ghost use Rattle.edit_parts.specs.Pieces.{Piece, IsPiece};
ghost use Rattle.edit_parts.specs.Laws.{MayEndLine};

/// A text begins with one piece at most.
pub fn a_text_begins_with_one_piece()
    ensures { (p q : Piece) (u m v n : List ℕ) → u ++ m ≡ v ++ n → IsPiece p u (next_of m) → IsPiece q v (next_of n)
        → (p ≡ q) × (m ≡ n) }
{}

/// A piece, with some runes more where it ends the text, may stand at the end of a line.
pub fn a_piece_may_end_a_line()
    ensures { (p : Piece) (piece : List ℕ) (next : Option ℕ) → IsPiece p piece next → MayEndLine p piece next }
{}
