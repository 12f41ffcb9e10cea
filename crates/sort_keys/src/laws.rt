//! Laws of the codes, with no work to do.

ghost use Rattle.std.specs.Prelude.{ℕ, List};
ghost use Rattle.semantics.specs.Syntax.{SortKey};
ghost use Rattle.semantics.specs.Values.{Datum};
ghost use Rattle.sort_keys.specs.Laws.{AreCodesInOrder, ArePartsInOrder};

/// A law: codes stand to each other as the values do under a key of ORDER BY, whatever stands
/// behind them.
pub fn codes_law()
    ensures { (k : SortKey) (a b : Datum) → AreCodesInOrder k a b }
{}

/// A law: where neither of two codes is the beginning of the other, their parts, in which a sort
/// key has them, stand to each other as the codes do, byte by byte.
pub fn parts_law()
    ensures { (s t : List ℕ) → ArePartsInOrder s t }
{}
