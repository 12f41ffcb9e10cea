//! Laws of the spelling of tokens.

ghost use Rattle.std.specs.Prelude.{◌≡◌, ◌⊎◌, ℕ, List};
ghost use Rattle.semantics.specs.declared.token.Token.{Token};
ghost use Rattle.semantics.specs.Tokens.{Spells, StopsAt};

/// A law, with no work to do: no text spells two lists of tokens, and none begins them at two lists
/// of bytes.
pub fn spells_one()
    ensures { (text : List ℕ) (ks others : List Token) (starts places : List ℕ)
        → Spells text ks starts → Spells text others places → (ks ≡ others) × (starts ≡ places) }
{}

/// A law, with no work to do: a text spells tokens, or there is a byte where none begins; never
/// both, and there is one such byte.
pub fn spells_or_stops()
    ensures decided { (text : List ℕ)
        → ((ks : List Token) × (starts : List ℕ) × Spells text ks starts)
        ⊎ ((at : ℕ) × StopsAt text at) }
    ensures not_both { (text starts : List ℕ) (ks : List Token) (at : ℕ) → Spells text ks starts
        → StopsAt text at → ⊥ }
    ensures one { (text : List ℕ) (at other : ℕ) → StopsAt text at → StopsAt text other
        → at ≡ other }
{}
