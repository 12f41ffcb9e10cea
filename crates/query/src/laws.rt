//! Laws of the language.

ghost use Rattle.std.specs.Prelude.{◌≡◌, ◌⊎◌, ℕ, List};
ghost use Rattle.semantics.specs.Syntax.{Query};
ghost use Rattle.semantics.specs.declared.query_fault.QueryFault.{QueryFault};
ghost use Rattle.semantics.specs.Reading.{Derives, IsRefusalOf};
ghost use Rattle.semantics.specs.Canonical.{canonical_text};
ghost use Rattle.query.specs.Texts.{IsTextOf};

/// A law, with no work to do: no text derives two queries.
pub fn derives_one()
    ensures { (text : List ℕ) (p q : Query) → Derives text p → Derives text q → p ≡ q }
{
    query_lexer::spells_one();
    query_parser::derives_one();
}

/// A law, with no work to do: each text derives a query or has a fault; never both, and no text has
/// two faults.
pub fn derives_or_refused()
    ensures decided { (text : List ℕ)
        → ((q : Query) × Derives text q) ⊎ ((fault : QueryFault) × IsRefusalOf text fault) }
    ensures not_both { (text : List ℕ) (q : Query) (fault : QueryFault) → Derives text q
        → IsRefusalOf text fault → ⊥ }
    ensures one { (text : List ℕ) (fault other : QueryFault) → IsRefusalOf text fault
        → IsRefusalOf text other → fault ≡ other }
{}

/// A law, with no work to do: the canonical text of a query that has any text is a text of that
/// query, whatever the length of either.
pub fn reads_again()
    ensures { (q : Query) → ∥ ((text : List ℕ) × IsTextOf text q) ∥₁
        → IsTextOf (canonical_text q) q }
{}
