//! A law of the grammar.

ghost use Rattle.std.specs.Prelude.{◌≡◌, List};
ghost use Rattle.semantics.specs.declared.token.Token.{Token};
ghost use Rattle.semantics.specs.Syntax.{Query};
ghost use Rattle.semantics.specs.Leaves.{language_limits};
ghost use Rattle.semantics.specs.Grammar.{DerivesWithin};

/// A law, with no work to do: no tokens derive two queries.
pub fn derives_one()
    ensures { (ts : List Token) (p q : Query) → DerivesWithin language_limits ts p
        → DerivesWithin language_limits ts q → p ≡ q }
{}
