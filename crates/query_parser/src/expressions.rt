//! Where expressions begin.

ghost use Rattle.std.specs.Prelude.{◌≡◌};
ghost use Rattle.query_parser.specs.Inside.ExpressionSteps.{begins_expression};

use query_lexer::{Token, Word};

/// Whether an expression begins in front of these tokens: a name, GROUPING, or the word of a set
/// function.
///
/// Example: it is true of the tokens of `shop` and of `SUM(cents)`, and false of those of `5`.
#[tactic(auto, unfolding(crate::specs::Inside::ExpressionSteps::begins_expression))]
pub(crate) fn begins_expression(tokens: &[Token]) -> bool
    ensures { result ≡ begins_expression tokens.now }
{
    matches!(
        tokens,
        [Token::Name(_), ..]
            | [Token::Word(Word::Grouping), ..]
            | [Token::Word(Word::Count), ..]
            | [Token::Word(Word::Sum), ..]
            | [Token::Word(Word::Min), ..]
            | [Token::Word(Word::Max), ..]
            | [Token::Word(Word::Avg), ..]
    )
}
