//! Reads operators, truth values and the mark NOT.

ghost use Rattle.std.specs.Prelude.{◌≡◌, ◌<◌, ◌≤◌, length, IfOk, IfSome};
ghost use Rattle.query_lexer.specs.Options.{Tells};
ghost use Rattle.query_parser.specs.Inside.Steps.{Gives};
ghost use Rattle.query_parser.specs.Inside.LeafSteps.{op_at, truth_at, mark_at};

use crate::fault::GrammarFault;
use crate::fronts::{after_word, unexpected_fault};
use query_lexer::{Sign, Token, Word};
use values::{Op, Truth};

/// An operator of a comparison in front, and what stands behind it, ISO/IEC 9075-2 `<comp op>`;
/// `None` where another token or none stands there.
///
/// Example: of the tokens of `<= 5` it answers `Op::Le` and the tokens of `5`; of those of
/// `IN (5)`, `None`.
#[tactic(auto, unfolding(crate::specs::Inside::LeafSteps::op_at))]
pub(crate) fn operator(tokens: &[Token]) -> Option<(Op, &[Token])>
    ensures exact { Tells (λ x. (x.0, x.1.now)) result (op_at tokens.now) }
    ensures shorter { IfSome result (λ x. length x.1.now < length tokens.now) }
{
    match tokens {
        [Token::Sign(Sign::Equal), rest @ ..] => Some((Op::Eq, rest)),
        [Token::Sign(Sign::NotEqual), rest @ ..] => Some((Op::Ne, rest)),
        [Token::Sign(Sign::Less), rest @ ..] => Some((Op::Lt, rest)),
        [Token::Sign(Sign::LessOrEqual), rest @ ..] => Some((Op::Le, rest)),
        [Token::Sign(Sign::Greater), rest @ ..] => Some((Op::Gt, rest)),
        [Token::Sign(Sign::GreaterOrEqual), rest @ ..] => Some((Op::Ge, rest)),
        _ => None,
    }
}

/// A truth value that has to stand in front, and what stands behind it, ISO/IEC 9075-2
/// `<truth value>`.
///
/// Example: of the tokens of `UNKNOWN OR member` it answers `Truth::Unknown` and the tokens of
/// `OR member`; of those of `NULL` it answers `Unexpected(1)`.
///
/// # Errors
///
/// `Unexpected` with the number of the tokens, where another token or none stands in front.
#[tactic(auto, unfolding(crate::specs::Inside::LeafSteps::truth_at))]
pub(crate) fn truth_value(tokens: &[Token]) -> Result<(Truth, &[Token]), GrammarFault>
    ensures exact { Gives (λ x. (x.0, x.1.now)) result (truth_at tokens.now) }
    ensures shorter { IfOk result (λ x. length x.1.now < length tokens.now) }
{
    match tokens {
        [Token::Word(Word::True), rest @ ..] => Ok((Truth::True, rest)),
        [Token::Word(Word::False), rest @ ..] => Ok((Truth::False, rest)),
        [Token::Word(Word::Unknown), rest @ ..] => Ok((Truth::Unknown, rest)),
        _ => Err(unexpected_fault(tokens)),
    }
}

/// Whether NOT stands in front, and what stands behind it; all tokens where it does not.
///
/// Example: of the tokens of `NOT NULL` it answers `true` and the tokens of `NULL`; of those of
/// `NULL`, `false` and these.
#[tactic(auto, unfolding(crate::specs::Inside::LeafSteps::mark_at))]
pub(crate) fn mark(tokens: &[Token]) -> (bool, &[Token])
    ensures exact { mark_at tokens.now ≡ (result.0, result.1.now) }
    ensures shorter { length result.1.now ≤ length tokens.now }
{
    match after_word(tokens, Word::Not) {
        None => (false, tokens),
        Some(rest) => (true, rest),
    }
}
