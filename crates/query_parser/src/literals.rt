//! Reads literals, and the bracketed literals behind IN.

ghost use Rattle.std.specs.Prelude.{◌<◌, length, IfOk, IfSome};
ghost use Rattle.query_lexer.specs.Options.{Tells};
ghost use Rattle.query_parser.specs.Inside.Steps.{Gives};
ghost use Rattle.query_parser.specs.Inside.LeafSteps.{literal_at, literals_at};
ghost use Rattle.semantics.specs.Leaves.{language_limits};

use crate::fault::GrammarFault;
use crate::fronts::{expect_sign, unexpected_fault};
use crate::lists::{Listed, more_parts};
use query_ast::Literal;
use query_lexer::{Sign, Token, Word};
use std::alloc::{AllocError, Global};

/// The most literals of an IN list.
const MAX_LITERALS: usize = 64;

/// A literal in front, and what stands behind it, ISO/IEC 9075-2 `<literal>`; `None` where another
/// token or none stands there. NULL and UNKNOWN are none.
///
/// Example: of the tokens of `TRUE AND member` it answers `Literal::Truth(true)` and the tokens of
/// `AND member`.
///
/// # Errors
///
/// `AllocError` where there is no memory for a text; other literals take none.
#[tactic(auto, unfolding(crate::specs::Inside::LeafSteps::literal_at))]
pub(crate) fn literal(tokens: &[Token]) -> Result<Option<(Literal, &[Token])>, AllocError>
    ensures exact { IfOk result (λ found.
        Tells (λ x. (x.0, x.1.now)) found (literal_at tokens.now)) }
    ensures shorter { IfOk result (λ found.
        IfSome found (λ x. length x.1.now < length tokens.now)) }
{
    match tokens {
        [Token::Integer(value), rest @ ..] => Ok(Some((Literal::Integer(*value), rest))),
        [Token::Text(text), rest @ ..] => Ok(Some((Literal::Text(text.try_clone()?), rest))),
        [Token::Word(Word::True), rest @ ..] => Ok(Some((Literal::Truth(true), rest))),
        [Token::Word(Word::False), rest @ ..] => Ok(Some((Literal::Truth(false), rest))),
        _ => Ok(None),
    }
}

/// Literals, as a kind of list.
///
/// Example: `Literals::begins` is true of the tokens of `'x', 'y'`, and false of those of `x, 'y'`,
/// in front of which a name stands.
pub(crate) struct Literals;

impl Listed for Literals {
    ghost use Rattle.semantics.specs.declared.literal.Literal.{Literal};
    ghost use Rattle.query_parser.specs.Inside.Steps.{found_or_unexpected};
    ghost use Rattle.query_parser.specs.Inside.LeafSteps.{literal_at, begins_literal};

    type Part = Literal;

    ghost Form = { Literal };

    ghost form = { λ a. a };

    ghost reader = { found_or_unexpected literal_at };

    ghost front = { begins_literal };

    #[tactic(auto, unfolding(crate::specs::Inside::LeafSteps::literal_at))]
    fn begins(tokens: &[Token]) -> bool {
        matches!(
            tokens,
            [Token::Integer(_), ..]
                | [Token::Text(_), ..]
                | [Token::Word(Word::True), ..]
                | [Token::Word(Word::False), ..]
        )
    }

    fn read(_alloc: Global, tokens: &[Token]) -> Result<(Literal, &[Token]), GrammarFault> {
        match literal(tokens)? {
            None => Err(unexpected_fault(tokens)),
            Some(found) => Ok(found),
        }
    }
}

/// The literals in brackets behind IN, 1 to 64 of them, and what stands behind the brackets,
/// ISO/IEC 9075-2 `<in predicate value>`.
///
/// Example: of the tokens of `(1, 2) AND member` it answers the literals 1 and 2, and the tokens of
/// `AND member`; of those of `()` it answers `Unexpected(1)`.
///
/// # Errors
///
/// `OverLimit` for a 65th literal; `Unexpected` at the first token that continues no such list;
/// `OutOfMemory` where there is no memory for the literals.
#[tactic(auto, unfolding(crate::specs::Inside::LeafSteps::literals_at))]
pub(crate) fn in_list(
    alloc: Global,
    tokens: &[Token],
) -> Result<(Vec<Literal>, &[Token]), GrammarFault>
    ensures exact { Gives (λ x. (x.0.items, x.1.now)) result
        (literals_at language_limits.literals tokens.now) }
    ensures shorter { IfOk result (λ x. length x.1.now < length tokens.now) }
{
    let rest = expect_sign(tokens, Sign::Open)?;
    let (first, rest) = Literals::read(alloc, rest)?;
    let (all, rest) = more_parts::<Literals>(alloc, first, rest, MAX_LITERALS - 1)?;
    let rest = expect_sign(rest, Sign::Close)?;
    Ok((all, rest))
}
