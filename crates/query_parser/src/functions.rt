//! Reads set functions, apart from their FILTER.

ghost use Rattle.std.specs.Prelude.{◌<◌, length, IfOk};
ghost use Rattle.query_parser.specs.Inside.Steps.{Gives};
ghost use Rattle.query_parser.specs.Inside.LeafSteps.{closed_name_at, argument_at, counted_name_at, count_at, aggregate_at};

use crate::fault::GrammarFault;
use crate::fronts::{after_sign, after_word, expect_name, expect_sign, unexpected_fault};
use query_ast::{Aggregate, Text};
use query_lexer::{Sign, Token, Word};

/// A name and its closing bracket.
#[tactic(auto, unfolding(crate::specs::Inside::LeafSteps::closed_name_at))]
fn closed_name(tokens: &[Token]) -> Result<(Text, &[Token]), GrammarFault>
    ensures exact { Gives (λ x. (x.0, x.1.now)) result (closed_name_at tokens.now) }
    ensures shorter { IfOk result (λ x. length x.1.now < length tokens.now) }
{
    let (name, rest) = expect_name(tokens)?;
    let rest = expect_sign(rest, Sign::Close)?;
    Ok((name.try_clone()?, rest))
}

/// The bracketed name behind a set function.
#[tactic(auto, unfolding(crate::specs::Inside::LeafSteps::argument_at))]
fn argument(tokens: &[Token]) -> Result<(Text, &[Token]), GrammarFault>
    ensures exact { Gives (λ x. (x.0, x.1.now)) result (argument_at tokens.now) }
    ensures shorter { IfOk result (λ x. length x.1.now < length tokens.now) }
{
    let rest = expect_sign(tokens, Sign::Open)?;
    closed_name(rest)
}

/// The name that a COUNT counts, with DISTINCT or without, and its closing bracket.
#[tactic(auto, unfolding(crate::specs::Inside::LeafSteps::counted_name_at))]
fn counted_name(tokens: &[Token]) -> Result<(Aggregate, &[Token]), GrammarFault>
    ensures exact { Gives (λ x. (x.0, x.1.now)) result (counted_name_at tokens.now) }
    ensures shorter { IfOk result (λ x. length x.1.now < length tokens.now) }
{
    if let Some(rest) = after_word(tokens, Word::Distinct) {
        let (name, rest) = closed_name(rest)?;
        return Ok((Aggregate::CountDistinct(name), rest));
    }
    let (name, rest) = closed_name(tokens)?;
    Ok((Aggregate::Count(name), rest))
}

/// The star or name in brackets behind COUNT.
#[tactic(auto, unfolding(crate::specs::Inside::LeafSteps::count_at))]
fn count(tokens: &[Token]) -> Result<(Aggregate, &[Token]), GrammarFault>
    ensures exact { Gives (λ x. (x.0, x.1.now)) result (count_at tokens.now) }
    ensures shorter { IfOk result (λ x. length x.1.now < length tokens.now) }
{
    let rest = expect_sign(tokens, Sign::Open)?;
    let Some(behind) = after_sign(rest, Sign::Star) else {
        return counted_name(rest);
    };
    let rest = expect_sign(behind, Sign::Close)?;
    Ok((Aggregate::CountRows, rest))
}

/// A set function in front, apart from its FILTER, and what stands behind it, ISO/IEC 9075-2
/// `<set function specification>`.
///
/// Example: of the tokens of `COUNT(DISTINCT shop) AS n` it answers `CountDistinct` of `shop`, and
/// the tokens of `AS n`.
///
/// # Errors
///
/// `Unexpected` at the first token that continues no set function; `OutOfMemory` where there is no
/// memory for the name.
#[tactic(auto, unfolding(crate::specs::Inside::LeafSteps::aggregate_at))]
pub(crate) fn aggregate(tokens: &[Token]) -> Result<(Aggregate, &[Token]), GrammarFault>
    ensures exact { Gives (λ x. (x.0, x.1.now)) result (aggregate_at tokens.now) }
    ensures shorter { IfOk result (λ x. length x.1.now < length tokens.now) }
{
    match tokens {
        [Token::Word(Word::Count), rest @ ..] => count(rest),
        [Token::Word(Word::Sum), rest @ ..] => {
            let (name, rest) = argument(rest)?;
            Ok((Aggregate::Sum(name), rest))
        }
        [Token::Word(Word::Min), rest @ ..] => {
            let (name, rest) = argument(rest)?;
            Ok((Aggregate::Min(name), rest))
        }
        [Token::Word(Word::Max), rest @ ..] => {
            let (name, rest) = argument(rest)?;
            Ok((Aggregate::Max(name), rest))
        }
        [Token::Word(Word::Avg), rest @ ..] => {
            let (name, rest) = argument(rest)?;
            Ok((Aggregate::Avg(name), rest))
        }
        _ => Err(unexpected_fault(tokens)),
    }
}
