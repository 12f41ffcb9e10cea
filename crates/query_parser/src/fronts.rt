//! The token in front.

ghost use Rattle.std.specs.Prelude.{◌≡◌, ◌<◌, length, IfOk, IfSome};
ghost use Rattle.query_lexer.specs.Options.{Tells};
ghost use Rattle.query_parser.specs.declared.fault.GrammarFault.TheVariants.{Unexpected};
ghost use Rattle.query_parser.specs.Inside.Fronts.{is_word, is_sign, after};
ghost use Rattle.query_parser.specs.Inside.Steps.{Gives, found_or_unexpected, name_at};

use crate::fault::GrammarFault;
use query_ast::Text;
use query_lexer::{Sign, Token, Word};

/// What stands behind a reserved word in front; `None` where another token or none stands there.
///
/// Example: of the tokens of `FROM lines` and `Word::From` it answers those of `lines`; with
/// `Word::Where` it answers `None`.
pub(crate) fn after_word(tokens: &[Token], word: Word) -> Option<&[Token]>
    ensures exact { Tells (λ x. x.now) result (after (is_word word) tokens.now) }
    ensures shorter { IfSome result (λ x. length x.now < length tokens.now) }
{
    match tokens {
        [Token::Word(found), rest @ ..] if *found as u8 == word as u8 => Some(rest),
        _ => None,
    }
}

/// What stands behind a sign in front; `None` where another token or none stands there.
///
/// Example: of the tokens of `, cents` and `Sign::Comma` it answers those of `cents`; with
/// `Sign::Close` it answers `None`.
pub(crate) fn after_sign(tokens: &[Token], sign: Sign) -> Option<&[Token]>
    ensures exact { Tells (λ x. x.now) result (after (is_sign sign) tokens.now) }
    ensures shorter { IfSome result (λ x. length x.now < length tokens.now) }
{
    match tokens {
        [Token::Sign(found), rest @ ..] if *found as u8 == sign as u8 => Some(rest),
        _ => None,
    }
}

/// A name in front, and what stands behind it; `None` where another token or none stands there. A
/// reserved word is no name.
///
/// Example: of the tokens of `shop, cents` it answers `shop` and the tokens of `, cents`; of those
/// of `FROM lines`, `None`.
#[tactic(auto, unfolding(crate::specs::Inside::Steps::name_at))]
pub(crate) fn name(tokens: &[Token]) -> Option<(&Text, &[Token])>
    ensures exact { Tells (λ x. (x.0.now, x.1.now)) result (name_at tokens.now) }
    ensures shorter { IfSome result (λ x. length x.1.now < length tokens.now) }
{
    match tokens {
        [Token::Name(name), rest @ ..] => Some((name, rest)),
        _ => None,
    }
}

/// The fault that the first of these tokens does not continue a query, or that the end does not:
/// `Unexpected` with their number.
///
/// Example: of the tokens of `FROM lines` it answers `Unexpected(2)`, and of none `Unexpected(0)`.
pub(crate) fn unexpected_fault(tokens: &[Token]) -> GrammarFault
    ensures { result ≡ Unexpected (length tokens.now) }
{
    GrammarFault::Unexpected(tokens.len())
}

/// What stands behind a reserved word that has to stand in front.
///
/// Example: of the tokens of `BY shop` and `Word::By` it answers those of `shop`; with `Word::Sets`
/// it answers `Unexpected(2)`.
///
/// # Errors
///
/// `Unexpected` with the number of the tokens, where another token or none stands in front.
pub(crate) fn expect_word(tokens: &[Token], word: Word) -> Result<&[Token], GrammarFault>
    ensures exact { Gives (λ x. x.now) result (found_or_unexpected (after (is_word word)) tokens.now) }
    ensures shorter { IfOk result (λ x. length x.now < length tokens.now) }
{
    match after_word(tokens, word) {
        None => Err(unexpected_fault(tokens)),
        Some(rest) => Ok(rest),
    }
}

/// What stands behind a sign that has to stand in front.
///
/// Example: of the tokens of `(shop)` and `Sign::Open` it answers those of `shop)`; with
/// `Sign::Comma` it answers `Unexpected(3)`.
///
/// # Errors
///
/// `Unexpected` with the number of the tokens, where another token or none stands in front.
pub(crate) fn expect_sign(tokens: &[Token], sign: Sign) -> Result<&[Token], GrammarFault>
    ensures exact { Gives (λ x. x.now) result (found_or_unexpected (after (is_sign sign)) tokens.now) }
    ensures shorter { IfOk result (λ x. length x.now < length tokens.now) }
{
    match after_sign(tokens, sign) {
        None => Err(unexpected_fault(tokens)),
        Some(rest) => Ok(rest),
    }
}

/// A name that has to stand in front, and what stands behind it.
///
/// Example: of the tokens of `lines WHERE member` it answers `lines` and the tokens of
/// `WHERE member`; of those of `WHERE member` it answers `Unexpected(2)`.
///
/// # Errors
///
/// `Unexpected` with the number of the tokens, where another token or none stands in front.
pub(crate) fn expect_name(tokens: &[Token]) -> Result<(&Text, &[Token]), GrammarFault>
    ensures exact { Gives (λ x. (x.0.now, x.1.now)) result (found_or_unexpected name_at tokens.now) }
    ensures shorter { IfOk result (λ x. length x.1.now < length tokens.now) }
{
    match name(tokens) {
        None => Err(unexpected_fault(tokens)),
        Some(found) => Ok(found),
    }
}
