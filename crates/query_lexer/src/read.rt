//! Reads tokens from the left.

ghost use Rattle.std.specs.Prelude.{◌≡◌, ◌<◌, ℕ, List, Err, length, IfOk, IfSome, MatchResult};
ghost use Rattle.std.specs.List.{prefix_len};
ghost use Rattle.query_lexer.specs.declared.fault.TokenFault.TheVariants.{NoToken, OutOfMemory};
ghost use Rattle.semantics.specs.declared.token.Token.{Token};
ghost use Rattle.semantics.specs.Words.{continues_word};
ghost use Rattle.semantics.specs.Tokens.{Spells, StopsAt};
ghost use Rattle.query_lexer.specs.Options.{Tells};
ghost use Rattle.query_lexer.specs.Steps.{word_of, word_at, other_at, token_at};

use crate::fault::TokenFault;
use crate::numbers::number;
use crate::quotes::{quoted_name, quoted_text};
use crate::signs::{after_space, behind, sign};
use crate::words::{reserved_word, starts_word, word_len};
use query_ast::Text;
use semantics::Token;
use std::alloc::{AllocError, Global};

/// The tokens of a text, and beside each the byte where it begins.
///
/// Example: those of `COUNT( * )` are a word and three signs, which begin at the bytes 0, 5, 7 and
/// 9.
#[derive(Drop)]
pub struct Tokens {
    /// The tokens in order.
    pub all: Vec<Token>,
    /// For each token, in the same order, the byte of the text, from 0, where it begins.
    pub starts: Vec<usize>,
}

fn word_token(alloc: Global, word: &str) -> Result<Token, AllocError>
    ensures { IfOk result (λ k. k ≡ word_of word.now) }
{
    match reserved_word(word) {
        Some(reserved) => Ok(Token::Word(reserved)),
        None => Ok(Token::Name(Text::from_string(String::from_str(alloc, word)?))),
    }
}

/// The longest word in front.
fn word(alloc: Global, text: &str) -> Result<(Token, &str), AllocError>
    requires { 0 < prefix_len continues_word text.now }
    ensures exact { IfOk result (λ x. (x.0, x.1.now) ≡ word_at text.now) }
    ensures shorter { IfOk result (λ x. length x.1.now < length text.now) }
{
    let (front, rest) = text.split_at(word_len(text.as_bytes()));
    Ok((word_token(alloc, front)?, rest))
}

/// What is quoted or a whole number in front.
#[tactic(auto, unfolding(crate::specs::Steps::other_at))]
fn other(alloc: Global, text: &str) -> Result<Option<(Token, &str)>, AllocError>
    ensures exact { IfOk result (λ o. Tells (λ x. (x.0, x.1.now)) o (other_at text.now)) }
    ensures shorter { IfOk result (λ o. IfSome o (λ x. length x.1.now < length text.now)) }
{
    if let Some(rest) = behind(text, '"') {
        return quoted_name(alloc, rest);
    }
    if let Some(rest) = behind(text, '\'') {
        return quoted_text(alloc, rest);
    }
    Ok(number(text))
}

/// The token in front.
#[tactic(auto, unfolding(crate::specs::Steps::token_at), using(crate::proofs::Cut::word_begins))]
fn token(alloc: Global, text: &str) -> Result<Option<(Token, &str)>, AllocError>
    ensures exact { IfOk result (λ o. Tells (λ x. (x.0, x.1.now)) o (token_at text.now)) }
    ensures shorter { IfOk result (λ o. IfSome o (λ x. length x.1.now < length text.now)) }
{
    if starts_word(text) {
        return Ok(Some(word(alloc, text)?));
    }
    match sign(text) {
        None => other(alloc, text),
        Some((sign, rest)) => Ok(Some((Token::Sign(sign), rest))),
    }
}

/// The tokens that a text spells, each as long as it can be, with white space between them or none.
///
/// Example: `read_tokens(alloc, "n >= 5")` answers the name `n`, the sign `>=` and the whole number
/// 5, which begin at the bytes 0, 2 and 5; of `"n ; 5"` it answers `NoToken(2)`.
///
/// # Errors
///
/// `NoToken` with the byte, from 0, behind the tokens in front, where no token begins.
/// `OutOfMemory` where memory was refused, which says nothing of the text.
pub fn read_tokens(alloc: Global, text: &str) -> Result<Tokens, TokenFault>
    // What is read is spelled.
    ensures spelled { IfOk result (λ found. Spells text.now found.all.items found.starts.items) }
    // What is spelled is read, and no other, unless memory runs out.
    ensures read { (ks : List Token) (starts : List ℕ) → Spells text.now ks starts
        → MatchResult result (λ found. (found.all.items ≡ ks) × (found.starts.items ≡ starts))
        (λ fault. fault ≡ OutOfMemory) }
    // A fault stands where no token begins.
    ensures stops { (at : ℕ) → result ≡ Err (NoToken at) → StopsAt text.now at }
{
    let mut all = Vec::new(alloc);
    let mut starts = Vec::new(alloc);
    let mut rest = text;
    while !rest.is_empty() {
        if let Some(left) = after_space(rest) {
            rest = left;
        } else {
            let start = text.len() - rest.len();
            let Some((next, left)) = token(alloc, rest)? else {
                return Err(TokenFault::NoToken(start));
            };
            all.push(next)?;
            starts.push(start)?;
            rest = left;
        }
    }
    Ok(Tokens { all, starts })
}
