//! Quoted names and texts.

ghost use Rattle.std.specs.Prelude.{◌≡◌, ◌<◌, length, IfOk, IfSome, string_bytes};
ghost use Rattle.query_lexer.specs.Options.{Tells};
ghost use Rattle.query_lexer.specs.Steps.{quoted_at, name_behind, text_behind, IsAscii};

use crate::signs::behind;
use query_ast::Text;
use semantics::Token;
use std::alloc::{AllocError, Global};

/// What is quoted, from behind its first quote on, and what stands behind its last quote.
fn quoted_content(
    alloc: Global,
    text: &str,
    quote: char,
) -> Result<Option<(String, &str)>, AllocError>
    requires { IsAscii quote }
    ensures exact { IfOk result (λ o.
        Tells (λ x. (string_bytes x.0, x.1.now)) o (quoted_at quote text.now)) }
    ensures shorter { IfOk result (λ o. IfSome o (λ x. length x.1.now < length text.now)) }
{
    let mut found = String::new(alloc);
    let mut rest = text;
    while let Some((piece, left)) = rest.split_once(quote) {
        found.push_str(piece)?;
        let Some(more) = behind(left, quote) else {
            return Ok(Some((found, left)));
        };
        found.push(quote)?;
        rest = more;
    }
    Ok(None)
}

/// The quoted name, from behind its first quote on.
#[tactic(auto, unfolding(crate::specs::Steps::name_behind))]
pub fn quoted_name(alloc: Global, text: &str) -> Result<Option<(Token, &str)>, AllocError>
    ensures exact { IfOk result (λ o. Tells (λ x. (x.0, x.1.now)) o (name_behind text.now)) }
    ensures shorter { IfOk result (λ o. IfSome o (λ x. length x.1.now < length text.now)) }
{
    let Some((name, rest)) = quoted_content(alloc, text, '"')? else {
        return Ok(None);
    };
    if name.is_empty() {
        return Ok(None);
    }
    Ok(Some((Token::Name(Text::from_string(name)), rest)))
}

/// The text, from behind its first quote on.
#[tactic(auto, unfolding(crate::specs::Steps::text_behind))]
pub fn quoted_text(alloc: Global, text: &str) -> Result<Option<(Token, &str)>, AllocError>
    ensures exact { IfOk result (λ o. Tells (λ x. (x.0, x.1.now)) o (text_behind text.now)) }
    ensures shorter { IfOk result (λ o. IfSome o (λ x. length x.1.now < length text.now)) }
{
    let Some((content, rest)) = quoted_content(alloc, text, '\'')? else {
        return Ok(None);
    };
    Ok(Some((Token::Text(Text::from_string(content)), rest)))
}
