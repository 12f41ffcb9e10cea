//! Whole numbers.

ghost use Rattle.std.specs.Prelude.{◌≡◌, ◌<◌, length, IfSome};
ghost use Rattle.std.specs.List.{prefix_len};
ghost use Rattle.std.specs.Char.{is_ascii_digit};
ghost use Rattle.std.specs.Str.Parse.{IsNumeral};
ghost use Rattle.query_lexer.specs.Options.{Tells};
ghost use Rattle.query_lexer.specs.Steps.{digits_at, number_of, number_behind, number_at};

use crate::signs::behind;
use crate::words::starts_word;
use semantics::Token;

/// The size of the least number of 64 bits, and one more than the largest.
const LIMIT: u64 = 1 << 63;

fn digit_len(bytes: &[u8]) -> usize
    ensures { result ≡ prefix_len is_ascii_digit bytes.now }
{
    bytes
        .iter()
        .take_while(|byte| byte.is_ascii_digit())
        .count()
}

/// The digits in front, where no word follows them.
#[tactic(auto, unfolding(crate::specs::Steps::digits_at))]
fn digits(text: &str) -> Option<(&str, &str)>
    ensures exact { Tells (λ x. (x.0.now, x.1.now)) result (digits_at text.now) }
    ensures digits { IfSome result (λ x. IsNumeral 10 x.0.now) }
    ensures shorter { IfSome result (λ x. length x.1.now < length text.now) }
{
    let len = digit_len(text.as_bytes());
    if len == 0 {
        return None;
    }
    let (front, rest) = text.split_at(len);
    if starts_word(rest) {
        return None;
    }
    Some((front, rest))
}

#[tactic(auto, unfolding(crate::specs::Steps::number_of))]
fn number_of(minus: bool, size: u64) -> Option<i64>
    ensures { result ≡ number_of minus size }
{
    if minus {
        if size > LIMIT {
            return None;
        }
        Some((-(size as i128)) as i64)
    } else {
        if size >= LIMIT {
            return None;
        }
        Some(size as i64)
    }
}

#[tactic(auto, unfolding(crate::specs::Steps::number_behind))]
fn number_behind(minus: bool, text: &str) -> Option<(Token, &str)>
    ensures exact { Tells (λ x. (x.0, x.1.now)) result (number_behind minus text.now) }
    ensures shorter { IfSome result (λ x. length x.1.now < length text.now) }
{
    let (front, rest) = digits(text)?;
    let Ok(size) = front.parse::<u64>() else {
        return None;
    };
    let value = number_of(minus, size)?;
    Some((Token::Integer(value), rest))
}

/// The whole number in front.
#[tactic(auto, unfolding(crate::specs::Steps::number_at))]
pub fn number(text: &str) -> Option<(Token, &str)>
    ensures exact { Tells (λ x. (x.0, x.1.now)) result (number_at text.now) }
    ensures shorter { IfSome result (λ x. length x.1.now < length text.now) }
{
    match behind(text, '-') {
        None => number_behind(false, text),
        Some(rest) => number_behind(true, rest),
    }
}
