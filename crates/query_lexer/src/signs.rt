//! Signs and white space.

ghost use Rattle.std.specs.Prelude.{◌≡◌, ◌<◌, ◌≤◌, length, IfSome};
ghost use Rattle.query_lexer.specs.Options.{Tells};
ghost use Rattle.query_lexer.specs.Steps.{behind, after_space, sign_behind_less, sign_behind_greater, order_at, sign_at, IsAscii};

use semantics::Sign;

/// What stands behind an ASCII character in front.
pub fn behind(text: &str, c: char) -> Option<&str>
    requires { IsAscii c }
    ensures exact { Tells (λ x. x.now) result (behind c text.now) }
    ensures shorter { IfSome result (λ x. length x.now < length text.now) }
{
    text.strip_prefix(c)
}

/// What stands behind white space in front, of one character.
pub fn after_space(text: &str) -> Option<&str>
    ensures exact { Tells (λ x. x.now) result (after_space text.now) }
    ensures shorter { IfSome result (λ x. length x.now < length text.now) }
{
    if let Some(rest) = behind(text, ' ') {
        return Some(rest);
    }
    if let Some(rest) = behind(text, '\t') {
        return Some(rest);
    }
    if let Some(rest) = behind(text, '\n') {
        return Some(rest);
    }
    behind(text, '\r')
}

#[tactic(auto, unfolding(crate::specs::Steps::sign_behind_less))]
fn behind_less(text: &str) -> (Sign, &str)
    ensures exact { sign_behind_less text.now ≡ (result.0, result.1.now) }
    ensures shorter { length result.1.now ≤ length text.now }
{
    if let Some(rest) = behind(text, '=') {
        return (Sign::LessOrEqual, rest);
    }
    if let Some(rest) = behind(text, '>') {
        return (Sign::NotEqual, rest);
    }
    (Sign::Less, text)
}

#[tactic(auto, unfolding(crate::specs::Steps::sign_behind_greater))]
fn behind_greater(text: &str) -> (Sign, &str)
    ensures exact { sign_behind_greater text.now ≡ (result.0, result.1.now) }
    ensures shorter { length result.1.now ≤ length text.now }
{
    if let Some(rest) = behind(text, '=') {
        return (Sign::GreaterOrEqual, rest);
    }
    (Sign::Greater, text)
}

#[tactic(auto, unfolding(crate::specs::Steps::order_at))]
fn order(text: &str) -> Option<(Sign, &str)>
    ensures exact { Tells (λ x. (x.0, x.1.now)) result (order_at text.now) }
    ensures shorter { IfSome result (λ x. length x.1.now < length text.now) }
{
    if let Some(rest) = behind(text, '<') {
        return Some(behind_less(rest));
    }
    let rest = behind(text, '>')?;
    Some(behind_greater(rest))
}

/// The sign in front.
#[tactic(auto, unfolding(crate::specs::Steps::sign_at))]
pub fn sign(text: &str) -> Option<(Sign, &str)>
    ensures exact { Tells (λ x. (x.0, x.1.now)) result (sign_at text.now) }
    ensures shorter { IfSome result (λ x. length x.1.now < length text.now) }
{
    if let Some(rest) = behind(text, '(') {
        return Some((Sign::Open, rest));
    }
    if let Some(rest) = behind(text, ')') {
        return Some((Sign::Close, rest));
    }
    if let Some(rest) = behind(text, ',') {
        return Some((Sign::Comma, rest));
    }
    if let Some(rest) = behind(text, '*') {
        return Some((Sign::Star, rest));
    }
    if let Some(rest) = behind(text, '=') {
        return Some((Sign::Equal, rest));
    }
    order(text)
}
