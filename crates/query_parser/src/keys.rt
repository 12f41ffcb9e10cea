//! Reads the keys of ORDER BY.

ghost use Rattle.std.specs.Prelude.{◌≡◌, ◌<◌, ◌≤◌, length, map, IfOk};
ghost use Rattle.query_ast.specs.Syntax.{key_form};
ghost use Rattle.query_parser.specs.Inside.Steps.{Gives};
ghost use Rattle.query_parser.specs.Inside.KeySteps.{direction_at, null_ordering_at, key_at, keys_at};
ghost use Rattle.semantics.specs.Leaves.{language_limits};

use crate::expressions::begins_expression;
use crate::fault::GrammarFault;
use crate::fronts::{after_word, expect_word};
use crate::keep::keep;
use crate::lists::{Listed, more_parts};
use crate::predicates::{MAX_LEVELS, expression};
use query_ast::Key;
use query_lexer::{Token, Word};
use std::alloc::Global;

/// Whether DESC is written, and what stands behind it or behind ASC.
#[tactic(auto, unfolding(crate::specs::Inside::KeySteps::direction_at))]
fn direction(tokens: &[Token]) -> (bool, &[Token])
    ensures exact { direction_at tokens.now ≡ (result.0, result.1.now) }
    ensures shorter { length result.1.now ≤ length tokens.now }
{
    if let Some(rest) = after_word(tokens, Word::Desc) {
        return (true, rest);
    }
    match after_word(tokens, Word::Asc) {
        Some(rest) => (false, rest),
        None => (false, tokens),
    }
}

/// Whether NULL is first: as it is written, else exactly under DESC.
#[tactic(auto, unfolding(crate::specs::Inside::KeySteps::null_ordering_at))]
fn null_ordering(tokens: &[Token], descending: bool) -> Result<(bool, &[Token]), GrammarFault>
    ensures exact { Gives (λ x. (x.0, x.1.now)) result (null_ordering_at descending tokens.now) }
    ensures shorter { IfOk result (λ x. length x.1.now ≤ length tokens.now) }
{
    let Some(rest) = after_word(tokens, Word::Nulls) else {
        return Ok((descending, tokens));
    };
    if let Some(rest) = after_word(rest, Word::First) {
        return Ok((true, rest));
    }
    let rest = expect_word(rest, Word::Last)?;
    Ok((false, rest))
}

/// A key, with its defaults resolved.
#[tactic(auto, unfolding(crate::specs::Inside::KeySteps::key_at))]
fn key(alloc: Global, tokens: &[Token]) -> Result<(Key, &[Token]), GrammarFault>
    ensures exact { Gives (λ x. (key_form x.0, x.1.now)) result (key_at language_limits tokens.now) }
    ensures shorter { IfOk result (λ x. length x.1.now < length tokens.now) }
{
    let (expression, rest) = expression(alloc, tokens, MAX_LEVELS)?;
    let (descending, rest) = direction(rest);
    let (expression, (nulls_first, rest)) = keep(expression, null_ordering(rest, descending))?;
    let key = Key {
        expression,
        descending,
        nulls_first,
    };
    Ok((key, rest))
}

/// The keys of ORDER BY, as a kind of list.
struct SortKeys;

impl Listed for SortKeys {
    ghost use Rattle.semantics.specs.Syntax.{SortKey};
    ghost use Rattle.query_ast.specs.Syntax.{key_form};
    ghost use Rattle.query_parser.specs.Inside.ExpressionSteps.{begins_expression};
    ghost use Rattle.semantics.specs.Leaves.{language_limits};
    ghost use Rattle.query_parser.specs.Inside.KeySteps.{key_at};

    type Part = Key;

    ghost Form = { SortKey };

    ghost form = { key_form };

    ghost reader = { key_at language_limits };

    ghost front = { begins_expression };

    fn begins(tokens: &[Token]) -> bool {
        begins_expression(tokens)
    }

    fn read(alloc: Global, tokens: &[Token]) -> Result<(Key, &[Token]), GrammarFault> {
        key(alloc, tokens)
    }
}

/// The keys of ORDER BY, none where it is not written.
#[tactic(auto, unfolding(crate::specs::Inside::KeySteps::keys_at))]
pub(crate) fn keys(alloc: Global, tokens: &[Token]) -> Result<(Vec<Key>, &[Token]), GrammarFault>
    ensures exact { Gives (λ x. (map key_form x.0.items, x.1.now)) result
        (keys_at language_limits tokens.now) }
    ensures shorter { IfOk result (λ x. length x.1.now ≤ length tokens.now) }
{
    let Some(rest) = after_word(tokens, Word::Order) else {
        return Ok((Vec::new(alloc), tokens));
    };
    let rest = expect_word(rest, Word::By)?;
    let (first, rest) = key(alloc, rest)?;
    more_parts::<SortKeys>(alloc, first, rest, rest.len())
}
