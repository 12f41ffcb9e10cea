//! Reads the elements of GROUP BY.

ghost use Rattle.std.specs.Prelude.{◌≡◌, ◌<◌, ◌≤◌, ◌∷◌, [], length, map, IfOk};
ghost use Rattle.semantics.specs.declared.token.Sign.TheVariants.{Comma};
ghost use Rattle.query_ast.specs.Syntax.{element_form};
ghost use Rattle.query_parser.specs.Inside.Fronts.{is_sign};
ghost use Rattle.query_parser.specs.Inside.Steps.{Gives, with_front, more};
ghost use Rattle.query_parser.specs.Inside.PredicateSteps.{any_front};
ghost use Rattle.query_parser.specs.Inside.GroupSteps.{sets_at, group_at};
ghost use Rattle.query_parser.specs.Inside.QuerySteps.{elements_at, groups_at, set_quantifier_at};
ghost use Rattle.semantics.specs.Leaves.{language_limits};

use crate::fault::GrammarFault;
use crate::fronts::{after_sign, after_word, expect_sign, expect_word};
use crate::keep::keep;
use crate::units::{set, units};
use query_ast::GroupingElement;
use query_lexer::{Sign, Token, Word};
use std::alloc::Global;

/// The most levels of GROUPING SETS in one another.
const MAX_LEVELS: u32 = 16;

/// An element of GROUP BY, with at most so many levels of GROUPING SETS in one another.
#[cycle(group)]
#[tactic(auto, unfolding(crate::specs::Inside::GroupSteps::element_at))]
fn group(
    alloc: Global,
    tokens: &[Token],
    levels: u32,
) -> Result<(GroupingElement, &[Token]), GrammarFault>
    ensures exact { Gives (λ x. (element_form x.0, x.1.now)) result (group_at levels tokens.now) }
    ensures shorter { IfOk result (λ x. length x.1.now < length tokens.now) }
{
    if let Some(rest) = after_word(tokens, Word::Rollup) {
        let (units, rest) = units(alloc, rest)?;
        return Ok((GroupingElement::Rollup(units), rest));
    }
    if let Some(rest) = after_word(tokens, Word::Cube) {
        let (units, rest) = units(alloc, rest)?;
        return Ok((GroupingElement::Cube(units), rest));
    }
    if let Some(rest) = after_word(tokens, Word::Grouping) {
        return grouping_sets(alloc, rest, levels);
    }
    let (names, rest) = set(alloc, tokens)?;
    Ok((GroupingElement::Set(names), rest))
}

/// What stands behind GROUPING: SETS and its bracketed elements, with at most so many levels of
/// GROUPING SETS in all.
#[cycle(group)]
#[tactic(auto, unfolding(crate::specs::Inside::GroupSteps::sets_at))]
fn grouping_sets(
    alloc: Global,
    tokens: &[Token],
    levels: u32,
) -> Result<(GroupingElement, &[Token]), GrammarFault>
    ensures exact { Gives (λ x. (element_form x.0, x.1.now)) result (sets_at levels tokens.now) }
    ensures shorter { IfOk result (λ x. length x.1.now < length tokens.now) }
{
    if levels == 0 {
        return Err(GrammarFault::OverLimit);
    }
    let rest = expect_word(tokens, Word::Sets)?;
    let rest = expect_sign(rest, Sign::Open)?;
    let (first, rest) = group(alloc, rest, levels - 1)?;
    let (all, rest) = more_groups(alloc, first, rest, levels - 1)?;
    let (all, rest) = keep(all, expect_sign(rest, Sign::Close))?;
    Ok((GroupingElement::Sets(all), rest))
}

/// The first element and those behind it, each behind its comma.
#[cycle(group)]
fn more_groups(
    alloc: Global,
    first: GroupingElement,
    tokens: &[Token],
    levels: u32,
) -> Result<(Vec<GroupingElement>, &[Token]), GrammarFault>
    ensures exact { Gives (λ x. (map element_form x.0.items, x.1.now))
        result (with_front (element_form first ∷ [])
        (more (is_sign Comma) any_front (group_at levels) (length tokens.now) tokens.now)) }
    ensures shorter { IfOk result (λ x. length x.1.now ≤ length tokens.now) }
{
    let mut all = Vec::new(alloc);
    all.push(first)?;
    let mut rest = tokens;
    while let Some(behind) = after_sign(rest, Sign::Comma) {
        let (next, left) = group(alloc, behind, levels)?;
        all.push(next)?;
        rest = left;
    }
    Ok((all, rest))
}

/// Whether DISTINCT is written, and what stands behind it.
#[tactic(auto, unfolding(crate::specs::Inside::QuerySteps::set_quantifier_at))]
fn set_quantifier(tokens: &[Token]) -> (bool, &[Token])
    ensures exact { set_quantifier_at tokens.now ≡ (result.0, result.1.now) }
    ensures shorter { length result.1.now ≤ length tokens.now }
{
    match after_word(tokens, Word::Distinct) {
        Some(rest) => (true, rest),
        None => (false, tokens),
    }
}

/// What stands behind GROUP BY: whether DISTINCT is written, and the elements.
#[tactic(auto, unfolding(crate::specs::Inside::QuerySteps::elements_at))]
fn elements(
    alloc: Global,
    tokens: &[Token],
) -> Result<((bool, Vec<GroupingElement>), &[Token]), GrammarFault>
    ensures exact { Gives (λ x. ((x.0.0, map element_form x.0.1.items), x.1.now)) result
        (elements_at language_limits tokens.now) }
    ensures shorter { IfOk result (λ x. length x.1.now < length tokens.now) }
{
    let (distinct, rest) = set_quantifier(tokens);
    let (first, rest) = group(alloc, rest, MAX_LEVELS)?;
    let (all, rest) = more_groups(alloc, first, rest, MAX_LEVELS)?;
    Ok(((distinct, all), rest))
}

/// Whether GROUP BY DISTINCT is written, and the elements of GROUP BY, none where it is not
/// written.
#[tactic(auto, unfolding(crate::specs::Inside::QuerySteps::groups_at))]
pub(crate) fn groups(
    alloc: Global,
    tokens: &[Token],
) -> Result<((bool, Vec<GroupingElement>), &[Token]), GrammarFault>
    ensures exact { Gives (λ x. ((x.0.0, map element_form x.0.1.items), x.1.now)) result
        (groups_at language_limits tokens.now) }
    ensures shorter { IfOk result (λ x. length x.1.now ≤ length tokens.now) }
{
    let Some(rest) = after_word(tokens, Word::Group) else {
        return Ok(((false, Vec::new(alloc)), tokens));
    };
    let rest = expect_word(rest, Word::By)?;
    elements(alloc, rest)
}
