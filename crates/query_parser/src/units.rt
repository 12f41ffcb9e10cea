//! Reads the units and sets of GROUP BY: a name, names in brackets, or brackets round nothing.

ghost use Rattle.std.specs.Prelude.{◌<◌, length, IfOk, IfSome};
ghost use Rattle.query_lexer.specs.Options.{Tells};
ghost use Rattle.query_ast.specs.Syntax.{units_form};
ghost use Rattle.query_parser.specs.Inside.Steps.{Gives};
ghost use Rattle.query_parser.specs.Inside.GroupSteps.{unit_at, units_at, nothing_at, set_at};

use crate::arguments::Names;
use crate::fault::GrammarFault;
use crate::fronts::{after_sign, expect_name, expect_sign, name};
use crate::keep::keep;
use crate::lists::{Listed, more_parts};
use query_ast::Text;
use query_lexer::{Sign, Token};
use std::alloc::Global;

/// A name, or names in brackets.
#[tactic(auto, unfolding(crate::specs::Inside::GroupSteps::unit_at))]
fn unit(alloc: Global, tokens: &[Token]) -> Result<(Vec<Text>, &[Token]), GrammarFault>
    ensures exact { Gives (λ x. (x.0.items, x.1.now)) result (unit_at tokens.now) }
    ensures shorter { IfOk result (λ x. length x.1.now < length tokens.now) }
{
    if let Some((name, rest)) = name(tokens) {
        let mut names = Vec::new(alloc);
        names.push(name.try_clone()?)?;
        return Ok((names, rest));
    }
    let rest = expect_sign(tokens, Sign::Open)?;
    let (first, rest) = expect_name(rest)?;
    let (names, rest) = more_parts::<Names>(alloc, first.try_clone()?, rest, rest.len())?;
    let (names, rest) = keep(names, expect_sign(rest, Sign::Close))?;
    Ok((names, rest))
}

/// The units of ROLLUP and CUBE, as a kind of list.
struct GroupingUnits;

impl Listed for GroupingUnits {
    ghost use Rattle.std.specs.Prelude.{List, ℕ};
    ghost use Rattle.query_parser.specs.Inside.GroupSteps.{unit_at, begins_unit};

    type Part = Vec<Text>;

    ghost Form = { List (List ℕ) };

    ghost form = { λ unit. unit.items };

    ghost reader = { unit_at };

    ghost front = { begins_unit };

    #[tactic(auto, unfolding(crate::specs::Inside::GroupSteps::begins_unit))]
    fn begins(tokens: &[Token]) -> bool {
        matches!(tokens, [Token::Name(_), ..] | [Token::Sign(Sign::Open), ..])
    }

    fn read(alloc: Global, tokens: &[Token]) -> Result<(Vec<Text>, &[Token]), GrammarFault> {
        unit(alloc, tokens)
    }
}

/// The bracketed units behind ROLLUP or CUBE.
#[tactic(auto, unfolding(crate::specs::Inside::GroupSteps::units_at))]
pub(crate) fn units(
    alloc: Global,
    tokens: &[Token],
) -> Result<(Vec<Vec<Text>>, &[Token]), GrammarFault>
    ensures exact { Gives (λ x. (units_form x.0.items, x.1.now)) result (units_at tokens.now) }
    ensures shorter { IfOk result (λ x. length x.1.now < length tokens.now) }
{
    let rest = expect_sign(tokens, Sign::Open)?;
    let (first, rest) = unit(alloc, rest)?;
    let (all, rest) = more_parts::<GroupingUnits>(alloc, first, rest, rest.len())?;
    let (all, rest) = keep(all, expect_sign(rest, Sign::Close))?;
    Ok((all, rest))
}

/// What stands behind brackets round nothing.
#[tactic(auto, unfolding(crate::specs::Inside::GroupSteps::nothing_at))]
fn after_nothing(tokens: &[Token]) -> Option<&[Token]>
    ensures exact { Tells (λ x. x.now) result (nothing_at tokens.now) }
    ensures shorter { IfSome result (λ x. length x.now < length tokens.now) }
{
    let rest = after_sign(tokens, Sign::Open)?;
    after_sign(rest, Sign::Close)
}

/// A unit, or the set of no columns.
#[tactic(auto, unfolding(crate::specs::Inside::GroupSteps::set_at))]
pub(crate) fn set(alloc: Global, tokens: &[Token]) -> Result<(Vec<Text>, &[Token]), GrammarFault>
    ensures exact { Gives (λ x. (x.0.items, x.1.now)) result (set_at tokens.now) }
    ensures shorter { IfOk result (λ x. length x.1.now < length tokens.now) }
{
    if let Some(rest) = after_nothing(tokens) {
        return Ok((Vec::new(alloc), rest));
    }
    unit(alloc, tokens)
}
