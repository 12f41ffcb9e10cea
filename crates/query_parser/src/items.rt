//! Reads the items of SELECT.

ghost use Rattle.std.specs.Prelude.{◌<◌, ◌≤◌, length, map, IfOk};
ghost use Rattle.query_ast.specs.Syntax.{item_form};
ghost use Rattle.query_parser.specs.Inside.Steps.{Gives};
ghost use Rattle.query_parser.specs.Inside.QuerySteps.{alias_at, item_at, items_at};
ghost use Rattle.semantics.specs.Leaves.{language_limits};

use crate::expressions::begins_expression;
use crate::fault::GrammarFault;
use crate::fronts::{after_word, expect_name};
use crate::keep::keep;
use crate::lists::{Listed, more_parts};
use crate::predicates::{MAX_LEVELS, expression};
use query_ast::{Item, Text};
use query_lexer::{Token, Word};
use std::alloc::Global;

/// The most items of a query.
const MAX_ITEMS: usize = 64;

/// An alias, or none.
#[tactic(auto, unfolding(crate::specs::Inside::QuerySteps::alias_at))]
fn alias(tokens: &[Token]) -> Result<(Option<Text>, &[Token]), GrammarFault>
    ensures exact { Gives (λ x. (x.0, x.1.now)) result (alias_at tokens.now) }
    ensures shorter { IfOk result (λ x. length x.1.now ≤ length tokens.now) }
{
    let Some(rest) = after_word(tokens, Word::As) else {
        return Ok((None, tokens));
    };
    let (name, rest) = expect_name(rest)?;
    Ok((Some(name.try_clone()?), rest))
}

/// An item.
#[tactic(auto, unfolding(crate::specs::Inside::QuerySteps::item_at))]
fn item(alloc: Global, tokens: &[Token]) -> Result<(Item, &[Token]), GrammarFault>
    ensures exact { Gives (λ x. (item_form x.0, x.1.now)) result (item_at language_limits tokens.now) }
    ensures shorter { IfOk result (λ x. length x.1.now < length tokens.now) }
{
    let (expression, rest) = expression(alloc, tokens, MAX_LEVELS)?;
    let (expression, (alias, rest)) = keep(expression, alias(rest))?;
    Ok((Item { expression, alias }, rest))
}

/// The items of SELECT, as a kind of list.
struct SelectItems;

impl Listed for SelectItems {
    ghost use Rattle.semantics.specs.Syntax.{SelectItem};
    ghost use Rattle.query_ast.specs.Syntax.{item_form};
    ghost use Rattle.query_parser.specs.Inside.ExpressionSteps.{begins_expression};
    ghost use Rattle.semantics.specs.Leaves.{language_limits};
    ghost use Rattle.query_parser.specs.Inside.QuerySteps.{item_at};

    type Part = Item;

    ghost Form = { SelectItem };

    ghost form = { item_form };

    ghost reader = { item_at language_limits };

    ghost front = { begins_expression };

    fn begins(tokens: &[Token]) -> bool {
        begins_expression(tokens)
    }

    fn read(alloc: Global, tokens: &[Token]) -> Result<(Item, &[Token]), GrammarFault> {
        item(alloc, tokens)
    }
}

/// The items of SELECT.
#[tactic(auto, unfolding(crate::specs::Inside::QuerySteps::items_at))]
pub(crate) fn items(alloc: Global, tokens: &[Token]) -> Result<(Vec<Item>, &[Token]), GrammarFault>
    ensures exact { Gives (λ x. (map item_form x.0.items, x.1.now)) result
        (items_at language_limits tokens.now) }
    ensures shorter { IfOk result (λ x. length x.1.now < length tokens.now) }
{
    let (first, rest) = item(alloc, tokens)?;
    more_parts::<SelectItems>(alloc, first, rest, MAX_ITEMS - 1)
}
