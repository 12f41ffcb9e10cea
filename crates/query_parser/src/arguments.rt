//! Reads names with commas between them, and the bracketed names behind GROUPING.

ghost use Rattle.std.specs.Prelude.{◌<◌, ℕ, length, IfOk};
ghost use Rattle.query_parser.specs.Inside.Steps.{Gives};
ghost use Rattle.query_parser.specs.Inside.LeafSteps.{arguments_at};
ghost use Rattle.semantics.specs.Leaves.{language_limits};

use crate::fault::GrammarFault;
use crate::fronts::{expect_name, expect_sign, name};
use crate::lists::{Listed, more_parts};
use query_ast::Text;
use query_lexer::{Sign, Token};
use std::alloc::Global;

/// The most arguments of GROUPING.
const MAX_ARGUMENTS: usize = 8;

/// Names, as a kind of list.
///
/// Example: `Names::begins` is true of the tokens of `shop, cents`, and false of those of
/// `'shop', 'cents'`, which are texts.
pub(crate) struct Names;

impl Listed for Names {
    ghost use Rattle.std.specs.Prelude.{List, ℕ};
    ghost use Rattle.query_parser.specs.Inside.Steps.{found_or_unexpected, name_at, begins_name};

    type Part = Text;

    ghost Form = { List ℕ };

    ghost form = { λ n. n };

    ghost reader = { found_or_unexpected name_at };

    ghost front = { begins_name };

    fn begins(tokens: &[Token]) -> bool {
        name(tokens).is_some()
    }

    fn read(_alloc: Global, tokens: &[Token]) -> Result<(Text, &[Token]), GrammarFault> {
        let (name, rest) = expect_name(tokens)?;
        Ok((name.try_clone()?, rest))
    }
}

/// The names in brackets behind GROUPING, 1 to 8 of them, and what stands behind the brackets,
/// ISO/IEC 9075-2 `<grouping operation>`.
///
/// Example: of the tokens of `(shop, day) AS g` it answers the names `shop` and `day`, and the
/// tokens of `AS g`.
///
/// # Errors
///
/// `OverLimit` for a ninth name; `Unexpected` at the first token that continues no such list;
/// `OutOfMemory` where there is no memory for the names.
#[tactic(auto, unfolding(crate::specs::Inside::LeafSteps::arguments_at))]
pub(crate) fn grouping_names(
    alloc: Global,
    tokens: &[Token],
) -> Result<(Vec<Text>, &[Token]), GrammarFault>
    ensures exact { Gives (λ x. (x.0.items, x.1.now)) result
        (arguments_at language_limits.arguments tokens.now) }
    ensures shorter { IfOk result (λ x. length x.1.now < length tokens.now) }
{
    let rest = expect_sign(tokens, Sign::Open)?;
    let (first, rest) = expect_name(rest)?;
    let (all, rest) = more_parts::<Names>(alloc, first.try_clone()?, rest, MAX_ARGUMENTS - 1)?;
    let rest = expect_sign(rest, Sign::Close)?;
    Ok((all, rest))
}
