//! Reads what stands behind the operands of atoms, and the truth tests behind these.

ghost use Rattle.std.specs.Prelude.{◌<◌, ◌≤◌, length, IfOk};
ghost use Rattle.query_ast.specs.Syntax.{operand_form, predicate_form};
ghost use Rattle.query_parser.specs.Inside.Steps.{Gives};
ghost use Rattle.query_parser.specs.Inside.AtomSteps.{member_after, column_of, test_after, is_after};
ghost use Rattle.semantics.specs.Leaves.{language_limits};

use crate::fault::GrammarFault;
use crate::fronts::{after_word, unexpected_fault};
use crate::keep::keep;
use crate::literals::in_list;
use crate::operators::{mark, truth_value};
use query_ast::{Expression, Operand, Predicate};
use query_lexer::{Token, Word};
use std::alloc::Global;

/// The atom of a first operand and the literals behind its IN.
#[tactic(auto, unfolding(crate::specs::Inside::AtomSteps::member_after))]
pub(crate) fn member(
    alloc: Global,
    first: Operand,
    not: bool,
    tokens: &[Token],
) -> Result<(Predicate, &[Token]), GrammarFault>
    ensures exact { Gives (λ x. (predicate_form x.0, x.1.now)) result
        (member_after language_limits.literals (operand_form first) not tokens.now) }
    ensures shorter { IfOk result (λ x. length x.1.now < length tokens.now) }
{
    let (first, (literals, rest)) = keep(first, in_list(alloc, tokens))?;
    let predicate = Predicate::In {
        operand: first,
        not,
        literals,
    };
    Ok((predicate, rest))
}

/// The atom that an operand alone is: a bare name. Anything else asks for more than these tokens.
#[tactic(auto, unfolding(crate::specs::Inside::AtomSteps::column_of))]
pub(crate) fn column(operand: Operand, tokens: &[Token]) -> Result<Predicate, GrammarFault>
    ensures { Gives predicate_form result (column_of (operand_form operand) tokens.now) }
{
    match operand {
        Operand::Expression(Expression::Name(name)) => Ok(Predicate::Column(name)),
        Operand::Expression(Expression::Grouping(_))
        | Operand::Expression(Expression::Function(_))
        | Operand::Literal(_) => Err(unexpected_fault(tokens)),
    }
}

/// A predicate and the truth test behind it, where there is one.
#[tactic(auto, unfolding(crate::specs::Inside::AtomSteps::test_after))]
pub(crate) fn optional_truth_test(
    alloc: Global,
    predicate: Predicate,
    tokens: &[Token],
) -> Result<(Predicate, &[Token]), GrammarFault>
    ensures exact { Gives (λ x. (predicate_form x.0, x.1.now)) result
        (test_after (predicate_form predicate) tokens.now) }
    ensures shorter { IfOk result (λ x. length x.1.now ≤ length tokens.now) }
{
    let Some(rest) = after_word(tokens, Word::Is) else {
        return Ok((predicate, tokens));
    };
    let (not, rest) = mark(rest);
    let (predicate, (truth, rest)) = keep(predicate, truth_value(rest))?;
    let part = Box::new(alloc, predicate)?;
    Ok((Predicate::Is { part, not, truth }, rest))
}

/// A first operand and what stands behind its IS: NULL, and maybe a truth test of that; or the
/// truth test of a bare name.
#[tactic(auto, unfolding(crate::specs::Inside::AtomSteps::is_after))]
pub(crate) fn null_or_truth_test(
    alloc: Global,
    first: Operand,
    tokens: &[Token],
) -> Result<(Predicate, &[Token]), GrammarFault>
    ensures exact { Gives (λ x. (predicate_form x.0, x.1.now)) result
        (is_after (operand_form first) tokens.now) }
    ensures shorter { IfOk result (λ x. length x.1.now ≤ length tokens.now) }
{
    let (not, rest) = mark(tokens);
    if let Some(rest) = after_word(rest, Word::Null) {
        let operand = first;
        return optional_truth_test(alloc, Predicate::IsNull { operand, not }, rest);
    }
    let column = column(first, rest)?;
    let (column, (truth, rest)) = keep(column, truth_value(rest))?;
    let part = Box::new(alloc, column)?;
    Ok((Predicate::Is { part, not, truth }, rest))
}
