//! Reads expressions and predicates, which hold one another: a FILTER is a predicate.

ghost use Rattle.std.specs.Prelude.{◌≡◌, ◌<◌, ◌≤◌, length, map, IfOk, MatchResult};
ghost use Rattle.semantics.specs.declared.token.Word.TheVariants.{And, Or};
ghost use Rattle.query_ast.specs.Syntax.{expression_form, function_form, operand_form, predicate_form};
ghost use Rattle.query_parser.specs.declared.fault.GrammarFault.TheVariants.{OutOfMemory};
ghost use Rattle.query_parser.specs.Inside.Fronts.{is_word};
ghost use Rattle.semantics.specs.Productions.{conjunction_of, disjunction_of};
ghost use Rattle.query_parser.specs.Inside.Steps.{Gives, more};
ghost use Rattle.query_parser.specs.Inside.ExpressionSteps.{filter_at, function_at, expression_at};
ghost use Rattle.query_parser.specs.Inside.AtomSteps.{operand_at, between_after, negated_after, atom_after, tested_atom_at};
ghost use Rattle.query_parser.specs.Inside.PredicateSteps.{test_at, negation_at, conjunction_at, predicate_at, any_front, inside_of};
ghost use Rattle.semantics.specs.Leaves.{language_limits};

use crate::arguments::grouping_names;
use crate::atoms::{column, member, null_or_truth_test, optional_truth_test};
use crate::fault::GrammarFault;
use crate::fronts::{after_sign, after_word, expect_sign, expect_word, name};
use crate::functions::aggregate;
use crate::keep::keep;
use crate::literals::literal;
use crate::operators::operator;
use query_ast::{Expression, Operand, Predicate, SetFunction};
use query_lexer::{Sign, Token, Word};
use std::alloc::Global;

/// The most levels of brackets round a predicate, those of FILTER among them. An expression is read
/// with this number, a predicate of WHERE or HAVING with one more.
pub(crate) const MAX_LEVELS: u32 = 64;

/// The AND of a first part and the others, or the first part alone.
fn and_of(first: Predicate, mut others: Vec<Predicate>) -> Result<Predicate, GrammarFault>
    ensures joined { IfOk result (λ p. predicate_form p
        ≡ conjunction_of (predicate_form first) (map predicate_form others.items)) }
    ensures fails { MatchResult result (λ _. Unit {0}) (λ fault. fault ≡ OutOfMemory) }
{
    if others.is_empty() {
        return Ok(first);
    }
    others.insert(0, first)?;
    Ok(Predicate::And(others))
}

/// The OR of a first part and the others, or the first part alone.
fn or_of(first: Predicate, mut others: Vec<Predicate>) -> Result<Predicate, GrammarFault>
    ensures joined { IfOk result (λ p. predicate_form p
        ≡ disjunction_of (predicate_form first) (map predicate_form others.items)) }
    ensures fails { MatchResult result (λ _. Unit {0}) (λ fault. fault ≡ OutOfMemory) }
{
    if others.is_empty() {
        return Ok(first);
    }
    others.insert(0, first)?;
    Ok(Predicate::Or(others))
}

// ---- expressions

/// The bracketed predicate behind FILTER.
#[cycle(predicate)]
#[tactic(auto, unfolding(crate::specs::Inside::ExpressionSteps::filter_at, crate::specs::Inside::PredicateSteps::has_level))]
fn filter(
    alloc: Global,
    tokens: &[Token],
    levels: u32,
) -> Result<(Predicate, &[Token]), GrammarFault>
    ensures exact { Gives (λ x. (predicate_form x.0, x.1.now)) result
        (filter_at (inside_of language_limits levels) tokens.now) }
    ensures shorter { IfOk result (λ x. length x.1.now < length tokens.now) }
{
    let rest = expect_sign(tokens, Sign::Open)?;
    if levels == 0 {
        return Err(GrammarFault::OverLimit);
    }
    let rest = expect_word(rest, Word::Where)?;
    let (inner, rest) = predicate(alloc, rest, levels)?;
    keep(inner, expect_sign(rest, Sign::Close))
}

/// A set function, and the FILTER behind it, where there is one.
#[cycle(predicate)]
#[tactic(auto, unfolding(crate::specs::Inside::ExpressionSteps::function_at))]
fn set_function(
    alloc: Global,
    tokens: &[Token],
    levels: u32,
) -> Result<(SetFunction, &[Token]), GrammarFault>
    ensures exact { Gives (λ x. (function_form x.0, x.1.now)) result
        (function_at (inside_of language_limits levels) tokens.now) }
    ensures shorter { IfOk result (λ x. length x.1.now < length tokens.now) }
{
    let (aggregate, rest) = aggregate(tokens)?;
    let Some(rest) = after_word(rest, Word::Filter) else {
        let function = SetFunction {
            aggregate,
            filter: None,
        };
        return Ok((function, rest));
    };
    let (aggregate, (condition, rest)) = keep(aggregate, filter(alloc, rest, levels))?;
    let filter = Some(Box::new(alloc, condition)?);
    Ok((SetFunction { aggregate, filter }, rest))
}

/// An expression in front, and what stands behind it: a name, GROUPING with its names, or a set
/// function, with its FILTER where it has one. In the brackets of a FILTER there are fewer than
/// `levels` levels of brackets; with 0 there may be no FILTER.
///
/// Example: of the tokens of `SUM(cents) FILTER (WHERE member) AS s` and 1 it answers the set
/// function with its FILTER, and the tokens of `AS s`; with 0 it answers `OverLimit`.
///
/// # Errors
///
/// `Unexpected` at the first token that continues no expression; `OverLimit` for a level too many,
/// a ninth name of GROUPING or a 65th literal behind IN; `OutOfMemory` where there is no memory for
/// it.
#[cycle(predicate)]
#[tactic(auto, unfolding(crate::specs::Inside::ExpressionSteps::expression_at))]
pub(crate) fn expression(
    alloc: Global,
    tokens: &[Token],
    levels: u32,
) -> Result<(Expression, &[Token]), GrammarFault>
    ensures exact { Gives (λ x. (expression_form x.0, x.1.now)) result
        (expression_at (inside_of language_limits levels) tokens.now) }
    ensures shorter { IfOk result (λ x. length x.1.now < length tokens.now) }
{
    if let Some((name, rest)) = name(tokens) {
        return Ok((Expression::Name(name.try_clone()?), rest));
    }
    if let Some(rest) = after_word(tokens, Word::Grouping) {
        let (names, rest) = grouping_names(alloc, rest)?;
        return Ok((Expression::Grouping(names), rest));
    }
    let (function, rest) = set_function(alloc, tokens, levels)?;
    Ok((Expression::Function(Box::new(alloc, function)?), rest))
}
// ---- atoms

/// An operand.
#[cycle(predicate)]
#[tactic(auto, unfolding(crate::specs::Inside::AtomSteps::operand_at))]
fn operand(
    alloc: Global,
    tokens: &[Token],
    levels: u32,
) -> Result<(Operand, &[Token]), GrammarFault>
    ensures exact { Gives (λ x. (operand_form x.0, x.1.now)) result
        (operand_at (inside_of language_limits levels) tokens.now) }
    ensures shorter { IfOk result (λ x. length x.1.now < length tokens.now) }
{
    if let Some((value, rest)) = literal(tokens)? {
        return Ok((Operand::Literal(value), rest));
    }
    let (expression, rest) = expression(alloc, tokens, levels)?;
    Ok((Operand::Expression(expression), rest))
}

/// The atom of a first operand and the two ends behind its BETWEEN.
#[cycle(predicate)]
#[tactic(auto, unfolding(crate::specs::Inside::AtomSteps::between_after))]
fn between_atom(
    alloc: Global,
    first: Operand,
    not: bool,
    tokens: &[Token],
    levels: u32,
) -> Result<(Predicate, &[Token]), GrammarFault>
    ensures exact { Gives (λ x. (predicate_form x.0, x.1.now)) result
        (between_after (inside_of language_limits levels) (operand_form first) not tokens.now) }
    ensures shorter { IfOk result (λ x. length x.1.now < length tokens.now) }
{
    let (first, (low, rest)) = keep(first, operand(alloc, tokens, levels))?;
    let ((first, low), rest) = keep((first, low), expect_word(rest, Word::And))?;
    let ((first, low), (high, rest)) = keep((first, low), operand(alloc, rest, levels))?;
    let predicate = Predicate::Between {
        operand: first,
        not,
        low,
        high,
    };
    Ok((predicate, rest))
}

/// The atom of a first operand and what stands behind its NOT.
#[cycle(predicate)]
#[tactic(auto, unfolding(crate::specs::Inside::AtomSteps::negated_after))]
fn negated_atom(
    alloc: Global,
    first: Operand,
    tokens: &[Token],
    levels: u32,
) -> Result<(Predicate, &[Token]), GrammarFault>
    ensures exact { Gives (λ x. (predicate_form x.0, x.1.now)) result
        (negated_after (inside_of language_limits levels) (operand_form first) tokens.now) }
    ensures shorter { IfOk result (λ x. length x.1.now < length tokens.now) }
{
    if let Some(rest) = after_word(tokens, Word::In) {
        return member(alloc, first, true, rest);
    }
    let (first, rest) = keep(first, expect_word(tokens, Word::Between))?;
    between_atom(alloc, first, true, rest, levels)
}

/// The atom of a first operand and what stands behind it, unless that is IS.
#[cycle(predicate)]
#[tactic(auto, unfolding(crate::specs::Inside::AtomSteps::atom_after))]
fn atom(
    alloc: Global,
    first: Operand,
    tokens: &[Token],
    levels: u32,
) -> Result<(Predicate, &[Token]), GrammarFault>
    ensures exact { Gives (λ x. (predicate_form x.0, x.1.now)) result
        (atom_after (inside_of language_limits levels) (operand_form first) tokens.now) }
    ensures shorter { IfOk result (λ x. length x.1.now ≤ length tokens.now) }
{
    if let Some((op, rest)) = operator(tokens) {
        let (left, (right, rest)) = keep(first, operand(alloc, rest, levels))?;
        return Ok((Predicate::Compare { left, op, right }, rest));
    }
    if let Some(rest) = after_word(tokens, Word::Not) {
        return negated_atom(alloc, first, rest, levels);
    }
    if let Some(rest) = after_word(tokens, Word::In) {
        return member(alloc, first, false, rest);
    }
    if let Some(rest) = after_word(tokens, Word::Between) {
        return between_atom(alloc, first, false, rest, levels);
    }
    Ok((column(first, tokens)?, tokens))
}

/// An atom and the truth test behind it, where there is one.
#[cycle(predicate)]
#[tactic(auto, unfolding(crate::specs::Inside::AtomSteps::tested_atom_at))]
fn tested_atom(
    alloc: Global,
    tokens: &[Token],
    levels: u32,
) -> Result<(Predicate, &[Token]), GrammarFault>
    ensures exact { Gives (λ x. (predicate_form x.0, x.1.now)) result
        (tested_atom_at (inside_of language_limits levels) tokens.now) }
    ensures shorter { IfOk result (λ x. length x.1.now < length tokens.now) }
{
    let (first, rest) = operand(alloc, tokens, levels)?;
    if let Some(rest) = after_word(rest, Word::Is) {
        return null_or_truth_test(alloc, first, rest);
    }
    let (atom, rest) = atom(alloc, first, rest, levels)?;
    optional_truth_test(alloc, atom, rest)
}

// ---- predicates

/// A predicate in brackets or an atom, and the truth test behind it, where there is one.
#[cycle(predicate)]
#[tactic(auto, unfolding(crate::specs::Inside::PredicateSteps::test_at))]
fn test(alloc: Global, tokens: &[Token], levels: u32) -> Result<(Predicate, &[Token]), GrammarFault>
    ensures exact { Gives (λ x. (predicate_form x.0, x.1.now)) result
        (test_at (inside_of language_limits levels) tokens.now) }
    ensures shorter { IfOk result (λ x. length x.1.now < length tokens.now) }
{
    let Some(rest) = after_sign(tokens, Sign::Open) else {
        return tested_atom(alloc, tokens, levels);
    };
    let (inner, rest) = predicate(alloc, rest, levels)?;
    let (inner, rest) = keep(inner, expect_sign(rest, Sign::Close))?;
    optional_truth_test(alloc, inner, rest)
}

/// A test with NOT or without.
#[cycle(predicate)]
#[tactic(auto, unfolding(crate::specs::Inside::PredicateSteps::negation_at))]
fn negation(
    alloc: Global,
    tokens: &[Token],
    levels: u32,
) -> Result<(Predicate, &[Token]), GrammarFault>
    ensures exact { Gives (λ x. (predicate_form x.0, x.1.now)) result
        (negation_at (inside_of language_limits levels) tokens.now) }
    ensures shorter { IfOk result (λ x. length x.1.now < length tokens.now) }
{
    let Some(rest) = after_word(tokens, Word::Not) else {
        return test(alloc, tokens, levels);
    };
    let (inner, rest) = test(alloc, rest, levels)?;
    Ok((Predicate::Not(Box::new(alloc, inner)?), rest))
}

/// Further parts of an AND, each behind its AND.
#[cycle(predicate)]
fn more_negations(
    alloc: Global,
    tokens: &[Token],
    levels: u32,
) -> Result<(Vec<Predicate>, &[Token]), GrammarFault>
    ensures exact { Gives (λ x. (map predicate_form x.0.items, x.1.now)) result (more (is_word And)
        any_front (negation_at (inside_of language_limits levels)) (length tokens.now) tokens.now) }
    ensures shorter { IfOk result (λ x. length x.1.now ≤ length tokens.now) }
{
    let mut parts = Vec::new(alloc);
    let mut rest = tokens;
    while let Some(behind) = after_word(rest, Word::And) {
        let (part, left) = negation(alloc, behind, levels)?;
        parts.push(part)?;
        rest = left;
    }
    Ok((parts, rest))
}

/// Parts joined by AND.
#[cycle(predicate)]
#[tactic(auto, unfolding(crate::specs::Inside::PredicateSteps::conjunction_at))]
fn conjunction(
    alloc: Global,
    tokens: &[Token],
    levels: u32,
) -> Result<(Predicate, &[Token]), GrammarFault>
    ensures exact { Gives (λ x. (predicate_form x.0, x.1.now)) result
        (conjunction_at (inside_of language_limits levels) tokens.now) }
    ensures shorter { IfOk result (λ x. length x.1.now < length tokens.now) }
{
    let (first, rest) = negation(alloc, tokens, levels)?;
    let (first, (others, rest)) = keep(first, more_negations(alloc, rest, levels))?;
    Ok((and_of(first, others)?, rest))
}

/// Further parts of an OR, each behind its OR.
#[cycle(predicate)]
fn more_conjunctions(
    alloc: Global,
    tokens: &[Token],
    levels: u32,
) -> Result<(Vec<Predicate>, &[Token]), GrammarFault>
    ensures exact { Gives (λ x. (map predicate_form x.0.items, x.1.now)) result (more (is_word Or)
        any_front (conjunction_at (inside_of language_limits levels)) (length tokens.now) tokens.now) }
    ensures shorter { IfOk result (λ x. length x.1.now ≤ length tokens.now) }
{
    let mut parts = Vec::new(alloc);
    let mut rest = tokens;
    while let Some(behind) = after_word(rest, Word::Or) {
        let (part, left) = conjunction(alloc, behind, levels)?;
        parts.push(part)?;
        rest = left;
    }
    Ok((parts, rest))
}

/// A predicate in front with fewer than so many levels of brackets, and what stands behind it,
/// ISO/IEC 9075-2 `<search condition>`.
///
/// Example: of the tokens of `a AND b OR c GROUP BY d` and 1 it answers the OR of `a AND b` and
/// `c`, and the tokens of `GROUP BY d`; of those of `(a)` it answers `OverLimit` with 1, and the
/// bare name `a` with 2.
///
/// # Errors
///
/// `Unexpected` at the first token that continues no predicate; `OverLimit` for a level too many, a
/// ninth name of GROUPING or a 65th literal behind IN; `OutOfMemory` where there is no memory for
/// it.
#[cycle(predicate)]
#[tactic(auto, unfolding(crate::specs::Inside::PredicateSteps::predicate_at, crate::specs::Inside::PredicateSteps::disjunction_at))]
pub(crate) fn predicate(
    alloc: Global,
    tokens: &[Token],
    levels: u32,
) -> Result<(Predicate, &[Token]), GrammarFault>
    ensures exact { Gives (λ x. (predicate_form x.0, x.1.now)) result
        (predicate_at language_limits levels tokens.now) }
    ensures shorter { IfOk result (λ x. length x.1.now < length tokens.now) }
{
    if levels == 0 {
        return Err(GrammarFault::OverLimit); // the bracket before is one too many
    }
    let (first, rest) = conjunction(alloc, tokens, levels - 1)?;
    let (first, (others, rest)) = keep(first, more_conjunctions(alloc, rest, levels - 1))?;
    Ok((or_of(first, others)?, rest))
}
