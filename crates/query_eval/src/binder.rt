//! Resolving the names of a predicate.

ghost use Rattle.std.specs.Prelude.{◌≡◌, map, IfOk};
ghost use Rattle.values.specs.Datum.{datum_of};
ghost use Rattle.semantics.specs.Syntax.{between, column, compare, member, null_test, predicate_forms};
ghost use Rattle.query_ast.specs.Syntax.{operand_form, predicate_form};
ghost use Rattle.semantics.specs.Conditions.{literal_value};
ghost use Rattle.query_eval.specs.Inside.Binding.{AreSafeWhereTyped, GivesParts};
ghost use Rattle.query_eval.specs.Binding.{GivesOperand, GivesPredicate, IsSafeWhereTyped};

use crate::condition::{Condition, OperandSource};
use crate::scope::Scope;
use query_ast::{Literal, Operand, Predicate, Text};
use std::alloc::{AllocError, Global};
use values::{Op, Value};

/// The value that a literal writes. A text takes memory, a number and a truth value take none.
fn literal_value(alloc: Global, literal: &Literal) -> Result<Value, AllocError>
    ensures { IfOk result (λ value. datum_of value ≡ literal_value literal.now) }
{
    Ok(match literal {
        Literal::Integer(number) => Value::Int(i128::from(*number)),
        Literal::Text(text) => Value::Text(text.as_str().to_string(alloc)?),
        Literal::Truth(holds) => Value::Bool(*holds),
    })
}

/// The values that literals write, in their order.
fn literal_values(alloc: Global, literals: &[Literal]) -> Result<Vec<Value>, AllocError>
    ensures { IfOk result (λ values. map datum_of values.items ≡ map literal_value literals.now) }
{
    let mut values = Vec::with_capacity(alloc, literals.len())?;
    for literal in literals {
        values.push(literal_value(alloc, literal)?)?;
    }
    Ok(values)
}

/// Where the value of an operand comes from.
fn operand_source<S: Scope>(
    alloc: Global,
    scope: &S,
    operand: &Operand,
) -> Result<OperandSource, AllocError>
    ensures { IfOk result (GivesOperand (S.form scope.now) (operand_form operand.now)) }
{
    match operand {
        Operand::Expression(expression) => Ok(scope.expression_source(expression)),
        Operand::Literal(literal) => Ok(OperandSource::Literal(literal_value(alloc, literal)?)),
    }
}

/// What two operands stand for.
fn two_sources<S: Scope>(
    alloc: Global,
    scope: &S,
    first: &Operand,
    second: &Operand,
) -> Result<(OperandSource, OperandSource), AllocError>
    ensures { IfOk result (λ both.
        GivesOperand (S.form scope.now) (operand_form first.now) both.0
        × GivesOperand (S.form scope.now) (operand_form second.now) both.1) }
{
    let first = operand_source(alloc, scope, first)?;
    let second = operand_source(alloc, scope, second)?;
    Ok((first, second))
}

/// The condition of a comparison.
fn bind_comparison<S: Scope>(
    alloc: Global,
    scope: &S,
    left: &Operand,
    op: Op,
    right: &Operand,
) -> Result<Condition, AllocError>
    ensures value { IfOk result (GivesPredicate (S.form scope.now)
        (compare (operand_form left.now) op (operand_form right.now))) }
    ensures safe { IfOk result (IsSafeWhereTyped (S.form scope.now)
        (compare (operand_form left.now) op (operand_form right.now))) }
{
    let (left, right) = two_sources(alloc, scope, left, right)?;
    Ok(Condition::Compare { left, op, right })
}

/// The condition of a BETWEEN.
fn bind_between<S: Scope>(
    alloc: Global,
    scope: &S,
    operand: &Operand,
    not: bool,
    low: &Operand,
    high: &Operand,
) -> Result<Condition, AllocError>
    ensures value { IfOk result (GivesPredicate (S.form scope.now)
        (between (operand_form operand.now) not (operand_form low.now) (operand_form high.now))) }
    ensures safe { IfOk result (IsSafeWhereTyped (S.form scope.now)
        (between (operand_form operand.now) not (operand_form low.now) (operand_form high.now))) }
{
    let operand = operand_source(alloc, scope, operand)?;
    let (low, high) = two_sources(alloc, scope, low, high)?;
    Ok(Condition::Between {
        operand,
        not,
        low,
        high,
    })
}

/// The condition of an IN.
fn bind_membership<S: Scope>(
    alloc: Global,
    scope: &S,
    operand: &Operand,
    not: bool,
    literals: &[Literal],
) -> Result<Condition, AllocError>
    ensures value { IfOk result (GivesPredicate (S.form scope.now)
        (member (operand_form operand.now) not literals.now)) }
    ensures safe { IfOk result (IsSafeWhereTyped (S.form scope.now)
        (member (operand_form operand.now) not literals.now)) }
{
    let operand = operand_source(alloc, scope, operand)?;
    let values = literal_values(alloc, literals)?;
    Ok(Condition::In {
        operand,
        not,
        values,
    })
}

/// The condition of an IS NULL.
fn bind_null_test<S: Scope>(
    alloc: Global,
    scope: &S,
    operand: &Operand,
    not: bool,
) -> Result<Condition, AllocError>
    ensures value { IfOk result
        (GivesPredicate (S.form scope.now) (null_test (operand_form operand.now) not)) }
    ensures safe { IfOk result
        (IsSafeWhereTyped (S.form scope.now) (null_test (operand_form operand.now) not)) }
{
    let operand = operand_source(alloc, scope, operand)?;
    Ok(Condition::IsNull { operand, not })
}

/// The condition of a bare name.
fn bind_column<S: Scope>(scope: &S, name: &Text) -> Condition
    ensures value { GivesPredicate (S.form scope.now) (column name.now) result }
    ensures safe { IsSafeWhereTyped (S.form scope.now) (column name.now) result }
{
    Condition::Holds(scope.name_source(name))
}

/// The condition of a predicate under a scope. Where the predicate is typed in the clause of the
/// scope, the condition can be evaluated for each list of values of the scope.
///
/// Example: in WHERE under the columns `a:bool,q:int` that of the predicate `a` is
/// `Holds(OperandSource::Value(0))`.
///
/// # Errors
///
/// `AllocError` where there is no memory for it.
#[cycle(bind)]
pub fn bind<S: Scope>(
    alloc: Global,
    scope: &S,
    predicate: &Predicate,
) -> Result<Condition, AllocError>
    ensures value { IfOk result
        (GivesPredicate (S.form scope.now) (predicate_form predicate.now)) }
    ensures safe { IfOk result
        (IsSafeWhereTyped (S.form scope.now) (predicate_form predicate.now)) }
{
    match predicate {
        Predicate::Or(parts) => Ok(Condition::Or(bind_parts(alloc, scope, parts)?)),
        Predicate::And(parts) => Ok(Condition::And(bind_parts(alloc, scope, parts)?)),
        Predicate::Not(part) => {
            let part = bind(alloc, scope, part)?;
            Ok(Condition::Not(Box::new(alloc, part)?))
        }
        Predicate::Is { part, not, truth } => {
            let part = bind(alloc, scope, part)?;
            Ok(Condition::Is {
                part: Box::new(alloc, part)?,
                not: *not,
                truth: *truth,
            })
        }
        Predicate::Compare { left, op, right } => {
            bind_comparison(alloc, scope, left, *op, right)
        }
        Predicate::Between {
            operand,
            not,
            low,
            high,
        } => bind_between(alloc, scope, operand, *not, low, high),
        Predicate::In {
            operand,
            not,
            literals,
        } => bind_membership(alloc, scope, operand, *not, literals),
        Predicate::IsNull { operand, not } => bind_null_test(alloc, scope, operand, *not),
        Predicate::Column(name) => Ok(bind_column(scope, name)),
    }
}

/// The conditions of the parts of an OR or an AND.
#[cycle(bind)]
fn bind_parts<S: Scope>(
    alloc: Global,
    scope: &S,
    parts: &[Predicate],
) -> Result<Vec<Condition>, AllocError>
    ensures value { IfOk result (λ conditions. GivesParts (S.form scope.now)
        (predicate_forms (map predicate_form parts.now)) conditions.items) }
    ensures safe { IfOk result (λ conditions. AreSafeWhereTyped (S.form scope.now)
        (predicate_forms (map predicate_form parts.now)) conditions.items) }
{
    let mut conditions = Vec::with_capacity(alloc, parts.len())?;
    for part in parts {
        conditions.push(bind(alloc, scope, part)?)?;
    }
    Ok(conditions)
}
