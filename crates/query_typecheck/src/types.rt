//! Whether expressions and predicates are typed, fault by fault.

ghost use Rattle.std.specs.Prelude.{◌≡◌, ◌≢◌, [], map, Some};
ghost use Rattle.std.specs.List.{list_any};
ghost use Rattle.values.specs.Schema.{fields_of};
ghost use Rattle.semantics.specs.declared.query_fault.QueryFault.TheVariants.{UnknownColumn, NotGrouped, OutOfMemory};
ghost use Rattle.query_ast.specs.Syntax.{expression_form, function_form, operand_form, predicate_form};
ghost use Rattle.semantics.specs.Syntax.{predicate_forms};
ghost use Rattle.semantics.specs.Types.{aggregate_kind, literal_kind, operand_kind};
ghost use Rattle.query_typecheck.specs.Typing.{may_stand, takes};
ghost use Rattle.query_typecheck.specs.FirstFaults.{agreement_fault, aggregate_fault, Answers, argument_fault, between_agreement, column_fault, expression_fault, first_fault, function_fault, grouped_fault, grouping_fault, name_fault, operand_fault, parts_fault, predicate_fault, truth_fault};
ghost use Rattle.semantics.specs.Faults.{same_kind};

use crate::scope::{Clause, ClauseScope};
use query_ast::{Aggregate, Expression, Literal, Operand, Predicate, SetFunction, Text};
use query_resolve::{column_kind, place_of};
use semantics::QueryFault;
use values::{Column, Kind};

/// The fault that no column has this name.
fn unknown_column(name: &Text) -> QueryFault
    ensures { result ≢ OutOfMemory → result ≡ UnknownColumn name.now }
{
    match name.try_clone() {
        Ok(name) => QueryFault::UnknownColumn(name),
        Err(_) => QueryFault::OutOfMemory,
    }
}

/// The fault that the column of this name is no grouping column.
fn not_grouped(name: &Text) -> QueryFault
    ensures { result ≢ OutOfMemory → result ≡ NotGrouped name.now }
{
    match name.try_clone() {
        Ok(name) => QueryFault::NotGrouped(name),
        Err(_) => QueryFault::OutOfMemory,
    }
}

/// Whether a column has this name.
pub(crate) fn check_column(columns: &[Column], name: &Text) -> Result<(), QueryFault>
    ensures fault { Answers result (column_fault (fields_of columns.now) name.now) }
{
    match place_of(columns, name.as_str()) {
        Some(_) => Ok(()),
        None => Err(unknown_column(name)),
    }
}

/// Whether a grouping column has this name.
fn check_grouped(scope: &ClauseScope, name: &Text) -> Result<(), QueryFault>
    ensures fault { Answers result
        (grouped_fault (fields_of scope.now.columns.now) scope.now.grouping.now name.now) }
{
    let Some(place) = place_of(scope.columns, name.as_str()) else {
        return Err(unknown_column(name));
    };
    if scope.grouping.contains(&place) {
        return Ok(());
    }
    Err(not_grouped(name))
}

/// Whether a name may stand in the clause.
fn check_name(scope: &ClauseScope, name: &Text) -> Result<(), QueryFault>
    ensures fault { Answers result (name_fault (fields_of scope.now.columns.now)
        scope.now.grouping.now scope.now.clause name.now) }
{
    match scope.clause {
        Clause::Where => check_column(scope.columns, name),
        Clause::Select | Clause::Having | Clause::OrderBy => check_grouped(scope, name),
    }
}

/// Whether grouping columns have these names.
fn check_all_grouped(scope: &ClauseScope, names: &[Text]) -> Result<(), QueryFault>
    ensures fault { Answers result (first_fault
        (grouped_fault (fields_of scope.now.columns.now) scope.now.grouping.now) names.now) }
{
    for name in names {
        check_grouped(scope, name)?;
    }
    Ok(())
}

/// Whether the arguments of GROUPING may stand in the clause.
fn check_grouping(scope: &ClauseScope, names: &[Text]) -> Result<(), QueryFault>
    ensures fault { Answers result (grouping_fault (fields_of scope.now.columns.now)
        scope.now.grouping.now scope.now.clause names.now) }
{
    match scope.clause {
        Clause::Where => Err(QueryFault::FunctionNotAllowed),
        Clause::Select | Clause::Having | Clause::OrderBy => check_all_grouped(scope, names),
    }
}

/// Whether a set function takes columns of a type: COUNT of each, SUM and AVG whole numbers, MIN
/// and MAX also texts.
fn takes(aggregate: &Aggregate, kind: Kind) -> bool
    ensures { result ≡ list_any (same_kind kind) (takes aggregate.now) }
{
    match aggregate {
        Aggregate::Sum(_) | Aggregate::Avg(_) => matches!(kind, Kind::Int),
        Aggregate::Min(_) | Aggregate::Max(_) => matches!(kind, Kind::Int | Kind::Text),
        Aggregate::CountRows | Aggregate::Count(_) | Aggregate::CountDistinct(_) => true,
    }
}

/// Whether a set function takes the column of this name.
fn check_argument(columns: &[Column], aggregate: &Aggregate, name: &Text) -> Result<(), QueryFault>
    ensures fault { Answers result
        (argument_fault (fields_of columns.now) (takes aggregate.now) name.now) }
{
    check_column(columns, name)?;
    match column_kind(columns, name.as_str()) {
        Some(kind) if takes(aggregate, kind) => Ok(()),
        _ => Err(QueryFault::TypesDisagree),
    }
}

/// Whether a set function takes its column.
fn check_aggregate(columns: &[Column], aggregate: &Aggregate) -> Result<(), QueryFault>
    ensures fault { Answers result (aggregate_fault (fields_of columns.now) aggregate.now) }
{
    match aggregate {
        Aggregate::CountRows => Ok(()),
        Aggregate::Count(x)
        | Aggregate::CountDistinct(x)
        | Aggregate::Sum(x)
        | Aggregate::Min(x)
        | Aggregate::Max(x)
        | Aggregate::Avg(x) => check_argument(columns, aggregate, x),
    }
}

/// Whether a set function may stand in a clause: none in WHERE, and AVG only in SELECT.
fn may_stand(clause: Clause, aggregate: &Aggregate) -> bool
    ensures { result ≡ may_stand clause aggregate.now }
{
    match clause {
        Clause::Where => false,
        Clause::Select => true,
        Clause::Having | Clause::OrderBy => !matches!(aggregate, Aggregate::Avg(_)),
    }
}

/// The type of a set function. AVG has none.
fn aggregate_kind(columns: &[Column], aggregate: &Aggregate) -> Option<Kind>
    ensures { result ≡ aggregate_kind (fields_of columns.now) aggregate.now }
{
    match aggregate {
        Aggregate::CountRows
        | Aggregate::Count(_)
        | Aggregate::CountDistinct(_)
        | Aggregate::Sum(_) => Some(Kind::Int),
        Aggregate::Min(x) | Aggregate::Max(x) => column_kind(columns, x.as_str()),
        Aggregate::Avg(_) => None,
    }
}

/// The type of a literal.
fn literal_kind(literal: &Literal) -> Kind
    ensures { result ≡ literal_kind literal.now }
{
    match literal {
        Literal::Integer(_) => Kind::Int,
        Literal::Text(_) => Kind::Text,
        Literal::Truth(_) => Kind::Bool,
    }
}

/// The type of an operand, where it has one.
fn operand_kind(columns: &[Column], operand: &Operand) -> Option<Kind>
    ensures { result ≡ operand_kind (fields_of columns.now) (operand_form operand.now) }
{
    match operand {
        Operand::Expression(Expression::Name(name)) => column_kind(columns, name.as_str()),
        Operand::Expression(Expression::Grouping(_)) => Some(Kind::Int),
        Operand::Expression(Expression::Function(function)) => {
            aggregate_kind(columns, &function.aggregate)
        }
        Operand::Literal(literal) => Some(literal_kind(literal)),
    }
}

/// Whether two types are one.
fn same_kind(left: Kind, right: Kind) -> bool
    ensures { result ≡ same_kind left right }
{
    match (left, right) {
        (Kind::Int, Kind::Int) | (Kind::Text, Kind::Text) | (Kind::Bool, Kind::Bool) => true,
        (Kind::Int, Kind::Text | Kind::Bool)
        | (Kind::Text, Kind::Int | Kind::Bool)
        | (Kind::Bool, Kind::Int | Kind::Text) => false,
    }
}

/// Whether two operands are of one type.
fn check_agreement(left: Option<Kind>, right: Option<Kind>) -> Result<(), QueryFault>
    ensures fault { Answers result (agreement_fault left right) }
{
    match (left, right) {
        (Some(left), Some(right)) if same_kind(left, right) => Ok(()),
        _ => Err(QueryFault::TypesDisagree),
    }
}

/// Whether the operands of a BETWEEN are of one type.
fn check_range(
    columns: &[Column],
    operand: &Operand,
    low: &Operand,
    high: &Operand,
) -> Result<(), QueryFault>
    ensures fault { Answers result (between_agreement (fields_of columns.now)
        (operand_form operand.now) (operand_form low.now) (operand_form high.now)) }
{
    let kind = operand_kind(columns, operand);
    check_agreement(kind, operand_kind(columns, low))?;
    check_agreement(kind, operand_kind(columns, high))
}

/// Whether literals are of this type.
fn check_literals(kind: Option<Kind>, literals: &[Literal]) -> Result<(), QueryFault>
    ensures fault { Answers result
        (first_fault (λ a. agreement_fault kind (Some (literal_kind a))) literals.now) }
{
    for literal in literals {
        check_agreement(kind, Some(literal_kind(literal)))?;
    }
    Ok(())
}

/// Whether a bare name is a column of truth values that may stand in the clause.
fn check_truth(scope: &ClauseScope, name: &Text) -> Result<(), QueryFault>
    ensures fault { Answers result (truth_fault (fields_of scope.now.columns.now)
        scope.now.grouping.now scope.now.clause name.now) }
{
    check_name(scope, name)?;
    match column_kind(scope.columns, name.as_str()) {
        Some(Kind::Bool) => Ok(()),
        Some(Kind::Int) | Some(Kind::Text) | None => Err(QueryFault::TypesDisagree),
    }
}

/// Whether an expression is typed in the clause.
#[cycle(check_predicate)]
pub(crate) fn check_expression(
    scope: &ClauseScope,
    expression: &Expression,
) -> Result<(), QueryFault>
    ensures fault { Answers result (expression_fault (fields_of scope.now.columns.now)
        scope.now.grouping.now scope.now.clause (expression_form expression.now)) }
{
    match expression {
        Expression::Name(name) => check_name(scope, name),
        Expression::Grouping(names) => check_grouping(scope, names),
        Expression::Function(function) => check_function(scope, function),
    }
}

/// Whether a set function may stand in the clause, takes its column, and has a FILTER that is typed
/// as WHERE is.
#[cycle(check_predicate)]
fn check_function(scope: &ClauseScope, function: &SetFunction) -> Result<(), QueryFault>
    ensures fault { Answers result (function_fault (fields_of scope.now.columns.now)
        scope.now.clause (function_form function.now)) }
{
    if !may_stand(scope.clause, &function.aggregate) {
        return Err(QueryFault::FunctionNotAllowed);
    }
    check_aggregate(scope.columns, &function.aggregate)?;
    match &function.filter {
        Some(filter) => check_filter(scope.columns, filter),
        None => Ok(()),
    }
}

/// Whether the predicate of a FILTER is typed as WHERE is.
#[cycle(check_predicate)]
fn check_filter(columns: &[Column], filter: &Predicate) -> Result<(), QueryFault>
    ensures fault { Answers result
        (predicate_fault (fields_of columns.now) [] Clause.Where (predicate_form filter.now)) }
{
    let scope = ClauseScope {
        columns,
        grouping: &[],
        clause: Clause::Where,
    };
    check_predicate(&scope, filter)
}

/// Whether an operand is typed in the clause.
#[cycle(check_predicate)]
fn check_operand(scope: &ClauseScope, operand: &Operand) -> Result<(), QueryFault>
    ensures fault { Answers result (operand_fault (fields_of scope.now.columns.now)
        scope.now.grouping.now scope.now.clause (operand_form operand.now)) }
{
    match operand {
        Operand::Expression(expression) => check_expression(scope, expression),
        Operand::Literal(_) => Ok(()),
    }
}

/// Whether a predicate is typed in the clause: of an atom its operands from the left, then their
/// types.
#[cycle(check_predicate)]
pub(crate) fn check_predicate(scope: &ClauseScope, predicate: &Predicate) -> Result<(), QueryFault>
    ensures fault { Answers result (predicate_fault (fields_of scope.now.columns.now)
        scope.now.grouping.now scope.now.clause (predicate_form predicate.now)) }
{
    match predicate {
        Predicate::Or(parts) | Predicate::And(parts) => check_parts(scope, parts),
        Predicate::Not(part) => check_predicate(scope, part),
        Predicate::Is { part, .. } => check_predicate(scope, part),
        Predicate::Compare { left, right, .. } => {
            check_operand(scope, left)?;
            check_operand(scope, right)?;
            check_agreement(
                operand_kind(scope.columns, left),
                operand_kind(scope.columns, right),
            )
        }
        Predicate::Between {
            operand,
            low,
            high,
            ..
        } => {
            check_operand(scope, operand)?;
            check_operand(scope, low)?;
            check_operand(scope, high)?;
            check_range(scope.columns, operand, low, high)
        }
        Predicate::In {
            operand,
            literals,
            ..
        } => {
            check_operand(scope, operand)?;
            check_literals(operand_kind(scope.columns, operand), literals)
        }
        Predicate::IsNull { operand, .. } => check_operand(scope, operand),
        Predicate::Column(name) => check_truth(scope, name),
    }
}

/// Whether the parts of an OR or an AND are typed in the clause.
#[cycle(check_predicate)]
fn check_parts(scope: &ClauseScope, parts: &[Predicate]) -> Result<(), QueryFault>
    ensures fault { Answers result (parts_fault (fields_of scope.now.columns.now)
        scope.now.grouping.now scope.now.clause (predicate_forms (map predicate_form parts.now))) }
{
    for part in parts {
        check_predicate(scope, part)?;
    }
    Ok(())
}
