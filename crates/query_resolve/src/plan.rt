//! The different set functions of a query, and their different filters.

ghost use Rattle.std.specs.Prelude.{◌≡◌, ◌++◌, map, option_and_then, option_map, position, IfOk, OnOk};
ghost use Rattle.std.specs.List.{filter_map, flat_map, list_any};
ghost use Rattle.values.specs.Schema.{fields_of};
ghost use Rattle.query_ast.specs.Syntax.{expression_form, function_form, item_form, key_form, operand_form, predicate_form, tree_form};
ghost use Rattle.semantics.specs.Syntax.{predicate_forms};
ghost use Rattle.semantics.specs.Names.{planned_function};
ghost use Rattle.semantics.specs.Lists.{distinct};
ghost use Rattle.semantics.specs.Inside.Same.{same_predicate, same_planned};
ghost use Rattle.query_resolve.specs.Functions.{different_filters, filters_of, indexed_function, indexed_functions};
ghost use Rattle.semantics.specs.SetFunctions.{expression_functions, functions_of, operand_functions};
ghost use Rattle.query_resolve.specs.Collecting.{clause_functions, parts_functions, predicate_functions, range_functions};
ghost use Rattle.query_resolve.specs.Inside.Planning.{AppendsPlanned};
ghost use Rattle.query_resolve.specs.Planning.{filter_forms, planned_form, planned_forms};

use crate::function::{FilteredFunction, column_function};
use query_ast::{Expression, Item, Key, Operand, Predicate, SetFunction, Tree};
use semantics::ColumnFunction;
use std::alloc::{AllocError, Global};
use values::Column;

/// A set function of a query, with the place of its column, and the predicate of its FILTER where
/// it has one.
///
/// Example: under the columns `q:int,b:bool` `SUM(q) FILTER (WHERE b)` has the function `Sum(0)`
/// and the filter `b`.
#[derive(Clone, Copy)]
pub struct Planned<'a> {
    /// The function, with the place of its column, from 0.
    pub function: ColumnFunction,
    /// The predicate of its FILTER, as it stands in the tree; `None` where it has no FILTER.
    pub filter: Option<&'a Predicate>,
}

/// A set function with the place of its column, where the schema has that column.
fn planned_function<'a>(columns: &[Column], function: &'a SetFunction) -> Option<Planned<'a>>
    ensures { option_map planned_form result
        ≡ planned_function (fields_of columns.now) (function_form function.now) }
{
    let filter = match &function.filter {
        Some(filter) => {
            let predicate: &Predicate = filter;
            Some(predicate)
        }
        None => None,
    };
    match column_function(columns, &function.aggregate) {
        Some(function) => Some(Planned { function, filter }),
        None => None,
    }
}

/// Adds the set function that an expression is, if it is one.
fn push_expression_function<'a>(
    functions: &mut Vec<Planned<'a>>,
    columns: &[Column],
    expression: &'a Expression,
) -> Result<(), AllocError>
    ensures { OnOk result (AppendsPlanned (fields_of columns.now)
        (expression_functions (expression_form expression.now))
        functions.old.items functions.new.items) }
{
    if let Expression::Function(function) = expression
        && let Some(planned) = planned_function(columns, function)
    {
        functions.push(planned)?;
    }
    Ok(())
}

/// Adds the set function that an operand is, if it is one.
fn push_operand_function<'a>(
    functions: &mut Vec<Planned<'a>>,
    columns: &[Column],
    operand: &'a Operand,
) -> Result<(), AllocError>
    ensures { OnOk result (AppendsPlanned (fields_of columns.now)
        (operand_functions (operand_form operand.now))
        functions.old.items functions.new.items) }
{
    match operand {
        Operand::Expression(expression) => push_expression_function(functions, columns, expression),
        Operand::Literal(_) => Ok(()),
    }
}

/// Adds the set functions that two operands are.
#[tactic(auto, using(crate::proofs::Rows::appended))]
fn push_pair_functions<'a>(
    functions: &mut Vec<Planned<'a>>,
    columns: &[Column],
    left: &'a Operand,
    right: &'a Operand,
) -> Result<(), AllocError>
    ensures { OnOk result (AppendsPlanned (fields_of columns.now)
        (operand_functions (operand_form left.now) ++ operand_functions (operand_form right.now))
        functions.old.items functions.new.items) }
{
    push_operand_function(functions, columns, left)?;
    push_operand_function(functions, columns, right)
}

/// Adds the set functions that three operands are.
#[tactic(auto, using(crate::proofs::Rows::appended))]
fn push_three_functions<'a>(
    functions: &mut Vec<Planned<'a>>,
    columns: &[Column],
    operand: &'a Operand,
    low: &'a Operand,
    high: &'a Operand,
) -> Result<(), AllocError>
    ensures { OnOk result (AppendsPlanned (fields_of columns.now)
        (range_functions (operand_form operand.now) (operand_form low.now) (operand_form high.now))
        functions.old.items functions.new.items) }
{
    push_pair_functions(functions, columns, operand, low)?;
    push_operand_function(functions, columns, high)
}

/// Adds the set functions in a predicate, from left to right.
#[tactic(auto, using(crate::proofs::Rows::appended))]
#[cycle(push_predicate_functions)]
fn push_predicate_functions<'a>(
    functions: &mut Vec<Planned<'a>>,
    columns: &[Column],
    predicate: &'a Predicate,
) -> Result<(), AllocError>
    ensures { OnOk result (AppendsPlanned (fields_of columns.now)
        (predicate_functions (predicate_form predicate.now))
        functions.old.items functions.new.items) }
{
    match predicate {
        Predicate::Or(parts) | Predicate::And(parts) => {
            push_parts_functions(functions, columns, parts)
        }
        Predicate::Not(part) => push_predicate_functions(functions, columns, part),
        Predicate::Is { part, .. } => push_predicate_functions(functions, columns, part),
        Predicate::Compare { left, right, .. } => {
            push_pair_functions(functions, columns, left, right)
        }
        Predicate::Between {
            operand,
            low,
            high,
            ..
        } => { push_three_functions(functions, columns, operand, low, high) }
        Predicate::In { operand, .. } => push_operand_function(functions, columns, operand),
        Predicate::IsNull { operand, .. } => push_operand_function(functions, columns, operand),
        Predicate::Column(_) => Ok(()),
    }
}

/// Adds the set functions in the parts of an OR or an AND.
#[cycle(push_predicate_functions)]
fn push_parts_functions<'a>(
    functions: &mut Vec<Planned<'a>>,
    columns: &[Column],
    parts: &'a [Predicate],
) -> Result<(), AllocError>
    ensures { OnOk result (AppendsPlanned (fields_of columns.now)
        (parts_functions (predicate_forms (map predicate_form parts.now)))
        functions.old.items functions.new.items) }
{
    for part in parts {
        push_predicate_functions(functions, columns, part)?;
    }
    Ok(())
}

/// Adds the set functions of items.
fn push_item_functions<'a>(
    functions: &mut Vec<Planned<'a>>,
    columns: &[Column],
    items: &'a [Item],
) -> Result<(), AllocError>
    ensures { OnOk result (AppendsPlanned (fields_of columns.now)
        (flat_map (λ i. expression_functions i.expression) (map item_form items.now))
        functions.old.items functions.new.items) }
{
    for item in items {
        push_expression_function(functions, columns, &item.expression)?;
    }
    Ok(())
}

/// Adds the set functions of keys.
fn push_key_functions<'a>(
    functions: &mut Vec<Planned<'a>>,
    columns: &[Column],
    keys: &'a [Key],
) -> Result<(), AllocError>
    ensures { OnOk result (AppendsPlanned (fields_of columns.now)
        (flat_map (λ k. expression_functions k.expression) (map key_form keys.now))
        functions.old.items functions.new.items) }
{
    for key in keys {
        push_expression_function(functions, columns, &key.expression)?;
    }
    Ok(())
}

/// The set functions in SELECT, HAVING and ORDER BY, from left to right.
#[tactic(auto, using(crate::proofs::Rows::appended))]
fn all_functions<'a>(
    alloc: Global,
    columns: &[Column],
    tree: &'a Tree,
) -> Result<Vec<Planned<'a>>, AllocError>
    ensures { IfOk result (λ v. planned_forms v.items
        ≡ filter_map (planned_function (fields_of columns.now))
        (clause_functions (tree_form tree.now))) }
{
    let mut functions = Vec::new(alloc);
    push_item_functions(&mut functions, columns, &tree.items)?;
    if let Some(predicate) = &tree.having_condition {
        push_predicate_functions(&mut functions, columns, predicate)?;
    }
    push_key_functions(&mut functions, columns, &tree.keys)?;
    Ok(functions)
}

/// Whether two predicates are the same, part by part: by the structure of their trees, not by what
/// they are worth.
///
/// Example: `q = 1` and `(q = 1)` are the same, `q = 1` and `1 = q` are not.
fn is_same_predicate(predicate: &Predicate, other: &Predicate) -> bool
    ensures same { result
        ≡ same_predicate (predicate_form predicate.now) (predicate_form other.now) }
{
    *predicate == *other
}

/// Whether the function, DISTINCT, the column and the filter are the same.
#[tactic(auto, using(crate::proofs::SameTrees::same_functions))]
fn is_same_planned(function: &Planned, other: &Planned) -> bool
    ensures { result ≡ same_planned (planned_form function.now) (planned_form other.now) }
{
    if !function.function.is_same(other.function) {
        return false;
    }
    match (function.filter, other.filter) {
        (None, None) => true,
        (Some(filter), Some(another)) => is_same_predicate(filter, another),
        (None, Some(_)) | (Some(_), None) => false,
    }
}

/// Whether a set function is among others.
fn has_function(functions: &[Planned], function: &Planned) -> bool
    ensures { result
        ≡ list_any (λ f. same_planned f (planned_form function.now)) (planned_forms functions.now) }
{
    for other in functions {
        if is_same_planned(other, function) {
            return true;
        }
    }
    false
}

/// The set functions without repeats, each where it first stands.
fn distinct_functions<'a>(
    alloc: Global,
    functions: &[Planned<'a>],
) -> Result<Vec<Planned<'a>>, AllocError>
    ensures { IfOk result (λ v.
        planned_forms v.items ≡ distinct same_planned (planned_forms functions.now)) }
{
    let mut found: Vec<Planned<'a>> = Vec::new(alloc);
    for function in functions {
        if !has_function(&found, function) {
            found.push(*function)?;
        }
    }
    Ok(found)
}

/// The different set functions of a query, in the order in which they first stand in SELECT, HAVING
/// and ORDER BY. Two are the same where the function, DISTINCT, the column and the FILTER are. One
/// whose column is not in the schema is left out.
///
/// Example: under the columns `q:int,b:bool`
/// `SELECT COUNT(*), SUM(q) FROM lines ORDER BY COUNT(*), SUM(q) FILTER (WHERE
/// b)` has three: `COUNT(*)`, `SUM(q)`, and `SUM(q)` with its FILTER.
///
/// # Errors
///
/// `AllocError` where there is no memory for the list.
pub fn planned_functions<'a>(
    alloc: Global,
    columns: &[Column],
    tree: &'a Tree,
) -> Result<Vec<Planned<'a>>, AllocError>
    ensures { IfOk result (λ v.
        planned_forms v.items ≡ functions_of (fields_of columns.now) (tree_form tree.now)) }
{
    distinct_functions(alloc, &all_functions(alloc, columns, tree)?)
}

/// The filters of some set functions, in their order.
fn all_filters<'a>(
    alloc: Global,
    functions: &[Planned<'a>],
) -> Result<Vec<&'a Predicate>, AllocError>
    ensures { IfOk result (λ v.
        filter_forms v.items ≡ filter_map (λ f. f.filter) (planned_forms functions.now)) }
{
    let mut filters = Vec::new(alloc);
    for function in functions {
        if let Some(filter) = function.filter {
            filters.push(filter)?;
        }
    }
    Ok(filters)
}

/// Whether a filter is among others.
fn has_filter(filters: &[&Predicate], filter: &Predicate) -> bool
    ensures { result
        ≡ list_any (λ p. same_predicate p (predicate_form filter.now)) (filter_forms filters.now) }
{
    for other in filters {
        if is_same_predicate(other, filter) {
            return true;
        }
    }
    false
}

/// The filters without repeats, each where it first stands.
fn distinct_filters<'a>(
    alloc: Global,
    filters: &[&'a Predicate],
) -> Result<Vec<&'a Predicate>, AllocError>
    ensures { IfOk result (λ v.
        filter_forms v.items ≡ distinct same_predicate (filter_forms filters.now)) }
{
    let mut found: Vec<&'a Predicate> = Vec::new(alloc);
    for filter in filters {
        if !has_filter(&found, filter) {
            found.push(*filter)?;
        }
    }
    Ok(found)
}

/// The different filters of some set functions, in the order in which they first stand.
fn different_filters<'a>(
    alloc: Global,
    functions: &[Planned<'a>],
) -> Result<Vec<&'a Predicate>, AllocError>
    ensures { IfOk result (λ v.
        filter_forms v.items ≡ different_filters (planned_forms functions.now)) }
{
    distinct_filters(alloc, &all_filters(alloc, functions)?)
}

/// The different filters of a query, in the order in which they first stand in SELECT, HAVING and
/// ORDER BY. Two are the same where their trees are equal, apart from where they lie in memory.
///
/// Example: under the columns `q:int,b:bool` those of
/// `SELECT COUNT(*) FILTER (WHERE b), COUNT(*) FILTER (WHERE q = 1), SUM(q) FILTER (WHERE (b)) FROM
/// lines` are `b` and `q = 1`.
///
/// # Errors
///
/// `AllocError` where there is no memory for the list.
pub fn filters<'a>(
    alloc: Global,
    columns: &[Column],
    tree: &'a Tree,
) -> Result<Vec<&'a Predicate>, AllocError>
    ensures filters { IfOk result (λ v.
        filter_forms v.items ≡ filters_of (fields_of columns.now) (tree_form tree.now)) }
{
    different_filters(alloc, &planned_functions(alloc, columns, tree)?)
}

/// The place of a filter among others, from 0.
fn filter_place(filters: &[&Predicate], filter: &Predicate) -> Option<usize>
    ensures { result
        ≡ position (same_predicate (predicate_form filter.now)) (filter_forms filters.now) }
{
    filters
        .iter()
        .position(|other| is_same_predicate(filter, other))
}

/// A set function with the index of its filter among some filters.
fn indexed_function(function: &Planned, filters: &[&Predicate]) -> FilteredFunction
    ensures { result ≡ indexed_function (filter_forms filters.now) (planned_form function.now) }
{
    let filter = match function.filter {
        Some(filter) => filter_place(filters, filter),
        None => None,
    };
    FilteredFunction {
        function: function.function,
        filter,
    }
}

/// Set functions with the indexes of their filters among some filters.
fn index_functions(
    alloc: Global,
    functions: &[Planned],
    filters: &[&Predicate],
) -> Result<Vec<FilteredFunction>, AllocError>
    ensures { IfOk result (λ v.
        v.items ≡ map (indexed_function (filter_forms filters.now)) (planned_forms functions.now)) }
{
    let mut all = Vec::new(alloc);
    for function in functions {
        all.push(indexed_function(function, filters))?;
    }
    Ok(all)
}

/// The different set functions of a query, in the order in which they first stand in SELECT, HAVING
/// and ORDER BY, each with the index of its FILTER among the different filters, from 0, where it
/// has one. A function of a name that is no column is left out.
///
/// Example: of `SELECT COUNT(*), SUM(q) FILTER (WHERE b) FROM lines` and `q:int,b:bool` the first
/// has no filter, the second has the filter 0.
///
/// # Errors
///
/// `AllocError` where memory was refused.
pub fn indexed_functions(
    alloc: Global,
    columns: &[Column],
    tree: &Tree,
) -> Result<Vec<FilteredFunction>, AllocError>
    ensures { IfOk result (λ v.
        v.items ≡ indexed_functions (fields_of columns.now) (tree_form tree.now)) }
{
    let functions = planned_functions(alloc, columns, tree)?;
    let filters = different_filters(alloc, &functions)?;
    index_functions(alloc, &functions, &filters)
}

/// The place of a set function among others, from 0.
fn function_place(functions: &[Planned], function: &Planned) -> Option<usize>
    ensures { result
        ≡ position (same_planned (planned_form function.now)) (planned_forms functions.now) }
{
    functions
        .iter()
        .position(|other| is_same_planned(function, other))
}

/// The place of a set function among others, from 0; `None` where it is not among them, or its
/// column not in the schema. It takes no memory.
///
/// Example: among `COUNT(*)` and `SUM(q)` the function `SUM(q)` has the place 1, and
/// `SUM(q) FILTER (WHERE b)` has none.
pub fn planned_place(
    columns: &[Column],
    functions: &[Planned],
    function: &SetFunction,
) -> Option<usize>
    ensures { result
        ≡ option_and_then (λ f. position (same_planned f) (planned_forms functions.now))
        (planned_function (fields_of columns.now) (function_form function.now)) }
{
    match planned_function(columns, function) {
        Some(function) => function_place(functions, &function),
        None => None,
    }
}
