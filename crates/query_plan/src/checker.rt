//! Checking a query under a schema.

ghost use Rattle.std.specs.Prelude.{◌≡◌, ◌≢◌, [], IfErr, IfOk, OnOk, Some, slice_get};
ghost use Rattle.semantics.specs.Faults.{query_faults};
ghost use Rattle.query_typecheck.specs.FirstFaults.{query_fault};
ghost use Rattle.query_resolve.specs.Resolution.{resolution_of};
ghost use Rattle.query_typecheck.specs.Typing.{IsTyped};
ghost use Rattle.semantics.specs.declared.query_fault.QueryFault.TheVariants.{OutOfMemory};
ghost use Rattle.query_ast.specs.Syntax.{tree_form};
ghost use Rattle.query_resolve.specs.Functions.{filters_of};
ghost use Rattle.query_eval.specs.Binding.{AreConditionsOf, IsConditionOf};
ghost use Rattle.values.specs.Schema.{fields_of};

use crate::plan::Plan;
use crate::query::Query;
use query_ast::Tree;
use query_eval::{Condition, bind_filters, bind_where};
use query_resolve::filters;
use query_typecheck::{Resolved, check_tree};
use semantics::QueryFault;
use std::alloc::{AllocError, Global};
use values::{Column, Schema};

/// Checks a query under a schema, and plans it. It takes both; where the query is refused, they are
/// given up.
///
/// Example: of `SELECT shop, SUM(cents) AS s FROM lines` and `shop:text,cents:int` it answers
/// `NotGrouped` with `shop`; with `GROUP BY shop` behind it, a plan.
///
/// # Errors
///
/// The first fault, in the order WHERE, GROUP BY, SELECT, HAVING, ORDER BY, each from left to
/// right: a name that is no column (`UnknownColumn`), or no grouping column where it has to be one
/// (`NotGrouped`); types that do not agree (`TypesDisagree`); a function where it may not stand
/// (`FunctionNotAllowed`); more than 256 expanded grouping sets, or, behind all else, more than 64
/// different set functions (`OverLimit`); two items with one header (`RepeatedHeader`).
/// `OutOfMemory` says nothing of the query.
pub fn check(alloc: Global, query: Query, schema: Schema) -> Result<Plan, QueryFault>
    ensures query { IfOk result (λ plan. plan.query ≡ query) }
    ensures schema { IfOk result (λ plan. plan.fields ≡ schema) }
    // A plan is answered only where nothing is wrong with the query.
    ensures typed { OnOk result (query_faults schema query ≡ []) }
    // A fault is the first of what is wrong with it.
    ensures fault { IfErr result (λ fault. fault ≢ OutOfMemory
        → slice_get (query_faults schema query) 0 ≡ Some fault) }
{
    match resolve(alloc, query.tree(), &schema) {
        Ok((resolved, condition, filters)) => {
            Ok(Plan::new(query, schema, resolved, condition, filters))
        }
        Err(fault) => Err(fault),
    }
}

/// What the names of a typed query stand for, the condition of its WHERE, and those of its
/// different filters.
fn resolve(
    alloc: Global,
    tree: &Tree,
    schema: &Schema,
) -> Result<(Resolved, Option<Condition>, Vec<Condition>), QueryFault>
    ensures typed { OnOk result (IsTyped schema.now (tree_form tree.now)) }
    ensures resolved { IfOk result (λ r. r.0 ≡ resolution_of schema.now (tree_form tree.now)) }
    ensures condition { IfOk result (λ r.
        IsConditionOf schema.now (tree_form tree.now).where_condition r.1) }
    ensures filters { IfOk result (λ r.
        AreConditionsOf schema.now (filters_of schema.now (tree_form tree.now)) r.2.items) }
    ensures fault { IfErr result (λ fault. fault ≢ OutOfMemory
        → query_fault schema.now (tree_form tree.now) ≡ Some fault) }
{
    let resolved = check_tree(alloc, tree, schema)?;
    let columns = schema.columns();
    let filters = filter_conditions(alloc, columns, tree)?;
    let condition = bind_where(alloc, columns, &tree.where_condition)?;
    Ok((resolved, condition, filters))
}

/// The conditions of a query's different filters.
fn filter_conditions(
    alloc: Global,
    columns: &[Column],
    tree: &Tree,
) -> Result<Vec<Condition>, AllocError>
    ensures { IfOk result (λ conditions. AreConditionsOf (fields_of columns.now)
        (filters_of (fields_of columns.now) (tree_form tree.now)) conditions.items) }
{
    let filters = filters(alloc, columns, tree)?;
    bind_filters(alloc, columns, &filters)
}
