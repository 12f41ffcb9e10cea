//! Checking a query, and what it is resolved to.

ghost use Rattle.std.specs.Prelude.{◌≡◌, ◌≢◌, map, string_bytes, length, IfErr, IfOk, OnOk, Some};
ghost use Rattle.std.specs.List.{list_any};
ghost use Rattle.std.specs.Str.{bytes_eq};
ghost use Rattle.std.specs.Option.{option_map};
ghost use Rattle.values.specs.Schema.{fields_of};
ghost use Rattle.query_ast.specs.Syntax.{expression_form, element_form, item_form, key_form, predicate_form, tree_form};
ghost use Rattle.semantics.specs.Canonical.{header_text};
ghost use Rattle.query_resolve.specs.Functions.{indexed_functions};
ghost use Rattle.semantics.specs.Sets.{expansion, grouping_places};
ghost use Rattle.query_typecheck.specs.Typing.{IsTyped};
ghost use Rattle.semantics.specs.Types.{key_expression};
ghost use Rattle.query_typecheck.specs.FirstFaults.{Answers, clause_fault, expression_fault, first_fault, headers_fault, limit_fault, query_fault};
ghost use Rattle.query_typecheck.specs.Inside.Clauses.{clauses_fault, keys_fault, records_fault, rows_fault, select_fault};
ghost use Rattle.query_typecheck.specs.Standing.{IsViolation};
ghost use Rattle.semantics.specs.declared.query_fault.QueryFault.TheVariants.{OutOfMemory, RepeatedHeader};
ghost use Rattle.query_resolve.specs.Resolution.{resolution_of};
ghost use Rattle.semantics.specs.Limits.{most_grouping_sets};

use crate::names::check_groups;
use crate::scope::{Clause, ClauseScope};
use crate::types::{check_expression, check_predicate};
use query_ast::{Expression, GroupingElement, Item, Key, Predicate, Text, Tree};
use query_printer::header;
use query_resolve::{
    FilteredFunction, grouping_places, grouping_sets, indexed_functions, set_count,
};
use semantics::QueryFault;
use std::alloc::{AllocError, Global};
use std::marker::Model;
use values::{Column, Schema};

/// The most grouping sets in the expanded list.
const MAX_GROUPING_SETS: u64 = 256;

/// The most different set functions.
const MAX_SET_FUNCTIONS: u64 = 64;

/// What a query is resolved to under a schema: places of columns, from 0, in place of their names.
///
/// Example: `SELECT COUNT(*) FROM lines GROUP BY ROLLUP (r, d)` is resolved under the columns
/// `d:text,r:text` to the grouping columns 1 and 0, the sets of 1 and 0, of 1, and of none, and the
/// one set function `CountRows`.
pub struct Resolved {
    grouping: Vec<usize>,
    sets: Vec<Vec<usize>>,
    functions: Vec<FilteredFunction>,
}

// A function of its own: a derived one is written out, and proved, wherever one is given up.
impl Drop for Resolved {
    fn drop(self) {
        let Resolved {
            grouping,
            sets,
            functions,
        } = self;
        drop(grouping);
        drop(sets);
        drop(functions);
    }
}

impl Model for Resolved {
    ghost use Rattle.query_resolve.specs.Resolution.{Resolution, contents};

    ghost Value = { Resolution };

    ghost view = { λ r. record {
      grouping = r.grouping.items;
      sets = contents r.sets.items;
      functions = r.functions.items;
    } };
}

impl Resolved {
    ghost use Rattle.query_resolve.specs.Resolution.{contents};

    /// The places of the grouping columns, from 0, in the order in which GROUP BY first names them.
    pub fn grouping(&self) -> &[usize]
        ensures { result.now ≡ self.now.grouping }
    {
        self.grouping.as_slice()
    }

    /// The grouping sets, each as the places of its columns, in the order in which GROUP BY first
    /// names them: the expanded list, under GROUP BY DISTINCT without each set that has the same
    /// columns as an earlier one. Without GROUP BY it is the one empty set. ISO/IEC 9075-2
    /// `<group by clause>`.
    pub fn sets(&self) -> &[Vec<usize>]
        ensures { contents result.now ≡ self.now.sets }
    {
        self.sets.as_slice()
    }

    /// The different set functions, in the order in which they first stand in SELECT, HAVING and
    /// ORDER BY, each with the index of its FILTER among the different filters, from 0, where it
    /// has one.
    pub fn functions(&self) -> &[FilteredFunction]
        ensures { result.now ≡ self.now.functions }
    {
        self.functions.as_slice()
    }
}

/// Whether a clause of a predicate is typed, where it is written.
fn check_clause(scope: &ClauseScope, predicate: &Option<Predicate>) -> Result<(), QueryFault>
    ensures fault { Answers result (clause_fault (fields_of scope.now.columns.now)
        scope.now.grouping.now scope.now.clause (option_map predicate_form predicate.now)) }
{
    match predicate {
        None => Ok(()),
        Some(predicate) => check_predicate(scope, predicate),
    }
}

/// Whether the items are typed.
fn check_items(scope: &ClauseScope, items: &[Item]) -> Result<(), QueryFault>
    ensures fault { Answers result (first_fault (λ i. expression_fault
        (fields_of scope.now.columns.now) scope.now.grouping.now scope.now.clause i.expression)
        (map item_form items.now)) }
{
    for item in items {
        check_expression(scope, &item.expression)?;
    }
    Ok(())
}

/// The expression that a key stands for: that of the first item whose alias it is, else its own.
///
/// Example: with the items `d, SUM(q) AS s` the key `s` stands for `SUM(q)`, and the key `d` for
/// itself.
pub fn key_expression<'a>(items: &'a [Item], expression: &'a Expression) -> &'a Expression
    ensures { expression_form result.now
        ≡ key_expression (map item_form items.now) (expression_form expression.now) }
{
    let Expression::Name(name) = expression else {
        return expression;
    };
    for item in items {
        if let Some(alias) = &item.alias
            && alias.as_str() == name.as_str()
        {
            return &item.expression;
        }
    }
    expression
}

/// Whether the keys are typed.
fn check_keys(scope: &ClauseScope, items: &[Item], keys: &[Key]) -> Result<(), QueryFault>
    ensures fault { Answers result (keys_fault (fields_of scope.now.columns.now)
        scope.now.grouping.now scope.now.clause (map item_form items.now) (map key_form keys.now)) }
{
    for key in keys {
        check_expression(scope, key_expression(items, &key.expression))?;
    }
    Ok(())
}

/// Whether a text is among headers.
fn has_header(headers: &[String], text: &str) -> bool
    ensures { result ≡ list_any (bytes_eq text.now) (map string_bytes headers.now) }
{
    headers.iter().any(|header| text == header.as_str())
}

/// Whether the headers of the items differ.
fn check_headers(alloc: Global, items: &[Item]) -> Result<(), QueryFault>
    ensures fault { Answers result (headers_fault (map header_text (map item_form items.now))) }
{
    let mut headers: Vec<String> = Vec::new(alloc);
    for item in items {
        let text = header(alloc, item)?;
        if has_header(&headers, text.as_str()) {
            return Err(QueryFault::RepeatedHeader(Text::from_string(text)));
        }
        headers.push(text)?;
    }
    Ok(())
}

/// Whether a number is at most this limit.
fn check_limit(most: u64, count: u64) -> Result<(), QueryFault>
    ensures fault { Answers result (limit_fault most count) }
{
    if count > most {
        return Err(QueryFault::OverLimit);
    }
    Ok(())
}

/// Whether GROUP BY stands for few enough sets.
#[tactic(auto, using(crate::proofs::Limits::answers_capped))]
fn check_set_count(groups: &[GroupingElement]) -> Result<(), QueryFault>
    ensures fault { Answers result
        (limit_fault most_grouping_sets (length (expansion (map element_form groups.now)))) }
{
    check_limit(MAX_GROUPING_SETS, set_count(groups))
}

/// Whether WHERE and GROUP BY are typed.
#[tactic(auto, unfolding(crate::specs::Inside::Clauses::records_fault))]
fn check_records(scope: &ClauseScope, tree: &Tree) -> Result<(), QueryFault>
    requires { scope.now.clause ≡ Clause.Where }
    ensures fault { Answers result (records_fault (fields_of scope.now.columns.now)
        scope.now.grouping.now (option_map predicate_form tree.now.where_condition)
        (map element_form tree.now.groups.items)) }
{
    check_clause(scope, &tree.where_condition)?;
    check_groups(scope.columns, &tree.groups)?;
    check_set_count(&tree.groups)
}

/// Whether SELECT is typed.
#[tactic(auto, unfolding(crate::specs::Inside::Clauses::select_fault))]
fn check_select(alloc: Global, scope: &ClauseScope, items: &[Item]) -> Result<(), QueryFault>
    requires { scope.now.clause ≡ Clause.Select }
    ensures fault { Answers result (select_fault (fields_of scope.now.columns.now)
        scope.now.grouping.now (map item_form items.now)) }
{
    check_items(scope, items)?;
    check_headers(alloc, items)
}

/// Whether SELECT, HAVING and ORDER BY are typed.
#[tactic(auto, unfolding(crate::specs::Inside::Clauses::rows_fault))]
fn check_rows(
    alloc: Global,
    columns: &[Column],
    grouping: &[usize],
    tree: &Tree,
) -> Result<(), QueryFault>
    ensures fault { Answers result
        (rows_fault (fields_of columns.now) grouping.now (map item_form tree.now.items.items)
        (option_map predicate_form tree.now.having_condition) (map key_form tree.now.keys.items)) }
{
    let mut scope = ClauseScope {
        columns,
        grouping,
        clause: Clause::Select,
    };
    check_select(alloc, &scope, &tree.items)?;
    scope.clause = Clause::Having;
    check_clause(&scope, &tree.having_condition)?;
    scope.clause = Clause::OrderBy;
    check_keys(&scope, &tree.items, &tree.keys)
}

/// Whether all clauses are typed; then the different set functions.
#[tactic(auto, unfolding(crate::specs::Inside::Clauses::clauses_fault))]
fn check_clauses(
    alloc: Global,
    columns: &[Column],
    grouping: &[usize],
    tree: &Tree,
) -> Result<Vec<FilteredFunction>, QueryFault>
    ensures functions { IfOk result (λ v.
        v.items ≡ indexed_functions (fields_of columns.now) (tree_form tree.now)) }
    ensures fault { Answers result
        (clauses_fault (fields_of columns.now) grouping.now (tree_form tree.now)) }
{
    let scope = ClauseScope {
        columns,
        grouping,
        clause: Clause::Where,
    };
    check_records(&scope, tree)?;
    check_rows(alloc, columns, grouping, tree)?;
    let functions = indexed_functions(alloc, columns, tree)?;
    check_limit(MAX_SET_FUNCTIONS, functions.len() as u64)?;
    Ok(functions)
}

/// Checks and resolves a query.
fn resolve(alloc: Global, tree: &Tree, schema: &Schema) -> Result<Resolved, QueryFault>
    ensures resolved { IfOk result (λ r. r ≡ resolution_of schema.now (tree_form tree.now)) }
    ensures fault { Answers result (clauses_fault schema.now
        (grouping_places schema.now (tree_form tree.now)) (tree_form tree.now)) }
{
    let columns = schema.columns();
    let grouping = grouping_places(alloc, columns, &tree.groups)?;
    let functions = check_clauses(alloc, columns, &grouping, tree)?;
    let sets = grouping_sets(alloc, columns, &grouping, tree.distinct_sets, &tree.groups)?;
    Ok(Resolved {
        grouping,
        sets,
        functions,
    })
}

/// Checks a query under a schema, and resolves it.
///
/// Example: of `SELECT d FROM lines GROUP BY r` and `d:text,r:text` it answers `NotGrouped` with
/// `d`.
///
/// # Errors
///
/// The first fault, in the order WHERE, GROUP BY, SELECT, HAVING, ORDER BY, each from left to
/// right: `UnknownColumn` and `NotGrouped` with the name, `TypesDisagree`, `FunctionNotAllowed`.
/// Behind the names of GROUP BY comes `OverLimit` where it stands for more than 256 sets; behind
/// the items of SELECT `RepeatedHeader` with the header; and at the end `OverLimit` where there are
/// more than 64 different set functions. `OutOfMemory` says nothing of the query.
pub fn check_tree(alloc: Global, tree: &Tree, schema: &Schema) -> Result<Resolved, QueryFault>
    ensures typed { OnOk result (IsTyped schema.now (tree_form tree.now)) }
    ensures resolved { IfOk result (λ r. r ≡ resolution_of schema.now (tree_form tree.now)) }
    ensures untyped { IfErr result (λ f. f ≢ OutOfMemory
        → IsTyped schema.now (tree_form tree.now) → ⊥) }
    ensures fault { Answers result (query_fault schema.now (tree_form tree.now)) }
    // A fault stands in the query.
    ensures stands { IfErr result (λ f. f ≢ OutOfMemory
        → IsViolation schema.now (tree_form tree.now) f) }
{
    resolve(alloc, tree, schema)
}
