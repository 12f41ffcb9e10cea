//! Where the rows of a grouping set have what they show, which is looked up once for all of them.

ghost use Rattle.std.specs.Prelude.{◌≡◌, ◌<◌, ℕ, IfOk, IfSome, List, length, map, slice_index_or};
ghost use Rattle.std.specs.Option.{option_map_or};
ghost use Rattle.semantics.specs.Values.{null};
ghost use Rattle.values.specs.Schema.{fields_of};
ghost use Rattle.query_ast.specs.Syntax.{expression_form};
ghost use Rattle.semantics.specs.Sets.{sets_of};
ghost use Rattle.semantics.specs.SetFunctions.{functions_of};
ghost use Rattle.semantics.specs.Aggregates.{CellValue, plain};
ghost use Rattle.semantics.specs.Groups.{Key};
ghost use Rattle.semantics.specs.Rows.{grouping_column_value};
ghost use Rattle.report_rows.specs.Inside.Sources.{AreSourcesBySet, AreSourcesFor, IsSourceOf, IsWithin, expression_forms};
ghost use Rattle.report_rows.specs.Sources.{AreSourcesOfEach, ForEachSet, shown_at, sources_at};

use crate::cells::grouping_value;
use crate::view::PlanView;
use query_plan::{Expression, Text};
use query_resolve::place_of;
use std::alloc::{AllocError, Global};
use values::{Column, Value};

/// Where the rows of a grouping set have what they show for an expression.
///
/// Example: under GROUP BY ROLLUP of `d`, where the set has no column, all rows show NULL for `d`,
/// which is `Always`.
#[derive(Drop)]
pub enum ValueSource {
    /// The value at this place of their key.
    KeyAt(usize),
    /// Their cell at this place.
    CellAt(usize),
    /// All of them show this value.
    Always(Value),
}

/// The place in the keys of a grouping set of the value for the column of a name; `None` where the
/// set has no such column.
pub(crate) fn key_place(columns: &[Column], set: &[usize], name: &Text) -> Option<usize>
    ensures shown { (key : Key)
        → option_map_or (λ at. slice_index_or key at null) result null
        ≡ grouping_column_value (fields_of columns.now) set.now key name.now }
    ensures within { IfSome result (λ at. at < length set.now) }
{
    match place_of(columns, name.as_str()) {
        Some(place) => set.iter().position(|column| *column == place),
        None => None,
    }
}

/// Where the rows of a grouping set have what they show for the column of a name.
pub(crate) fn name_source(columns: &[Column], set: &[usize], name: &Text) -> ValueSource
    ensures shown { (key : Key) (cells : List CellValue)
        → shown_at key cells result
        ≡ plain (grouping_column_value (fields_of columns.now) set.now key name.now) }
    ensures within { (functions : ℕ) → IsWithin (length set.now) functions result }
{
    match key_place(columns, set, name) {
        Some(at) => ValueSource::KeyAt(at),
        None => ValueSource::Always(Value::Null),
    }
}

/// Where the rows of a grouping set have what they show for an expression.
pub(crate) fn source_of(plan: &PlanView<'_>, set: &[usize], expression: &Expression) -> ValueSource
    ensures shown { IsSourceOf plan.now set.now (expression_form expression.now) result }
    ensures within { IsWithin (length set.now)
        (length (functions_of plan.now.fields plan.now.query)) result }
{
    let columns = plan.schema().columns();
    match expression {
        Expression::Name(name) => name_source(columns, set, name),
        Expression::Grouping(names) => ValueSource::Always(grouping_value(columns, set, names)),
        Expression::Function(function) => match plan.function_place(function) {
            Some(place) => ValueSource::CellAt(place),
            None => ValueSource::Always(Value::Null),
        },
    }
}

/// Where the rows of a grouping set have what they show for each of these expressions.
fn sources_of(
    alloc: Global,
    plan: &PlanView<'_>,
    set: &[usize],
    expressions: &[&Expression],
) -> Result<Vec<ValueSource>, AllocError>
    ensures { IfOk result (λ sources.
        AreSourcesFor plan.now (expression_forms expressions.now) set.now sources.items) }
{
    let mut sources = Vec::with_capacity(alloc, expressions.len())?;
    for expression in expressions {
        sources.push(source_of(plan, set, expression))?;
    }
    Ok(sources)
}

/// Where the rows of each grouping set of the plan, in their order, have what they show for each of
/// these expressions.
fn sources_of_each(
    alloc: Global,
    plan: &PlanView<'_>,
    expressions: &[&Expression],
) -> Result<Vec<Vec<ValueSource>>, AllocError>
    ensures { IfOk result (λ all.
        ForEachSet (AreSourcesFor plan.now (expression_forms expressions.now))
        (sets_of plan.now.fields plan.now.query) all.items) }
{
    let mut all = Vec::with_capacity(alloc, plan.sets().len())?;
    for set in plan.sets() {
        all.push(sources_of(alloc, plan, set, expressions)?)?;
    }
    Ok(all)
}

/// The expressions of the items of SELECT.
fn item_expressions<'p>(
    alloc: Global,
    plan: &'p PlanView<'_>,
) -> Result<Vec<&'p Expression>, AllocError>
    ensures { IfOk result (λ expressions.
        expression_forms expressions.items ≡ map (λ i. i.expression) plan.now.query.items) }
{
    let items = plan.query().tree().items.as_slice();
    let mut expressions = Vec::with_capacity(alloc, items.len())?;
    for item in items {
        expressions.push(&item.expression)?;
    }
    Ok(expressions)
}

/// Where the rows of each grouping set of the plan, in their order, have what they show for each
/// item of SELECT.
///
/// Example: for `SELECT d, COUNT(*) FROM lines GROUP BY d` it answers one list, of `KeyAt(0)` and
/// `CellAt(0)`.
///
/// # Errors
///
/// `AllocError` where there is no memory for the lists.
pub fn sources_by_set(
    alloc: Global,
    plan: &PlanView<'_>,
) -> Result<Vec<Vec<ValueSource>>, AllocError>
    ensures { IfOk result (λ all.
        AreSourcesOfEach plan.now (sets_of plan.now.fields plan.now.query) all.items) }
{
    let expressions = item_expressions(alloc, plan)?;
    sources_of_each(alloc, plan, expressions.as_slice())
}

/// Where the rows of each grouping set of the plan, in their order, have what they show for an
/// expression.
pub(crate) fn expression_sources(
    alloc: Global,
    plan: &PlanView<'_>,
    expression: &Expression,
) -> Result<Vec<ValueSource>, AllocError>
    ensures { IfOk result (λ sources.
        AreSourcesBySet plan.now (expression_form expression.now)
        (sets_of plan.now.fields plan.now.query) sources.items) }
{
    let mut sources = Vec::with_capacity(alloc, plan.sets().len())?;
    for set in plan.sets() {
        let source = source_of(plan, set, expression);
        sources.push(source)?;
    }
    Ok(sources)
}

/// Where the rows of the grouping set at an index have what they show. There is a grouping set at
/// the index.
///
/// Example: of two lists, `sources_at(sources, 1)` is the second one.
pub fn sources_at(sources: &[Vec<ValueSource>], index: usize) -> &[ValueSource]
    requires { index < length sources.now }
    ensures { result.now ≡ sources_at sources.now index }
{
    sources[index].as_slice()
}
