//! What a query asks of the groups of its parts.

ghost use Rattle.std.specs.Prelude.{◌≡◌, IfOk, map};
ghost use Rattle.values.specs.Schema.{fields_of};
ghost use Rattle.part_lines.specs.Groups.{shape_of};
ghost use Rattle.parts.specs.ReadingParts.{rows_kind, shape_over, state_kind, type_at};

use part_lines::{GroupShape, StateKind};
use query_resolve::{ColumnFunction, FilteredFunction};
use semantics::Kind;
use std::alloc::{AllocError, Global};
use values::Column;

/// The shape of groups under grouping columns, by their places, and with these set functions.
pub(crate) fn shape_over(
    alloc: Global,
    columns: &[Column],
    grouping: &[usize],
    functions: &[FilteredFunction],
) -> Result<GroupShape, AllocError>
    ensures { IfOk result (λ shape. shape_of shape
        ≡ shape_over (fields_of columns.now) grouping.now functions.now) }
{
    Ok(GroupShape {
        columns: types_of(alloc, columns, grouping)?,
        states: state_kinds(alloc, columns, functions)?,
    })
}

/// The types of the columns at these places.
fn types_of(alloc: Global, columns: &[Column], places: &[usize]) -> Result<Vec<Kind>, AllocError>
    ensures { IfOk result (λ types. types.items
        ≡ map (type_at (fields_of columns.now)) places.now) }
{
    let mut types = Vec::new(alloc);
    for place in places {
        types.push(type_at(columns, *place))?;
    }
    Ok(types)
}

/// The type of the column at a place.
fn type_at(columns: &[Column], place: usize) -> Kind
    ensures { result ≡ type_at (fields_of columns.now) place }
{
    match columns.get(place) {
        Some(column) => column.kind,
        None => Kind::Int,
    }
}

/// The kinds of the states of set functions.
fn state_kinds(
    alloc: Global,
    columns: &[Column],
    functions: &[FilteredFunction],
) -> Result<Vec<StateKind>, AllocError>
    ensures { IfOk result (λ kinds. kinds.items
        ≡ map (state_kind (fields_of columns.now)) functions.now) }
{
    let mut kinds = Vec::new(alloc);
    for function in functions {
        kinds.push(state_kind(columns, *function))?;
    }
    Ok(kinds)
}

/// The kind of the state of a set function.
fn state_kind(columns: &[Column], function: FilteredFunction) -> StateKind
    ensures { result ≡ state_kind (fields_of columns.now) function }
{
    match function.function {
        ColumnFunction::CountRows => rows_kind(function.filter),
        ColumnFunction::Count(_) => StateKind::Count,
        ColumnFunction::CountDistinct(place) => StateKind::Distinct(type_at(columns, place)),
        ColumnFunction::Sum(_) | ColumnFunction::Avg(_) => StateKind::Sum,
        ColumnFunction::Min(place) | ColumnFunction::Max(place) => {
            StateKind::Extreme(type_at(columns, place))
        }
    }
}

/// The kind of the state of `COUNT(*)` with this filter or with none.
fn rows_kind(filter: Option<usize>) -> StateKind
    ensures { result ≡ rows_kind filter }
{
    match filter {
        None => StateKind::Rows,
        Some(_) => StateKind::Count,
    }
}
