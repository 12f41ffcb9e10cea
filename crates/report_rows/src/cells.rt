//! What a row shows for the items of SELECT.

ghost use Rattle.std.specs.Prelude.{◌≡◌, ◌≤◌, ◌++◌, IfOk, OnOk, map, length, slice_get, slice_index_or, unwrap_or};
ghost use Rattle.values.specs.Datum.{data_of, datum_of};
ghost use Rattle.semantics.specs.Values.{null};
ghost use Rattle.values.specs.Schema.{fields_of};
ghost use Rattle.semantics.specs.Aggregates.{plain};
ghost use Rattle.group_tables.specs.Cells.{summary_of};
ghost use Rattle.semantics.specs.Rows.{cell_value, grouping_number, value_of_grouping, is_rolled_up};
ghost use Rattle.report_rows.specs.Inside.Having.{row_values};
ghost use Rattle.report_rows.specs.Sources.{shown_at};

use crate::source::ValueSource;
use group_tables::{Cell, Group};
use query_plan::Text;
use query_resolve::place_of;
use std::alloc::AllocError;
use values::{Column, Value};

/// The most columns that GROUPING takes.
const MAX_ARGUMENTS: usize = 8;

/// What a group has where the rows of its grouping set have what they show.
pub(crate) fn cell_from(source: &ValueSource, group: &Group) -> Result<Cell, AllocError>
    ensures { IfOk result (λ cell. summary_of cell ≡ shown_at
        (data_of group.now.key.items) (map summary_of group.now.cells.items) source.now) }
{
    match source {
        ValueSource::KeyAt(place) => Ok(Cell::Plain(value_at(group.key.as_slice(), *place)?)),
        ValueSource::CellAt(place) => cell_at(group.cells.as_slice(), *place),
        ValueSource::Always(value) => Ok(Cell::Plain(value.clone()?)),
    }
}

/// The value of what a group has where the rows of its grouping set have what they show. An average
/// is no single value, and none may stand where the value is asked for.
pub(crate) fn value_from(source: &ValueSource, group: &Group) -> Result<Value, AllocError>
    ensures { IfOk result (λ value. datum_of value ≡ cell_value (shown_at
        (data_of group.now.key.items) (map summary_of group.now.cells.items) source.now)) }
{
    match cell_from(source, group)? {
        Cell::Plain(value) => Ok(value),
        Cell::Ratio(..) => Ok(Value::Null),
    }
}

// ---- the values of a row

/// Puts the values of the row of a group in place of others: those of its key, and behind them
/// those of its cells. The memory of the others is used again.
pub(crate) fn put_row(group: &Group, values: &mut Vec<Value>) -> Result<(), AllocError>
    ensures { OnOk result (data_of values.new.items ≡ row_values
        (data_of group.now.key.items) (map summary_of group.now.cells.items)) }
{
    values.clear();
    push_key(group.key.as_slice(), values)?;
    push_cells(group.cells.as_slice(), values)
}

/// Adds the values of a key.
fn push_key(key: &[Value], values: &mut Vec<Value>) -> Result<(), AllocError>
    ensures { OnOk result
        (data_of values.new.items ≡ data_of values.old.items ++ data_of key.now) }
{
    for value in key {
        values.push(value.clone()?)?;
    }
    Ok(())
}

/// Adds the values of cells.
fn push_cells(cells: &[Cell], values: &mut Vec<Value>) -> Result<(), AllocError>
    ensures { OnOk result (data_of values.new.items
        ≡ data_of values.old.items ++ map cell_value (map summary_of cells.now)) }
{
    for cell in cells {
        values.push(value_of(cell)?)?;
    }
    Ok(())
}

/// A copy of the value of a cell. An average is no single value.
fn value_of(cell: &Cell) -> Result<Value, AllocError>
    ensures { IfOk result (λ value. datum_of value ≡ cell_value (summary_of cell.now)) }
{
    match cell {
        Cell::Plain(value) => value.clone(),
        Cell::Ratio(..) => Ok(Value::Null),
    }
}

// ---- columns

/// A copy of the value at a place, and NULL where there is none.
fn value_at(key: &[Value], place: usize) -> Result<Value, AllocError>
    ensures { IfOk result (λ value. datum_of value ≡ slice_index_or (data_of key.now) place null) }
{
    match key.get(place) {
        Some(value) => value.clone(),
        None => Ok(Value::Null),
    }
}

// ---- GROUPING

/// Whether the column of a name is not in a grouping set.
fn is_rolled_up(columns: &[Column], set: &[usize], name: &Text) -> bool
    ensures { result ≡ is_rolled_up (fields_of columns.now) set.now name.now }
{
    match place_of(columns, name.as_str()) {
        Some(place) => !set.contains(&place),
        None => true,
    }
}

/// The number whose binary digits are 1 where the column is not in the grouping set, the last
/// column's lowest.
fn grouping_number(columns: &[Column], set: &[usize], names: &[Text]) -> u64
    requires { length names.now ≤ 8 }
    ensures { result ≡ grouping_number (fields_of columns.now) set.now names.now }
{
    let mut number = 0;
    for name in names {
        number = u64::from(is_rolled_up(columns, set, name)) + 2 * number;
    }
    number
}

/// What a row of a grouping set shows for GROUPING.
pub(crate) fn grouping_value(columns: &[Column], set: &[usize], names: &[Text]) -> Value
    ensures { datum_of result ≡ value_of_grouping (fields_of columns.now) set.now names.now }
{
    if names.len() > MAX_ARGUMENTS {
        return Value::Null;
    }
    Value::Int(i128::from(grouping_number(columns, set, names)))
}

// ---- cells

/// A copy of the cell at a place, and NULL where there is none.
fn cell_at(cells: &[Cell], place: usize) -> Result<Cell, AllocError>
    ensures { IfOk result (λ cell.
        summary_of cell ≡ unwrap_or (slice_get (map summary_of cells.now) place) (plain null)) }
{
    match cells.get(place) {
        Some(cell) => copy_of(cell),
        None => Ok(Cell::Plain(Value::Null)),
    }
}

/// A copy of a cell.
fn copy_of(cell: &Cell) -> Result<Cell, AllocError>
    ensures { IfOk result (λ copy. summary_of copy ≡ summary_of cell.now) }
{
    match cell {
        Cell::Plain(value) => Ok(Cell::Plain(value.clone()?)),
        Cell::Ratio(sum, count) => Ok(Cell::Ratio(*sum, *count)),
    }
}
