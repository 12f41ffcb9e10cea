//! Records are grouped in two parts, and the parts are put together; groups are rolled up. Two set
//! functions have a FILTER.

ghost use Rattle.std.specs.Prelude.{◌≡◌, ◌<◌, ◌^◌, ◌∷◌, [], IfOk, length, List, map};
ghost use Rattle.values.specs.Datum.{data_of, datum_of};
ghost use Rattle.group_tables.specs.Functions.{aggregate_of};
ghost use Rattle.semantics.specs.Groups.{Record, value_at};
ghost use Rattle.group_tables.specs.Rows.{IsNarrow, IsNarrowRow};
ghost use Rattle.semantics.specs.Aggregates.{is_non_null};
ghost use Rattle.group_tables.specs.Table.{HasFewRecords, IsTableOf};

use group_tables::{Cell, Group, HashSeed, Serial, Table};
use query_resolve::{ColumnFunction, FilteredFunction};
use std::alloc::{AllocError, Global};
use std::test::Fail;
use values::Value;

/// A value of a record that is written by hand.
#[derive(Clone, Copy, Debug)]
enum Field {
    Text(&'static str),
    Number(i64),
    Nothing,
}

fn value_of(alloc: Global, field: Field) -> Result<Value, AllocError>
    ensures { IfOk result (λ value. IsNarrow (datum_of value)) }
{
    match field {
        Field::Text(text) => Ok(Value::Text(text.to_string(alloc)?)),
        Field::Number(number) => Ok(Value::Int(i128::from(number))),
        Field::Nothing => Ok(Value::Null),
    }
}

fn row_of(alloc: Global, fields: &[Field]) -> Result<Vec<Value>, AllocError>
    ensures { IfOk result (λ row. IsNarrowRow (data_of row.items)) }
{
    let mut row = Vec::new(alloc);
    for field in fields {
        row.push(value_of(alloc, *field)?)?;
    }
    Ok(row)
}

/// Whether the one filter keeps a record: where its second column is not NULL.
fn keeps(row: &[Value]) -> bool
    ensures { result ≡ is_non_null (value_at 1 (data_of row.now)) }
{
    match row.get(1) {
        Some(Value::Bool(_) | Value::Int(_) | Value::Text(_)) => true,
        Some(Value::Null) | None => false,
    }
}

/// The table of some records.
fn table_of(
    alloc: Global,
    set: &[usize],
    functions: &[FilteredFunction],
    records: &[&[Field]],
) -> Result<Table, AllocError>
    requires { length records.now < 2 ^ 62 }
    ensures { IfOk result (λ table. (rows : List Record) × (IsTableOf set.now
        (map (aggregate_of ((λ row. is_non_null (value_at 1 row)) ∷ [])) functions.now) table rows
        × (length rows < 2 ^ 62))) }
{
    let mut table = Table::new(alloc, HashSeed::Fixed, 1, set, functions)?;
    for fields in records {
        let row = row_of(alloc, fields)?;
        let values = row.as_slice();
        let marks = [keeps(values)];
        table.add(set, functions, values, &marks)?;
    }
    Ok(table)
}

/// The groups of some records in two parts.
fn joined_groups(
    alloc: Global,
    set: &[usize],
    functions: &[FilteredFunction],
    left: &[&[Field]],
    right: &[&[Field]],
) -> Result<Vec<Group>, AllocError>
    requires few_left { length left.now < 2 ^ 62 }
    requires few_right { length right.now < 2 ^ 62 }
{
    let mut table = table_of(alloc, set, functions, left)?;
    let other = table_of(alloc, set, functions, right)?;
    table.absorb(&Serial, other)?;
    table.finish(&Serial)
}

fn number(number: i128) -> Cell {
    Cell::Plain(Value::Int(number))
}

fn null() -> Cell {
    Cell::Plain(Value::Null)
}

/// Whether there are the two groups of the records of `parted_groups`.
fn are_two_groups(groups: &[Group]) -> bool {
    let ones = [number(2), number(1), number(5), number(2), number(5)];
    let nulls = [number(1), number(0), null(), number(0), null()];
    groups.len() == 2
        && groups.iter().all(|group| match group.key.as_slice() {
            [Value::Text(key)] => key.as_str() == "x"
                && group.lines == 2
                && group.cells.as_slice() == ones.as_slice(),
            [Value::Null] => group.lines == 1 && group.cells.as_slice() == nulls.as_slice(),
            [Value::Int(_) | Value::Bool(_)] | [] | [_, _, ..] => false,
        })
}

const FUNCTIONS: [FilteredFunction; 5] = [
    FilteredFunction {
        function: ColumnFunction::CountRows,
        filter: None,
    },
    FilteredFunction {
        function: ColumnFunction::CountDistinct(1),
        filter: None,
    },
    FilteredFunction {
        function: ColumnFunction::Min(1),
        filter: None,
    },
    FilteredFunction {
        function: ColumnFunction::CountRows,
        filter: Some(0),
    },
    FilteredFunction {
        function: ColumnFunction::Max(1),
        filter: Some(0),
    },
];

/// The groups of three records, of which one is in another part.
fn parted_groups(alloc: Global) -> Result<Vec<Group>, AllocError> {
    let left: [&[Field]; 2] = [
        &[Field::Text("x"), Field::Number(5)],
        &[Field::Nothing, Field::Nothing],
    ];
    let right: [&[Field]; 1] = [&[Field::Text("x"), Field::Number(5)]];
    joined_groups(alloc, &[0], &FUNCTIONS, &left, &right)
}

/// The same table, of which it is said that its records are few.
fn table_of_few(
    alloc: Global,
    set: &[usize],
    functions: &[FilteredFunction],
    records: &[&[Field]],
) -> Result<Table, AllocError>
    requires { length records.now < 2 ^ 62 }
    ensures { IfOk result (HasFewRecords functions.now) }
{
    let table = table_of(alloc, set, functions, records)?;
    Ok(table)
}

/// The groups of three records by their first column, by way of those by their third and their
/// first one.
fn rolled_groups(alloc: Global) -> Result<Vec<Group>, AllocError> {
    let records: [&[Field]; 3] = [
        &[Field::Text("x"), Field::Number(5), Field::Text("a")],
        &[
            Field::Text("x"),
            Field::Number(5),
            Field::Text("much longer"),
        ],
        &[Field::Nothing, Field::Nothing, Field::Nothing],
    ];
    let finest = table_of_few(alloc, &[0, 2], &FUNCTIONS, &records)?;
    let finer = finest.roll(&[0, 2], &[2, 0], &FUNCTIONS)?;
    finer.roll(&[2, 0], &[0], &FUNCTIONS)?.finish(&Serial)
}

/// The groups of no records under the empty set, by way of those by a column.
fn rolled_of_none(alloc: Global) -> Result<Vec<Group>, AllocError> {
    let none = table_of_few(alloc, &[0], &FUNCTIONS, &[])?;
    none.roll(&[0], &[], &FUNCTIONS)?.finish(&Serial)
}

/// Whether there is the one group of no records.
fn is_empty_group(groups: &[Group]) -> bool {
    let zeros = [number(0), number(0), null(), number(0), null()];
    match groups {
        [group] => {
            group.key.is_empty() && group.lines == 0 && group.cells.as_slice() == zeros.as_slice()
        }
        _ => false,
    }
}

#[test]
fn groups_by_a_column(rt: HostRuntime) -> Result<(), Fail> {
    let groups = parted_groups(rt.alloc())?;
    assert!(rt; are_two_groups(groups.as_slice()), "{groups:?}");
    Ok(())
}

#[test]
fn rolls_groups_up(rt: HostRuntime) -> Result<(), Fail> {
    let groups = rolled_groups(rt.alloc())?;
    assert!(rt; are_two_groups(groups.as_slice()), "{groups:?}");
    let groups = rolled_of_none(rt.alloc())?;
    assert!(rt; is_empty_group(groups.as_slice()), "{groups:?}");
    Ok(())
}

/// For the loop that refuses each allocation in turn: the groups, or want of memory.
#[test]
fn refusal_of_groups(rt: HostRuntime) {
    match parted_groups(rt.alloc()) {
        Ok(groups) => assert!(rt; are_two_groups(groups.as_slice()), "{groups:?}"),
        Err(AllocError) => {}
    }
}

/// For the loop that refuses each allocation in turn: the rolled groups, or want of memory.
#[test]
fn refusal_of_rolled_groups(rt: HostRuntime) {
    match rolled_groups(rt.alloc()) {
        Ok(groups) => assert!(rt; are_two_groups(groups.as_slice()), "{groups:?}"),
        Err(AllocError) => {}
    }
}
