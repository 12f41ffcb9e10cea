//! What a query finds in an input, by the definitions' plain program: slow, over lists, without
//! tables.

ghost use Rattle.std.specs.Prelude.{◌<◌, length};
ghost use Rattle.semantics.specs.SetFunctions.{functions_of};

use lines::{LineFault, LineRefusal, lines_of, read_record};
use query::{ColumnFunction, Plan, filter_holds};
use std::alloc::Global;
use std::process::Abort;
use tables::Cell;
use values::{Record, Schema, Truth, Value};

/// A group of a grouping set.
#[derive(Debug, PartialEq, Eq, Drop)]
pub struct Row {
    /// The index of the grouping set among those of the plan.
    pub set: usize,
    /// The values in the columns of the set.
    pub key: Vec<Value>,
    /// The number of members.
    pub lines: u64,
    /// The value of each set function over the members.
    pub cells: Vec<Cell>,
}

/// What a query finds in an input.
#[derive(Debug, Drop)]
pub struct Findings {
    /// The number of lines, good and refused.
    pub lines: u64,
    /// The groups by the index of their set, those of one set by their keys.
    pub rows: Vec<Row>,
    /// The refused lines by their numbers, from 1.
    pub refused: Vec<(u64, LineFault)>,
}

/// The lines of an input, read.
#[derive(Debug, Drop)]
struct Reading {
    lines: u64,
    good: Vec<Record>,
    refused: Vec<(u64, LineFault)>,
}

/// What a plan's query finds in an input.
pub fn findings_of(rt: &impl Abort, alloc: Global, plan: &Plan, input: &[u8]) -> Findings {
    let reading = read_all(rt, alloc, plan.schema(), input);
    let rows = rows_of(rt, alloc, plan, reading.good.as_slice());
    Findings {
        lines: reading.lines,
        rows,
        refused: reading.refused,
    }
}

fn read_all(rt: &impl Abort, alloc: Global, schema: &Schema, input: &[u8]) -> Reading {
    let mut good = Vec::new(alloc);
    let mut refused = Vec::new(alloc);
    let mut lines: u64 = 0;
    for line in lines_of(input) {
        lines = lines.checked_add(1).expect(rt, "few lines");
        match read_record(alloc, schema, line) {
            Ok(taken) => good.push(taken).expect(rt, "memory"),
            Err(LineRefusal::Fault(fault)) => refused.push((lines, fault)).expect(rt, "memory"),
            Err(LineRefusal::Memory) => panic!(rt; "memory"),
        }
    }
    Reading {
        lines,
        good,
        refused,
    }
}

/// The groups of an input under one set of columns, as those of a set with the index 0.
pub fn rows_under(
    rt: &impl Abort,
    alloc: Global,
    plan: &Plan,
    set: &[usize],
    input: &[u8],
) -> Vec<Row> {
    let reading = read_all(rt, alloc, plan.schema(), input);
    let mut rows = Vec::new(alloc);
    push_rows(
        rt,
        alloc,
        plan,
        (0, set),
        reading.good.as_slice(),
        &mut rows,
    );
    rows
}

/// The groups of all sets.
fn rows_of(rt: &impl Abort, alloc: Global, plan: &Plan, good: &[Record]) -> Vec<Row> {
    let mut rows = Vec::new(alloc);
    for (index, set) in plan.sets().iter().enumerate() {
        push_rows(rt, alloc, plan, (index, set.as_slice()), good, &mut rows);
    }
    rows
}

/// Puts the groups of a set, which has an index, to others.
fn push_rows(
    rt: &impl Abort,
    alloc: Global,
    plan: &Plan,
    (index, set): (usize, &[usize]),
    good: &[Record],
    rows: &mut Vec<Row>,
) {
    for key in keys_of(rt, alloc, set, good) {
        let row = row_of(rt, alloc, plan, index, set, key, good);
        rows.push(row).expect(rt, "memory");
    }
}

/// The group of a key.
fn row_of(
    rt: &impl Abort,
    alloc: Global,
    plan: &Plan,
    index: usize,
    set: &[usize],
    key: Vec<Value>,
    good: &[Record],
) -> Row {
    let members = members_of(rt, alloc, set, key.as_slice(), good);
    let cells = cells_of(rt, alloc, plan, members.as_slice());
    Row {
        set: index,
        key,
        lines: members.len() as u64,
        cells,
    }
}

/// The different keys, ascending. The empty set has its one key also over no records.
fn keys_of(rt: &impl Abort, alloc: Global, set: &[usize], good: &[Record]) -> Vec<Vec<Value>> {
    let mut keys = Vec::new(alloc);
    if set.is_empty() {
        keys.push(Vec::new(alloc)).expect(rt, "memory");
    }
    for line in good {
        let key = key_of(rt, alloc, set, line);
        if !keys.contains(&key) {
            keys.push(key).expect(rt, "memory");
        }
    }
    keys.sort().expect(rt, "memory");
    keys
}

/// The values of a record in the columns of a set.
fn key_of(rt: &impl Abort, alloc: Global, set: &[usize], line: &Record) -> Vec<Value> {
    let mut key = Vec::new(alloc);
    for place in set {
        let value = line.values().get(*place).expect(rt, "a column");
        let value = value.clone().expect(rt, "memory");
        key.push(value).expect(rt, "memory");
    }
    key
}

/// The records that have a key.
fn members_of<'a>(
    rt: &impl Abort,
    alloc: Global,
    set: &[usize],
    key: &[Value],
    good: &'a [Record],
) -> Vec<&'a Record> {
    let mut members = Vec::new(alloc);
    for line in good {
        if key_of(rt, alloc, set, line).as_slice() == key {
            members.push(line).expect(rt, "memory");
        }
    }
    members
}

fn cells_of(rt: &impl Abort, alloc: Global, plan: &Plan, members: &[&Record]) -> Vec<Cell> {
    let mut cells = Vec::new(alloc);
    for place in 0..plan.functions() {
        let function = plan.set_functions().get(place).expect(rt, "a set function");
        let kept = kept_by_filter(rt, alloc, plan, place, members);
        let cell = cell_of(rt, alloc, function.function, kept.as_slice());
        cells.push(cell).expect(rt, "memory");
    }
    cells
}

/// The records that the FILTER of the set function at a place keeps.
fn kept_by_filter<'a>(
    rt: &impl Abort,
    alloc: Global,
    plan: &Plan,
    place: usize,
    members: &[&'a Record],
) -> Vec<&'a Record>
    requires { place < length (functions_of plan.now.fields plan.now.query) }
{
    let mut kept = Vec::new(alloc);
    for record in members {
        if !plan.schema().fits(record) {
            panic!(rt; "a record that does not fit");
        }
        if filter_holds(plan, place, record).is(Truth::True) {
            kept.push(*record).expect(rt, "memory");
        }
    }
    kept
}

/// The value of a set function over records.
pub fn cell_of(
    rt: &impl Abort,
    alloc: Global,
    function: ColumnFunction,
    members: &[&Record],
) -> Cell {
    match function {
        ColumnFunction::CountRows => count(members.len()),
        ColumnFunction::Count(place) => count(present_values(rt, alloc, place, members).len()),
        ColumnFunction::CountDistinct(place) => {
            let values = present_values(rt, alloc, place, members);
            count(different_values(rt, alloc, values).len())
        }
        ColumnFunction::Sum(place) => sum(rt, present_values(rt, alloc, place, members).as_slice()),
        ColumnFunction::Min(place) => least(
            rt,
            present_values(rt, alloc, place, members).as_slice(),
        ),
        ColumnFunction::Max(place) => greatest(
            rt,
            present_values(rt, alloc, place, members).as_slice(),
        ),
        ColumnFunction::Avg(place) => average(
            rt,
            present_values(rt, alloc, place, members).as_slice(),
        ),
    }
}

/// The values in a column that are not NULL.
fn present_values(rt: &impl Abort, alloc: Global, place: usize, members: &[&Record]) -> Vec<Value> {
    let mut values = Vec::new(alloc);
    for line in members {
        match line.values().get(place).expect(rt, "a column") {
            Value::Null => {}
            value => {
                let value = value.clone().expect(rt, "memory");
                values.push(value).expect(rt, "memory");
            }
        }
    }
    values
}

/// The values, each once.
fn different_values(rt: &impl Abort, alloc: Global, values: Vec<Value>) -> Vec<Value> {
    let mut different = Vec::new(alloc);
    for value in values {
        if !different.contains(&value) {
            different.push(value).expect(rt, "memory");
        }
    }
    different
}

fn count(number: usize) -> Cell {
    Cell::Plain(Value::Int(number as i128))
}

fn sum(rt: &impl Abort, values: &[Value]) -> Cell {
    if values.is_empty() {
        return Cell::Plain(Value::Null);
    }
    Cell::Plain(Value::Int(total(rt, values)))
}

fn average(rt: &impl Abort, values: &[Value]) -> Cell {
    if values.is_empty() {
        return Cell::Plain(Value::Null);
    }
    Cell::Ratio(total(rt, values), values.len() as u64)
}

/// Whole numbers added up.
fn total(rt: &impl Abort, values: &[Value]) -> i128 {
    let mut total: i128 = 0;
    for value in values {
        let Value::Int(number) = value else {
            panic!(rt; "no whole number");
        };
        total = total.checked_add(*number).expect(rt, "no such sum");
    }
    total
}

/// A value that no other is below, and NULL of none.
fn least(rt: &impl Abort, values: &[Value]) -> Cell {
    for value in values {
        if values.iter().all(|other| other >= value) {
            return Cell::Plain(value.clone().expect(rt, "memory"));
        }
    }
    Cell::Plain(Value::Null)
}

/// A value that no other is above, and NULL of none.
fn greatest(rt: &impl Abort, values: &[Value]) -> Cell {
    for value in values {
        if values.iter().all(|other| other <= value) {
            return Cell::Plain(value.clone().expect(rt, "memory"));
        }
    }
    Cell::Plain(Value::Null)
}
