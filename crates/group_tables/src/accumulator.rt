//! What is kept of the members of a group for one set function.

ghost use Rattle.std.specs.Prelude.{◌≡◌, MatchOption, false, slice_index_or};
ghost use Rattle.values.specs.Datum.{datum_of, data_of};
ghost use Rattle.semantics.specs.Values.{null};
ghost use Rattle.group_tables.specs.Inside.Accumulator.{argument_place, is_marked};
ghost use Rattle.semantics.specs.Aggregates.{is_non_null};
ghost use Rattle.semantics.specs.Groups.{value_at};

use crate::cell::Cell;
use crate::distinct_values::DistinctValues;
use crate::extreme::{is_greater, is_less};
use crate::memory::Memory;
use crate::total::Total;
use query_resolve::{ColumnFunction, FilteredFunction};
use std::alloc::{AllocError, Global};
use values::{State, Value};

/// What is kept of the members of a group for one set function.
#[derive(Drop)]
pub(crate) enum Accumulator {
    /// `COUNT(*)` without FILTER: the number of records is kept beside.
    Rows,
    /// `COUNT(x)`, and `COUNT(*)` with FILTER
    Count(u64),
    /// `COUNT(DISTINCT x)`
    Distinct(DistinctValues),
    /// `SUM(x)`
    Sum(Total),
    /// `MIN(x)`: the least value so far, and NULL of none.
    Min(Value),
    /// `MAX(x)`: the greatest value so far, and NULL of none.
    Max(Value),
    /// `AVG(x)`
    Average(Total),
}

// Each group keeps one for each set function, so that none may be larger than MIN and MAX need it.
const _: () = prove!(size_of::<Accumulator>() <= 48);

impl Accumulator {
    ghost use Rattle.std.specs.Prelude.{[], IfOk, OnOk, OnErr};
    ghost use Rattle.group_tables.specs.Inside.Accumulator.{is_marked, no_state, state_in, with_count, with_member, with_record, with_value, summary, HasRoom, IsUnbounded};
    ghost use Rattle.group_tables.specs.Accumulator.{state_counted, state_over, joint_state};
    ghost use Rattle.semantics.specs.Groups.{value_at};
    ghost use Rattle.values.specs.GroupStates.{state_of};
    ghost use Rattle.group_tables.specs.Inside.Entries.{kept_extreme, kept_state, kept_sum};
    ghost use Rattle.group_tables.specs.Entries.{plain_state};
    ghost use Rattle.group_tables.specs.Cells.{summary_of};

    /// What is kept of no record.
    pub(crate) fn new(function: FilteredFunction) -> Accumulator
        ensures { state_in result ≡ no_state function.filter function.function }
    {
        match function.filter {
            None => Accumulator::without_filter(function.function),
            Some(_) => Accumulator::with_filter(function.function),
        }
    }

    /// What is kept of no record for a set function with FILTER.
    fn with_filter(function: ColumnFunction) -> Accumulator
        ensures { state_in result ≡ state_counted function [] }
    {
        match function {
            ColumnFunction::CountRows => Accumulator::Count(0),
            ColumnFunction::Count(_)
            | ColumnFunction::CountDistinct(_)
            | ColumnFunction::Sum(_)
            | ColumnFunction::Min(_)
            | ColumnFunction::Max(_)
            | ColumnFunction::Avg(_) => Accumulator::without_filter(function),
        }
    }

    /// What is kept of no record for a set function without FILTER.
    fn without_filter(function: ColumnFunction) -> Accumulator
        ensures { state_in result ≡ state_over function [] }
    {
        match function {
            ColumnFunction::CountRows => Accumulator::Rows,
            ColumnFunction::Count(_) => Accumulator::Count(0),
            ColumnFunction::CountDistinct(_) => Accumulator::Distinct(DistinctValues::new()),
            ColumnFunction::Sum(_) => Accumulator::Sum(Total::NONE),
            ColumnFunction::Min(_) => Accumulator::Min(Value::Null),
            ColumnFunction::Max(_) => Accumulator::Max(Value::Null),
            ColumnFunction::Avg(_) => Accumulator::Average(Total::NONE),
        }
    }

    /// What a set function keeps of a state. A state that it does not have is kept as it is.
    pub(crate) fn of_state(
        memory: Memory,
        function: ColumnFunction,
        state: State,
    ) -> Result<Accumulator, AllocError>
        ensures { IfOk result (λ accumulator.
            state_in accumulator ≡ kept_state function (state_of state)) }
    {
        match state {
            State::Rows => Ok(Accumulator::Rows),
            State::Count(count) => Ok(Accumulator::Count(count)),
            State::Sum(sum, count) => Ok(Accumulator::of_sum(function, Total { sum, count })),
            State::Extreme(value) => Ok(Accumulator::of_extreme(function, value)),
            State::Distinct(values) => Ok(Accumulator::Distinct(DistinctValues::of_values(
                memory, values,
            )?)),
        }
    }

    /// What SUM or AVG keeps of a sum.
    fn of_sum(function: ColumnFunction, total: Total) -> Accumulator
        ensures { state_in result ≡ kept_sum function total.sum total.count }
    {
        match function {
            ColumnFunction::Avg(_) => Accumulator::Average(total),
            ColumnFunction::CountRows
            | ColumnFunction::Count(_)
            | ColumnFunction::CountDistinct(_)
            | ColumnFunction::Sum(_)
            | ColumnFunction::Min(_)
            | ColumnFunction::Max(_) => Accumulator::Sum(total),
        }
    }

    /// What MIN or MAX keeps of a value.
    fn of_extreme(function: ColumnFunction, value: Value) -> Accumulator
        ensures { state_in result ≡ kept_extreme function (datum_of value) }
    {
        match function {
            ColumnFunction::Max(_) => Accumulator::Max(value),
            ColumnFunction::CountRows
            | ColumnFunction::Count(_)
            | ColumnFunction::CountDistinct(_)
            | ColumnFunction::Sum(_)
            | ColumnFunction::Min(_)
            | ColumnFunction::Avg(_) => Accumulator::Min(value),
        }
    }

    /// Takes one more record, where the marks say that the FILTER of the function keeps it. After
    /// an error what is kept is of no use.
    pub(crate) fn add(
        &mut self,
        memory: Memory,
        function: FilteredFunction,
        marks: &[bool],
        row: &[Value],
    ) -> Result<(), AllocError>
        requires { HasRoom (with_member (is_marked marks.now function.filter) function.function
            (state_in self.old) (data_of row.now)) }
        ensures added { OnOk result (state_in self.new
            ≡ with_member (is_marked marks.now function.filter) function.function
            (state_in self.old) (data_of row.now)) }
        ensures unbounded { OnErr result (IsUnbounded (state_in self.new)) }
    {
        if !is_marked(marks, function.filter) {
            return Ok(());
        }
        self.add_record(memory, function.function, row)
    }

    /// Takes one more record.
    fn add_record(
        &mut self,
        memory: Memory,
        function: ColumnFunction,
        row: &[Value],
    ) -> Result<(), AllocError>
        requires { HasRoom (with_record function (state_in self.old) (data_of row.now)) }
        ensures added { OnOk result (state_in self.new
            ≡ with_record function (state_in self.old) (data_of row.now)) }
        ensures unbounded { OnErr result (IsUnbounded (state_in self.new)) }
    {
        match argument_place(function) {
            Some(place) => self.add_value_at(memory, row, place),
            None => {
                self.add_count();
                Ok(())
            }
        }
    }

    /// Counts one more record, where the number of records is kept.
    fn add_count(&mut self)
        requires { HasRoom (with_count (state_in self.old)) }
        ensures { state_in self.new ≡ with_count (state_in self.old) }
    {
        match self {
            Accumulator::Count(count) => *count += 1,
            Accumulator::Rows
            | Accumulator::Distinct(_)
            | Accumulator::Sum(_)
            | Accumulator::Min(_)
            | Accumulator::Max(_)
            | Accumulator::Average(_) => {}
        }
    }

    /// Takes the value of a record in the column at a place.
    fn add_value_at(
        &mut self,
        memory: Memory,
        row: &[Value],
        place: usize,
    ) -> Result<(), AllocError>
        requires { HasRoom (with_value (state_in self.old) (value_at place (data_of row.now))) }
        ensures added { OnOk result (state_in self.new
            ≡ with_value (state_in self.old) (value_at place (data_of row.now))) }
        ensures unbounded { OnErr result (IsUnbounded (state_in self.new)) }
    {
        match value_at(row, place) {
            Some(value) => self.add_value(memory, value),
            None => Ok(()),
        }
    }

    /// Takes one more value.
    fn add_value(&mut self, memory: Memory, value: &Value) -> Result<(), AllocError>
        requires { HasRoom (with_value (state_in self.old) (datum_of value.now)) }
        ensures added { OnOk result (state_in self.new
            ≡ with_value (state_in self.old) (datum_of value.now)) }
        ensures unbounded { OnErr result (IsUnbounded (state_in self.new)) }
    {
        match self {
            Accumulator::Rows => {}
            Accumulator::Count(count) => {
                if is_non_null(value) {
                    *count += 1;
                }
            }
            Accumulator::Distinct(values) => values.add(memory, value)?,
            Accumulator::Sum(total) => total.add(value),
            Accumulator::Min(least) => {
                if is_less(value, least) {
                    *least = value.clone()?;
                }
            }
            Accumulator::Max(greatest) => {
                if is_greater(value, greatest) {
                    *greatest = value.clone()?;
                }
            }
            Accumulator::Average(total) => total.add(value),
        }
        Ok(())
    }

    /// Takes what is kept of other records for the same function; for another one nothing is kept.
    /// After an error what is kept is of no use.
    pub(crate) fn absorb(&mut self, memory: Memory, other: Accumulator) -> Result<(), AllocError>
        requires { HasRoom (joint_state (state_in self.old) (state_in other)) }
        ensures joined { OnOk result (state_in self.new
            ≡ joint_state (state_in self.old) (state_in other)) }
        ensures unbounded { OnErr result (IsUnbounded (state_in self.new)) }
    {
        match (&mut *self, other) {
            (Accumulator::Count(count), Accumulator::Count(more)) => *count += more,
            (Accumulator::Distinct(values), Accumulator::Distinct(more)) => {
                values.absorb(memory, more)?;
            }
            (Accumulator::Sum(total), Accumulator::Sum(more)) => total.absorb(more),
            (Accumulator::Min(least), Accumulator::Min(value)) => {
                if is_less(&value, least) {
                    *least = value;
                }
            }
            (Accumulator::Max(greatest), Accumulator::Max(value)) => {
                if is_greater(&value, greatest) {
                    *greatest = value;
                }
            }
            (Accumulator::Average(total), Accumulator::Average(more)) => total.absorb(more),
            (
                Accumulator::Rows
                | Accumulator::Count(_)
                | Accumulator::Distinct(_)
                | Accumulator::Sum(_)
                | Accumulator::Min(_)
                | Accumulator::Max(_)
                | Accumulator::Average(_),
                _,
            ) => *self = Accumulator::Rows,
        }
        Ok(())
    }

    /// Takes copies of what is kept of other records for the same function. After an error what is
    /// kept is of no use.
    pub(crate) fn absorb_copies(
        &mut self,
        memory: Memory,
        other: &Accumulator,
    ) -> Result<(), AllocError>
        requires { HasRoom (joint_state (state_in self.old) (state_in other.now)) }
        ensures joined { OnOk result (state_in self.new
            ≡ joint_state (state_in self.old) (state_in other.now)) }
        ensures unbounded { OnErr result (IsUnbounded (state_in self.new)) }
    {
        match (&mut *self, other) {
            (Accumulator::Count(count), Accumulator::Count(more)) => *count += *more,
            (Accumulator::Distinct(values), Accumulator::Distinct(more)) => {
                values.absorb_copies(memory, more)?;
            }
            (Accumulator::Sum(total), Accumulator::Sum(more)) => total.absorb(*more),
            (Accumulator::Min(least), Accumulator::Min(more)) => {
                if is_less(more, least) {
                    *least = more.clone()?;
                }
            }
            (Accumulator::Max(greatest), Accumulator::Max(more)) => {
                if is_greater(more, greatest) {
                    *greatest = more.clone()?;
                }
            }
            (Accumulator::Average(total), Accumulator::Average(more)) => total.absorb(*more),
            (
                Accumulator::Rows
                | Accumulator::Count(_)
                | Accumulator::Distinct(_)
                | Accumulator::Sum(_)
                | Accumulator::Min(_)
                | Accumulator::Max(_)
                | Accumulator::Average(_),
                _,
            ) => *self = Accumulator::Rows,
        }
        Ok(())
    }

    /// What is kept, as a plain value.
    pub(crate) fn into_state(self, alloc: Global) -> Result<State, AllocError>
        ensures { IfOk result (λ state. state_of state ≡ plain_state (state_in self)) }
    {
        match self {
            Accumulator::Rows => Ok(State::Rows),
            Accumulator::Count(count) => Ok(State::Count(count)),
            Accumulator::Distinct(values) => Ok(State::Distinct(values.into_values(alloc)?)),
            Accumulator::Sum(total) | Accumulator::Average(total) => {
                Ok(State::Sum(total.sum, total.count))
            }
            Accumulator::Min(value) | Accumulator::Max(value) => Ok(State::Extreme(value)),
        }
    }

    /// The value of the function over a group of so many records.
    pub(crate) fn finish(self, lines: u64) -> Cell
        ensures { summary_of result ≡ summary lines (state_in self) }
    {
        match self {
            Accumulator::Rows => Cell::Plain(Value::Int(i128::from(lines))),
            Accumulator::Count(count) => Cell::Plain(Value::Int(i128::from(count))),
            Accumulator::Distinct(values) => Cell::Plain(Value::Int(i128::from(values.count()))),
            Accumulator::Sum(total) if total.count > 0 => Cell::Plain(Value::Int(total.sum)),
            Accumulator::Min(value) => Cell::Plain(value),
            Accumulator::Max(value) => Cell::Plain(value),
            Accumulator::Average(total) if total.count > 0 => Cell::Ratio(total.sum, total.count),
            Accumulator::Sum(_) | Accumulator::Average(_) => Cell::Plain(Value::Null),
        }
    }
}

/// Whether a value is not NULL.
pub(crate) fn is_non_null(value: &Value) -> bool
    ensures { result ≡ is_non_null (datum_of value.now) }
{
    match value {
        Value::Null => false,
        Value::Bool(_) | Value::Int(_) | Value::Text(_) => true,
    }
}

/// The place of the column that a set function takes; `COUNT(*)` takes none.
fn argument_place(function: ColumnFunction) -> Option<usize>
    ensures { result ≡ argument_place function }
{
    match function {
        ColumnFunction::CountRows => None,
        ColumnFunction::Count(place)
        | ColumnFunction::CountDistinct(place)
        | ColumnFunction::Sum(place)
        | ColumnFunction::Min(place)
        | ColumnFunction::Max(place)
        | ColumnFunction::Avg(place) => Some(place),
    }
}

/// The value of a record in the column at a place, where there is such a column.
fn value_at(row: &[Value], place: usize) -> Option<&Value>
    ensures { MatchOption result (value_at place (data_of row.now) ≡ null) (λ value.
        datum_of value.now ≡ value_at place (data_of row.now)) }
{
    row.get(place)
}

/// Whether the filter with this index keeps a record, by the marks of all filters; without FILTER
/// each is kept.
fn is_marked(marks: &[bool], filter: Option<usize>) -> bool
    ensures { result ≡ is_marked marks.now filter }
{
    match filter {
        Some(index) => mark_at(marks, index),
        None => true,
    }
}

/// The mark with an index, and false past the last one.
fn mark_at(marks: &[bool], index: usize) -> bool
    ensures { result ≡ slice_index_or marks.now index false }
{
    match marks.get(index) {
        Some(mark) => *mark,
        None => false,
    }
}
