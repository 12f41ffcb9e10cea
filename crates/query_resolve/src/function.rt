//! Set functions over columns by their places.

ghost use Rattle.std.specs.Prelude.{◌≡◌};
ghost use Rattle.values.specs.Schema.{fields_of};
ghost use Rattle.semantics.specs.Names.{column_function};

use crate::columns::place_of;
use semantics::{Aggregate, ColumnFunction};
use values::Column;

/// A set function of a plan, ISO/IEC 9075-2 `<aggregate function>`: with the index of its FILTER
/// among the different filters of the query, from 0, where it has one.
///
/// Example: of `SELECT COUNT(*), SUM(q) FILTER (WHERE b) FROM lines` under the columns
/// `q:int,b:bool` the first has the function `CountRows` and the filter `None`, the second `Sum(0)`
/// and `Some(0)`.
#[derive(Clone, Copy, Debug, PartialEq, Eq)]
pub struct FilteredFunction {
    /// The function, with the place of its column.
    pub function: ColumnFunction,
    /// The index of its FILTER; without FILTER it goes over all records of a group.
    pub filter: Option<usize>,
}

/// A set function with the place of its column, where the schema has that column; `None` where it
/// has not. The type of the column is not asked.
///
/// Example: under the columns `shop:text,cents:int` `MIN(cents)` is `Min(1)`, `MIN(day)` is `None`,
/// and `COUNT(*)` is `CountRows`.
pub fn column_function(columns: &[Column], aggregate: &Aggregate) -> Option<ColumnFunction>
    ensures { result ≡ column_function (fields_of columns.now) aggregate.now }
{
    match aggregate {
        Aggregate::CountRows => Some(ColumnFunction::CountRows),
        Aggregate::Count(x) => place_of(columns, x.as_str()).map(ColumnFunction::Count),
        Aggregate::CountDistinct(x) => {
            place_of(columns, x.as_str()).map(ColumnFunction::CountDistinct)
        }
        Aggregate::Sum(x) => place_of(columns, x.as_str()).map(ColumnFunction::Sum),
        Aggregate::Min(x) => place_of(columns, x.as_str()).map(ColumnFunction::Min),
        Aggregate::Max(x) => place_of(columns, x.as_str()).map(ColumnFunction::Max),
        Aggregate::Avg(x) => place_of(columns, x.as_str()).map(ColumnFunction::Avg),
    }
}
