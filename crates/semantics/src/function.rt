//! Set functions over columns by their places.

/// A set function, apart from its FILTER, with the place of its column in the schema, from 0,
/// ISO/IEC 9075-2 `<set function specification>`.
///
/// Example: under the columns `shop:text,cents:int` `SUM(cents)` is `Sum(1)`.
#[derive(Clone, Copy, Debug, PartialEq, Eq)]
pub enum ColumnFunction {
    /// `COUNT(*)`: the number of records.
    CountRows,
    /// `COUNT(x)`: the number of records in which x is not NULL.
    Count(usize),
    /// `COUNT(DISTINCT x)`: the number of different values of x that are not NULL.
    CountDistinct(usize),
    /// `SUM(x)`: the exact sum of whole numbers, in 128 bits; NULL where each is NULL.
    Sum(usize),
    /// `MIN(x)`: the least whole number or text; NULL where each is NULL.
    Min(usize),
    /// `MAX(x)`: the greatest whole number or text; NULL where each is NULL.
    Max(usize),
    /// `AVG(x)`: the sum of whole numbers and their number; NULL where each is NULL.
    Avg(usize),
}

impl ColumnFunction {
    ghost use Rattle.std.specs.Prelude.{◌≡◌, ◌↔◌, IsTrue};

    /// Whether the function, DISTINCT and the column are the same.
    ///
    /// Example: `Sum(1)` is the same as `Sum(1)`, and not as `Sum(0)` or `Min(1)`; `Count(1)` is
    /// not the same as `CountDistinct(1)`.
    pub fn is_same(self, other: ColumnFunction) -> bool
        ensures same { IsTrue result ↔ (self ≡ other) }
    {
        self == other
    }
}
