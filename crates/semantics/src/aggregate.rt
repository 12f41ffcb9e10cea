//! Set functions.

use crate::text::Text;

/// A set function apart from its FILTER, ISO/IEC 9075-2 `<set function specification>`.
///
/// Example: `SUM(cents)` is `Sum` of the name `cents`.
#[derive(PartialEq, Drop)]
pub enum Aggregate {
    /// `COUNT(*)`: the number of records.
    CountRows,
    /// `COUNT(x)`: the number of records in which x is not NULL.
    Count(Text),
    /// `COUNT(DISTINCT x)`: the number of different values of x that are not NULL.
    CountDistinct(Text),
    /// `SUM(x)`: the exact sum of x, NULL where each is NULL.
    Sum(Text),
    /// `MIN(x)`: the least x, NULL where each is NULL.
    Min(Text),
    /// `MAX(x)`: the greatest x, NULL where each is NULL.
    Max(Text),
    /// `AVG(x)`: the sum of x and how many are not NULL, as a pair; NULL where each is NULL.
    Avg(Text),
}
