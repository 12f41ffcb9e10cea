//! The elements of GROUP BY.

use semantics::Text;

/// An element of GROUP BY, ISO/IEC 9075-2 `<grouping element>`.
///
/// Example: `ROLLUP (a, (b, c))` is `Rollup` of two units, and stands for the grouping sets
/// `(a, b, c)`, `(a)` and `()`.
#[derive(Drop)]
pub enum GroupingElement {
    /// `x`, `(x, y)` or `()`: one grouping set, ISO/IEC 9075-2 `<ordinary grouping set>` or
    /// `<empty grouping set>`. A single name with or without brackets is the same.
    Set(Vec<Text>),
    /// `ROLLUP (x, (y, z))`, by its units of one name or more, ISO/IEC 9075-2 `<rollup list>`: all
    /// of its units, all but the last, and so on down to none.
    Rollup(Vec<Vec<Text>>),
    /// `CUBE (x, (y, z))`, by its units of one name or more, ISO/IEC 9075-2 `<cube list>`: every
    /// choice of its units.
    Cube(Vec<Vec<Text>>),
    /// `GROUPING SETS (x, ROLLUP (y, z), ())`, ISO/IEC 9075-2 `<grouping sets specification>`: the
    /// grouping sets of its elements, one after the other.
    Sets(Vec<GroupingElement>),
}
