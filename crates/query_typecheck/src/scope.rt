//! Where an expression stands.

use values::Column;

/// The clause in which an expression stands, which says what its names stand for and which
/// functions may stand there. A FILTER is looked at as WHERE is.
///
/// Example: `AVG(q)` may stand in `Clause::Select`, and not in `Clause::Having`.
#[derive(Clone, Copy, PartialEq, Eq)]
pub enum Clause {
    /// WHERE: names are columns; no set function and no GROUPING may stand there.
    Where,
    /// SELECT: names are grouping columns.
    Select,
    /// HAVING: names are grouping columns; AVG may not stand there.
    Having,
    /// ORDER BY: names are grouping columns, once aliases are resolved; AVG may not stand there.
    OrderBy,
}

/// What the names in a clause stand for.
#[derive(Clone, Copy)]
pub(crate) struct ClauseScope<'a> {
    /// The columns of the schema.
    pub(crate) columns: &'a [Column],
    /// The places of the grouping columns.
    pub(crate) grouping: &'a [usize],
    /// The clause.
    pub(crate) clause: Clause,
}
