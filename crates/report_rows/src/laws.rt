//! Laws of the order of the rows, with no work to do.

ghost use Rattle.std.specs.Prelude.{List};
ghost use Rattle.semantics.specs.Columns.{Field};
ghost use Rattle.semantics.specs.Syntax.{Query};
ghost use Rattle.semantics.specs.ResultRows.{ResultRow};
ghost use Rattle.group_tables.specs.Fitting.{AreFitting};
ghost use Rattle.report_rows.specs.Laws.{IsBlind, IsTheOrder};

/// A law: of groups that fit a query, the rows in their order are the one list that has each of
/// them as often and ascends.
pub fn order_law()
    ensures { (fields : List Field) (t : Query) (found : List ResultRow) → AreFitting fields t found
        → IsTheOrder fields t found }
{}

/// A law: of groups that fit a query, the rows in their order are the same in whatever order the
/// groups are found.
pub fn arranged_law()
    ensures { (fields : List Field) (t : Query) (found : List ResultRow) → AreFitting fields t found
        → IsBlind fields t found }
{}
