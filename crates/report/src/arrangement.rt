//! The rows of a report on the groups of an input.

ghost use Rattle.std.specs.Prelude.{◌≡◌, All, IfOk, length, map};
ghost use Rattle.tables.specs.Planned.{AreFittingUnder};
ghost use Rattle.semantics.specs.Order.{report_values};
ghost use Rattle.report_rows.specs.Shown.{cells_of};

use query_plan::Plan;
use report_rows::{PlanView, ReportRow, arranged_rows};
use std::alloc::{AllocError, Global};
use tables::Groups;

/// The rows of a report: one for each group for which the predicate of HAVING is True, and for each
/// group where HAVING is not written (ISO/IEC 9075-2, `<having clause>`). They stand by the keys of
/// ORDER BY, from the first (ISO/IEC 9075-2, `<sort specification list>`), then in the order of the
/// index of the grouping set, and in one set by the grouping columns in the order in which GROUP BY
/// first names them, ascending and with NULL last. A grouping column that is not in the set of the
/// row is NULL.
///
/// The groups fit the plan, as those do that `Partial::finish` gives under it: the index of each is
/// that of a grouping set, its key has a value for each column of the set, it has a cell for each
/// set function, each value and cell is of its type, and no index and key stand twice together.
///
/// Example: `SELECT d, COUNT(*) AS n FROM lines GROUP BY ROLLUP (d) HAVING GROUPING(d) = 1 OR
/// COUNT(*) > 1`, over records whose `d` are `'x'`, `'x'` and `'y'`, has the rows `'x'`, 2 and
/// NULL, 3.
///
/// # Errors
///
/// `AllocError` where there is no memory for the rows.
pub fn arrange(alloc: Global, groups: &Groups, plan: &Plan) -> Result<Vec<ReportRow>, AllocError>
    requires { AreFittingUnder plan.now groups.now.found }
    ensures cells { IfOk result (λ rows.
        map cells_of rows.items ≡ report_values plan.now.fields plan.now.query groups.now.found) }
    ensures wide { IfOk result (λ rows.
        All (λ row. length row.cells.items ≡ length plan.now.query.items) rows.items) }
{
    let view = PlanView::new(alloc, plan)?;
    arranged_rows(alloc, groups.rows(), &view)
}
