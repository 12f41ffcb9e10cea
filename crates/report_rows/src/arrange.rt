//! The rows of a report in their order.

ghost use Rattle.std.specs.Prelude.{◌≡◌, ◌<◌, All, IfOk, length, map};
ghost use Rattle.group_tables.specs.GroupRows.{row_of};
ghost use Rattle.group_tables.specs.Fitting.{AreFitting};
ghost use Rattle.report_rows.specs.Planned.{HasSetUnder};
ghost use Rattle.semantics.specs.Order.{sorted_rows, report_values};
ghost use Rattle.report_rows.specs.Shown.{cells_of};
ghost use Rattle.report_rows.specs.Sources.{cells_at};

use crate::cells::cell_from;
use crate::having::rows_having_true;
use crate::order::put_in_order;
use crate::row::ReportRow;
use crate::source::{ValueSource, sources_at, sources_by_set};
use crate::view::PlanView;
use group_tables::{Executor, Group, Serial};
use std::alloc::{AllocError, Global};

/// The rows of a report on groups, each of which stands beside the index of its grouping set. They
/// are those for which the predicate of HAVING is True, and all where HAVING is not written
/// (ISO/IEC 9075-2, `<having clause>`), by the keys of ORDER BY (`<sort specification list>`), then
/// by the index of the grouping set, and in one set by the grouping columns in the order in which
/// GROUP BY first names them, ascending and with NULL last.
///
/// The groups fit the plan: the index of each is that of a grouping set, its key has a value for
/// each column of the set, it has a cell for each set function, each value and cell is of its type,
/// and no index and key stand twice together.
///
/// Example: for `SELECT d, COUNT(*) AS n FROM lines GROUP BY d`, and the groups of records whose
/// `d` are `'y'`, `'x'` and `'x'`, it answers the rows `'x'`, 2 and `'y'`, 1.
///
/// # Errors
///
/// `AllocError` where there is no memory for the rows.
pub fn arranged_rows(
    alloc: Global,
    groups: &[(usize, Group)],
    plan: &PlanView<'_>,
) -> Result<Vec<ReportRow>, AllocError>
    requires { AreFitting plan.now.fields plan.now.query (map row_of groups.now) }
    ensures cells { IfOk result (λ rows. map cells_of rows.items
        ≡ report_values plan.now.fields plan.now.query (map row_of groups.now)) }
    ensures wide { IfOk result (λ rows.
        All (λ row. length row.cells.items ≡ length plan.now.query.items) rows.items) }
{
    let shown = shown_groups(&Serial, alloc, groups, plan)?;
    let sources = sources_by_set(alloc, plan)?;
    let mut rows = Vec::with_capacity(alloc, shown.len())?;
    for group in shown {
        rows.push(row_for(alloc, &sources, group)?)?;
    }
    Ok(rows)
}

/// The groups that a report shows, in the order of its rows, each beside the index of its grouping
/// set. The executor puts them in order.
///
/// The groups fit the plan, as `arranged_rows` asks for.
///
/// Example: it answers the groups of which `arranged_rows` makes rows, in the same order.
///
/// # Errors
///
/// `AllocError` where there is no memory for the list.
pub fn shown_groups<'a, E: Executor>(
    executor: &E,
    alloc: Global,
    groups: &'a [(usize, Group)],
    plan: &PlanView<'_>,
) -> Result<Vec<&'a (usize, Group)>, AllocError>
    requires ready { E.ready executor.now }
    requires fit { AreFitting plan.now.fields plan.now.query (map row_of groups.now) }
    ensures shown { IfOk result (λ v. map (λ r. row_of r.now) v.items
        ≡ sorted_rows plan.now.fields plan.now.query (map row_of groups.now)) }
    ensures sets { IfOk result (λ v. All (λ r. HasSetUnder plan.now (row_of r.now)) v.items) }
{
    let unordered = rows_having_true(alloc, plan, groups)?;
    put_in_order(executor, alloc, plan, unordered)
}

/// The row of a group, which stands beside the index of its grouping set, from where the rows of
/// each set have what they show.
fn row_for(
    alloc: Global,
    sources: &[Vec<ValueSource>],
    found: &(usize, Group),
) -> Result<ReportRow, AllocError>
    requires { (row_of found.now).0 < length sources.now }
    ensures { IfOk result (λ row. cells_of row ≡ cells_at sources.now (row_of found.now)) }
{
    let (index, group) = found;
    let set_sources = sources_at(sources, *index);
    let mut cells = Vec::with_capacity(alloc, set_sources.len())?;
    for source in set_sources {
        cells.push(cell_from(source, group)?)?;
    }
    Ok(ReportRow { cells })
}
