//! The rows of which HAVING is True.

ghost use Rattle.std.specs.Prelude.{◌≡◌, IfOk, map};
ghost use Rattle.group_tables.specs.GroupRows.{row_of};
ghost use Rattle.group_tables.specs.Fitting.{AreFitting};
ghost use Rattle.semantics.specs.Rows.{rows_having_true};
ghost use Rattle.report_rows.specs.Inside.Having.{AreHaving};

use crate::cells::put_row;
use crate::row_scope::RowScope;
use crate::view::PlanView;
use group_tables::Group;
use query_eval::{Condition, bind};
use std::alloc::{AllocError, Global};
use values::Truth;

/// The groups of whose rows the predicate of HAVING is True. Without HAVING they are all groups.
pub(crate) fn rows_having_true<'a>(
    alloc: Global,
    plan: &PlanView<'_>,
    rows: &'a [(usize, Group)],
) -> Result<Vec<&'a (usize, Group)>, AllocError>
    requires { AreFitting plan.now.fields plan.now.query (map row_of rows.now) }
    ensures { IfOk result (λ found. map (λ r. row_of r.now) found.items
        ≡ rows_having_true plan.now.fields plan.now.query (map row_of rows.now)) }
{
    let Some(conditions) = having_conditions(alloc, plan)? else {
        return rows.iter().collect(alloc);
    };
    let mut values = Vec::new(alloc);
    let mut true_rows = Vec::new(alloc);
    for found in rows {
        let (index, group) = found;
        put_row(group, &mut values)?;
        if conditions[*index].truth(&values).is(Truth::True) {
            true_rows.push(found)?;
        }
    }
    Ok(true_rows)
}

/// The condition of HAVING for the rows of each grouping set of the plan, in the order of the sets;
/// none where HAVING is not written.
fn having_conditions(
    alloc: Global,
    plan: &PlanView<'_>,
) -> Result<Option<Vec<Condition>>, AllocError>
    ensures { IfOk result (AreHaving plan.now) }
{
    let query = plan.query();
    let Some(having) = &query.tree().having_condition else {
        return Ok(None);
    };
    let mut conditions = Vec::with_capacity(alloc, plan.sets().len())?;
    for set in plan.sets() {
        conditions.push(bind(alloc, &RowScope { plan, set }, having)?)?;
    }
    Ok(Some(conditions))
}
