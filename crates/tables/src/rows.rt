//! The groups of all grouping sets, each beside the index of its set.

ghost use Rattle.std.specs.Prelude.{◌≡◌, ◌++◌, ℕ, IfOk, OnOk, List, map};
ghost use Rattle.semantics.specs.Groups.{Record};
ghost use Rattle.group_tables.specs.GroupSummaries.{group_summary_in};
ghost use Rattle.group_tables.specs.Bags.{SameBag};
ghost use Rattle.group_tables.specs.GroupRows.{row_of, rows_from};
ghost use Rattle.group_tables.specs.Table.{HasFewRecords};
ghost use Rattle.query_resolve.specs.Functions.{indexed_functions};
ghost use Rattle.tables.specs.Inside.Folding.{IsTableOfKept};
ghost use Rattle.tables.specs.Planned.{AreFittingUnder};
ghost use Rattle.tables.specs.Sound.{IsTypedTableUnder};
ghost use Rattle.semantics.specs.ResultRows.{rows_before_having};

use crate::roll::groups_of_sets;
use group_tables::{Executor, Group, Table};
use query_plan::Plan;
use std::alloc::{AllocError, Global};

/// The groups of each grouping set of a plan, each beside the index of its set, by the table of all
/// grouping columns. The executor finishes them.
pub(crate) fn rows_of<E: Executor>(
    alloc: Global,
    executor: &E,
    plan: &Plan,
    finest: Table,
) -> Result<Vec<(usize, Group)>, AllocError>
    requires ready { E.ready executor.now }
    requires few { HasFewRecords (indexed_functions plan.now.fields plan.now.query) finest }
    ensures rows { IfOk result (λ rows. (records : List Record) → IsTableOfKept plan.now finest records
        → SameBag (map row_of rows.items) (rows_before_having plan.now.fields plan.now.query records)) }
    ensures fit { IfOk result (λ rows. IsTypedTableUnder plan.now finest
        → AreFittingUnder plan.now (map row_of rows.items)) }
{
    let groups = groups_of_sets(
        alloc,
        executor,
        plan.grouping(),
        plan.sets(),
        plan.set_functions(),
        finest,
    )?;
    flatten_groups(alloc, groups)
}

/// The groups of all sets, one set after the other.
fn flatten_groups(alloc: Global, groups: Vec<Vec<Group>>) -> Result<Vec<(usize, Group)>, AllocError>
    ensures { IfOk result (λ rows. map row_of rows.items ≡ rows_from 0 groups.items) }
{
    let mut rows = Vec::with_capacity(alloc, count_of(groups.as_slice()))?;
    for (index, of_set) in groups.into_iter().enumerate() {
        put_groups(&mut rows, index, of_set)?;
    }
    Ok(rows)
}

/// How many groups the sets have together.
fn count_of(groups: &[Vec<Group>]) -> usize {
    let mut count: usize = 0;
    for of_set in groups {
        count = count.saturating_add(of_set.len());
    }
    count
}

/// Puts the groups of one set to those of the sets before.
fn put_groups(
    rows: &mut Vec<(usize, Group)>,
    index: usize,
    groups: Vec<Group>,
) -> Result<(), AllocError>
    ensures { OnOk result (map row_of rows.new.items ≡ map row_of rows.old.items
        ++ map (λ group. (index, group_summary_in group)) groups.items) }
{
    for group in groups {
        rows.push((index, group))?;
    }
    Ok(())
}
