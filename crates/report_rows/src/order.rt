//! The order of rows.

ghost use Rattle.std.specs.Prelude.{◌≡◌, ◌<◌, ◌++◌, IfOk, OnOk, map};
ghost use Rattle.std.specs.List.{AllByRecursion, flat_map};
ghost use Rattle.std.specs.List.Sorted.{IsPermutation, IsSortedBy};
ghost use Rattle.std.specs.Ordering.{is_lt};
ghost use Rattle.group_tables.specs.GroupRows.{row_of};
ghost use Rattle.group_tables.specs.Fitting.{AreFitting};
ghost use Rattle.semantics.specs.Order.{row_order};
ghost use Rattle.semantics.specs.Lists.{sorted_by};
ghost use Rattle.report_rows.specs.Parts.{AreMade, items_of};
ghost use Rattle.report_rows.specs.Inside.SortEntries.{AreEntriesOf, AreEntriesOfParts, IsCodableRow, by_code, coded_form, entry_at, entry_form};

use crate::coded_key::CodedKey;
use crate::keys::row_key;
use crate::parts::part_len;
use crate::sort_entry::SortEntry;
use crate::telling_keys::coded_keys;
use crate::view::PlanView;
use group_tables::{Executor, Group, Operation};
use std::alloc::{AllocError, Global};
use std::marker::Sync;
use std::thread;
use std::thread::Threads;

/// Groups that are to be put in the order of their rows.
struct PutInOrder<'a, 'p, 'v> {
    alloc: Global,
    plan: &'p PlanView<'v>,
    rows: Vec<&'a (usize, Group)>,
}

impl<'a, 'p, 'v> Operation for PutInOrder<'a, 'p, 'v> {
    ghost use Rattle.std.specs.Prelude.{◌≡◌, IfOk, map};
    ghost use Rattle.group_tables.specs.GroupRows.{row_of};
    ghost use Rattle.group_tables.specs.Fitting.{AreFitting};
    ghost use Rattle.semantics.specs.Order.{row_order};
    ghost use Rattle.semantics.specs.Lists.{sorted_by};

    type Output = Result<Vec<&'a (usize, Group)>, AllocError>;

    ghost can_run = { λ t. AreFitting t.plan.now.fields t.plan.now.query
        (map (λ r. row_of r.now) t.rows.items) };

    ghost can_give = { λ t result. IfOk result (λ v. map (λ r. row_of r.now) v.items
        ≡ sorted_by (row_order t.plan.now.fields t.plan.now.query)
        (map (λ r. row_of r.now) t.rows.items)) };

    fn run_alone(self) -> Result<Vec<&'a (usize, Group)>, AllocError> {
        let PutInOrder { alloc, plan, rows } = self;
        in_order(alloc, plan, rows)
    }

    fn run_among<H: Threads + Sync>(
        self,
        rt: &H,
        hands: usize,
    ) -> Result<Vec<&'a (usize, Group)>, AllocError> {
        let PutInOrder { alloc, plan, rows } = self;
        let size = part_len(rows.len(), hands);
        in_order_among(rt, alloc, plan, rows, size)
    }
}

/// The groups in the order of their rows, in which the executor puts them: by the keys of ORDER BY,
/// where there are some, and else by their sets and keys.
pub(crate) fn put_in_order<'a, E: Executor>(
    executor: &E,
    alloc: Global,
    plan: &PlanView<'_>,
    rows: Vec<&'a (usize, Group)>,
) -> Result<Vec<&'a (usize, Group)>, AllocError>
    requires ready { E.ready executor.now }
    requires fit { AreFitting plan.now.fields plan.now.query (map (λ r. row_of r.now) rows.items) }
    ensures { IfOk result (λ v. map (λ r. row_of r.now) v.items
        ≡ sorted_by (row_order plan.now.fields plan.now.query)
        (map (λ r. row_of r.now) rows.entry.items)) }
{
    executor.perform(PutInOrder { alloc, plan, rows })
}

/// The same, by the calling thread alone.
fn in_order<'a>(
    alloc: Global,
    plan: &PlanView<'_>,
    rows: Vec<&'a (usize, Group)>,
) -> Result<Vec<&'a (usize, Group)>, AllocError>
    requires { AreFitting plan.now.fields plan.now.query (map (λ r. row_of r.now) rows.items) }
    ensures { IfOk result (λ v. map (λ r. row_of r.now) v.items
        ≡ sorted_by (row_order plan.now.fields plan.now.query)
        (map (λ r. row_of r.now) rows.entry.items)) }
{
    let keys = coded_keys(alloc, plan)?;
    let entries = make_entries(alloc, keys.as_slice(), rows.as_slice())?;
    let ordered = sort_entries(entries);
    groups_in(alloc, ordered)
}

/// The same. Where there are more groups than one part has, they are put in order in parts of so
/// many, each by a thread of its own where one can be started, and the parts then together.
fn in_order_among<'a, H: Threads + Sync>(
    rt: &H,
    alloc: Global,
    plan: &PlanView<'_>,
    rows: Vec<&'a (usize, Group)>,
    size: usize,
) -> Result<Vec<&'a (usize, Group)>, AllocError>
    requires fit { AreFitting plan.now.fields plan.now.query (map (λ r. row_of r.now) rows.items) }
    requires size { 0 < size }
    ensures { IfOk result (λ v. map (λ r. row_of r.now) v.items
        ≡ sorted_by (row_order plan.now.fields plan.now.query)
        (map (λ r. row_of r.now) rows.entry.items)) }
{
    if rows.len() <= size {
        return in_order(alloc, plan, rows);
    }
    let keys = coded_keys(alloc, plan)?;
    let parts = parts_in_order(rt, alloc, keys.as_slice(), rows.as_slice(), size)?;
    let entries = rows_of_parts(alloc, parts.as_slice(), rows.len())?;
    let ordered = merge_entries(entries)?;
    groups_at(alloc, ordered)
}

/// The groups in parts of so many, each beside what their rows are put in order by, with these keys
/// of ORDER BY, and each part in that order.
fn parts_in_order<'a, H: Threads + Sync>(
    rt: &H,
    alloc: Global,
    keys: &[CodedKey<'_>],
    rows: &[&'a (usize, Group)],
    size: usize,
) -> Result<Vec<Result<Vec<SortEntry<'a>>, AllocError>>, AllocError>
    requires { 0 < size }
    ensures { IfOk result (λ parts. AreEntriesOfParts (map coded_form keys.now) size
        (map (λ r. row_of r.now) rows.now) parts.items) }
{
    let parts = thread::map_chunks(
        rt,
        alloc,
        rows,
        size,
        &|_, part: &[&(usize, Group)]| -> Result<Vec<SortEntry<'_>>, AllocError>
            ensures { IfOk result (λ v. AreEntriesOf (map coded_form keys.entry.now)
                (map (λ r. row_of r.now) part.entry.now) v.items) }
        { part_in_order(alloc, keys, part) },
    )?;
    Ok(parts)
}

/// The groups of one part beside what their rows are put in order by, with these keys of ORDER BY,
/// in that order.
fn part_in_order<'a>(
    alloc: Global,
    keys: &[CodedKey<'_>],
    rows: &[&'a (usize, Group)],
) -> Result<Vec<SortEntry<'a>>, AllocError>
    ensures { IfOk result (λ v. AreEntriesOf (map coded_form keys.now)
        (map (λ r. row_of r.now) rows.now) v.items) }
{
    let entries = make_entries(alloc, keys, rows)?;
    Ok(sort_entries(entries))
}

/// The groups beside what their rows are put in order by, with these keys of ORDER BY. Each code is
/// written into the same memory.
fn make_entries<'a>(
    alloc: Global,
    keys: &[CodedKey<'_>],
    rows: &[&'a (usize, Group)],
) -> Result<Vec<SortEntry<'a>>, AllocError>
    ensures entries { IfOk result (λ v. map entry_form v.items
        ≡ map (entry_at (map coded_form keys.now)) (map (λ r. row_of r.now) rows.now)) }
    ensures codable { OnOk result
        (AllByRecursion (IsCodableRow (map coded_form keys.now))
        (map (λ r. row_of r.now) rows.now)) }
{
    let mut code = Vec::new(alloc);
    let mut entries = Vec::with_capacity(alloc, rows.len())?;
    for found in rows {
        let key = row_key(alloc, &mut code, keys, found)?;
        entries.push(SortEntry { key, found: *found })?;
    }
    Ok(entries)
}

/// The groups in the order of what stands beside them, in which no two are equal.
fn sort_entries<'a>(entries: Vec<SortEntry<'a>>) -> Vec<SortEntry<'a>>
    ensures permutation { IsPermutation entries.entry.items result.items }
    ensures sorted { IsSortedBy
        (λ a b. is_lt (by_code (entry_form a) (entry_form b))) result.items }
{
    let mut entries = entries;
    entries.sort_unstable_by(|a, b| a.key.compare(&b.key));
    entries
}

/// The groups alone, in the order in which they stand.
fn groups_in<'a>(
    alloc: Global,
    entries: Vec<SortEntry<'a>>,
) -> Result<Vec<&'a (usize, Group)>, AllocError>
    ensures { IfOk result (λ v.
        map (λ r. row_of r.now) v.items ≡ map (λ r. (entry_form r).1) entries.entry.items) }
{
    let mut groups = Vec::with_capacity(alloc, entries.len())?;
    for row in entries {
        groups.push(row.found)?;
    }
    Ok(groups)
}

/// The rows of all parts, one part after the other, where each of them was made. There may be as
/// many as `count`; for more the list gets longer.
fn rows_of_parts<'r, 'a>(
    alloc: Global,
    parts: &'r [Result<Vec<SortEntry<'a>>, AllocError>],
    count: usize,
) -> Result<Vec<&'r SortEntry<'a>>, AllocError>
    ensures made { OnOk result (AreMade parts.entry.now) }
    ensures rows { IfOk result (λ rows.
        map (λ r. r.now) rows.items ≡ flat_map items_of parts.entry.now) }
{
    let mut rows = Vec::with_capacity(alloc, count)?;
    for part in parts {
        match part {
            Ok(part) => put_rows(&mut rows, part.as_slice())?,
            Err(_) => return Err(AllocError),
        }
    }
    Ok(rows)
}

/// Puts the rows of a part behind others.
fn put_rows<'r, 'a>(
    rows: &mut Vec<&'r SortEntry<'a>>,
    part: &'r [SortEntry<'a>],
) -> Result<(), AllocError>
    ensures { OnOk result (map (λ r. r.now) rows.new.items
        ≡ map (λ r. r.now) rows.old.items ++ part.entry.now) }
{
    for row in part {
        rows.push(row)?;
    }
    Ok(())
}

/// Rows that stand in order part by part, in the order of what stands beside them. The parts are
/// put together by moving what leads to the rows, not the rows.
fn merge_entries<'r, 'a>(rows: Vec<&'r SortEntry<'a>>) -> Result<Vec<&'r SortEntry<'a>>, AllocError>
    ensures permutation { IfOk result (λ v. IsPermutation rows.entry.items v.items) }
    ensures sorted { IfOk result (λ v. IsSortedBy
        (λ a b. is_lt (by_code (entry_form a.now) (entry_form b.now))) v.items) }
{
    let mut rows = rows;
    rows.sort_by(|a, b| a.key.compare(&b.key))?;
    Ok(rows)
}

/// The groups that these rows are of, in the order in which the rows stand.
fn groups_at<'a>(
    alloc: Global,
    rows: Vec<&SortEntry<'a>>,
) -> Result<Vec<&'a (usize, Group)>, AllocError>
    ensures { IfOk result (λ v.
        map (λ r. row_of r.now) v.items ≡ map (λ r. (entry_form r.now).1) rows.entry.items) }
{
    let mut groups = Vec::with_capacity(alloc, rows.len())?;
    for row in rows {
        groups.push(row.found)?;
    }
    Ok(groups)
}
