//! Groups, read value by value.

ghost use Rattle.std.specs.Prelude.{◌≤◌, IfOk, IsTrue, OnOk};
ghost use Rattle.semantics.specs.Groups.{key_order};
ghost use Rattle.values.specs.Datum.{data_of};
ghost use Rattle.values.specs.GroupStates.{entry_of};
ghost use Rattle.part_lines.specs.Known.{IsAbove, IsGroupFor, IsKeyFor};
ghost use Rattle.part_lines.specs.Groups.{shape_of};
ghost use Rattle.part_lines.specs.Reading.{Gives, can_have_members, group_at, key_at, last_key, members_at, next_key_at};

use crate::checks::{can_have_members, check, is_key_above};
use crate::fault::PartRefusal;
use crate::numbers::{next_count_within, next_held};
use crate::shape::GroupShape;
use crate::source::ValueReader;
use crate::states::next_states;
use semantics::{Kind, PartsFaultKind};
use std::alloc::Global;
use values::{GroupEntry, Value};

/// The values of the next key, one for each of these columns.
fn next_values<S: ValueReader>(
    alloc: Global,
    source: &mut S,
    columns: &[Kind],
) -> Result<Vec<Value>, PartRefusal>
    ensures known { S.known source.old → OnOk result (S.known source.new) }
    ensures onward { OnOk result ((S.stream source.old).place ≤ (S.stream source.new).place) }
    ensures read { S.known source.old
        → Gives (λ values. (data_of values.items, S.stream source.new)) result
        (key_at columns.now (S.stream source.old)) }
    ensures held { IfOk result (λ values. IsKeyFor columns.now (data_of values.items)) }
{
    let mut values = Vec::with_capacity(alloc, columns.len())?;
    for kind in columns {
        let value = next_held(source, *kind)?;
        values.push(value)?;
    }
    Ok(values)
}

/// The next key: a value for each of these columns, above the last key, where there is one.
#[tactic(auto, unfolding(crate::specs::Reading::next_key_at))]
fn next_key<S: ValueReader>(
    alloc: Global,
    source: &mut S,
    columns: &[Kind],
    last: Option<&[Value]>,
) -> Result<Vec<Value>, PartRefusal>
    ensures known { S.known source.old → OnOk result (S.known source.new) }
    ensures onward { OnOk result ((S.stream source.old).place ≤ (S.stream source.new).place) }
    ensures read { S.known source.old
        → Gives (λ key. (data_of key.items, S.stream source.new)) result
        (next_key_at columns.now (last_key last.entry) (S.stream source.old)) }
    ensures held { IfOk result (λ key. IsKeyFor columns.now (data_of key.items)) }
    ensures above { IfOk result
        (λ key. IsAbove key_order (last_key last.entry) (data_of key.items)) }
{
    let key = next_values(alloc, source, columns)?;
    let above = is_key_above(last, key.as_slice());
    check(source, above, PartsFaultKind::OutOfOrder)?;
    Ok(key)
}

/// How many members the next group has, of a key by these columns: no more than are left, and as
/// many as it can have.
#[tactic(auto, unfolding(crate::specs::Reading::members_at))]
fn next_members<S: ValueReader>(
    source: &mut S,
    columns: &[Kind],
    left: u64,
) -> Result<u64, PartRefusal>
    ensures known { S.known source.old → OnOk result (S.known source.new) }
    ensures onward { OnOk result ((S.stream source.old).place ≤ (S.stream source.new).place) }
    ensures read { S.known source.old → Gives (λ n. (n, S.stream source.new)) result
        (members_at columns.now left (S.stream source.old)) }
    ensures within { IfOk result (λ n. n ≤ left) }
    ensures possible { IfOk result (λ n. IsTrue (can_have_members columns.now n)) }
{
    let members = next_count_within(source, left)?;
    check(
        source,
        can_have_members(columns, members),
        PartsFaultKind::OutOfRange,
    )?;
    Ok(members)
}

/// The next group, of this shape, its key above the last one, where there is one, and of no more
/// members than are left. With grouping columns it has a member.
///
/// Example: of the lines `"Harbour"`, `2`, `7` and `2` it is, for one column of texts and one sum,
/// the group of `Harbour` with 2 members and `State::Sum(7, 2)`. Behind the key `Quay` its key is
/// out of order, and where 1 member is left `2` is out of range.
///
/// # Errors
///
/// The first fault of the lines, a read that failed, or want of memory. A fault that is met at a
/// value names that value's line.
#[tactic(auto, unfolding(crate::specs::Reading::group_at))]
pub fn next_group<S: ValueReader>(
    alloc: Global,
    source: &mut S,
    shape: &GroupShape,
    last: Option<&[Value]>,
    left: u64,
) -> Result<GroupEntry, PartRefusal>
    ensures known { S.known source.old → OnOk result (S.known source.new) }
    ensures onward { OnOk result ((S.stream source.old).place ≤ (S.stream source.new).place) }
    ensures read { S.known source.old → Gives (λ group. (entry_of group, S.stream source.new))
        result (group_at (shape_of shape.now) (last_key last.entry) left (S.stream source.old)) }
    ensures fits { IfOk result
        (λ group. IsGroupFor (shape_of shape.now) (last_key last.entry) left (entry_of group)) }
{
    let columns = shape.columns.as_slice();
    let key = next_key(alloc, source, columns, last)?;
    let members = next_members(source, columns, left)?;
    let states = next_states(alloc, source, shape.states.as_slice(), members)?;
    Ok(GroupEntry {
        key,
        members,
        states,
    })
}
