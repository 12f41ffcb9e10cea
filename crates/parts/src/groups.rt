//! The groups of a part.

ghost use Rattle.std.specs.Prelude.{◌≡◌, ◌≤◌, ◌++◌, ℕ, IfOk, List, None, OnOk, length};
ghost use Rattle.part_lines.specs.Groups.{shape_of};
ghost use Rattle.semantics.specs.Parts.{groups_values, text_of};
ghost use Rattle.part_lines.specs.Reading.{Gives, groups_at};
ghost use Rattle.tables.specs.Contents.{DiffersInGroups};
ghost use Rattle.parts.specs.Inside.Hashing.{HoldsText};
ghost use Rattle.parts.specs.Inside.Gathering.{IsGathering, groups_of};
ghost use Rattle.parts.specs.ReadingParts.{shape_under};

use crate::gather::Gathering;
use part_lines::{GroupShape, PartRefusal, ValueReader, next_group};
use query_plan::Plan;
use std::alloc::Global;

/// The next groups, as many as are asked for. No memory is taken for a count before its groups have
/// come.
pub(crate) fn next_groups<S: ValueReader>(
    alloc: Global,
    plan: &Plan,
    source: &mut S,
    shape: &GroupShape,
    start: Gathering,
    count: u64,
) -> Result<Gathering, PartRefusal>
    requires gathering { IsGathering plan.now start }
    requires none { start.last ≡ None }
    requires shape { shape_of shape.now ≡ shape_under plan.now.fields plan.now.query }
    ensures known { S.known source.old → OnOk result (S.known source.new) }
    ensures onward { OnOk result ((S.stream source.old).place ≤ (S.stream source.new).place) }
    ensures read { S.known source.old
        → Gives (λ next. (groups_of next, S.stream source.new)) result
        (groups_at (shape_of shape.now) count None start.left (S.stream source.old)) }
    ensures count { IfOk result (λ next. length (groups_of next) ≡ count) }
    ensures gathering { IfOk result (IsGathering plan.now) }
    ensures hashed { IfOk result (λ next. (bytes : List ℕ) → HoldsText start.hasher bytes
        → HoldsText next.hasher (bytes ++ text_of (groups_values (groups_of next)))) }
    ensures others { IfOk result (λ next. DiffersInGroups start.partial next.partial) }
{
    let mut so_far = start;
    for _ in 0..count {
        let group = next_group(alloc, source, shape, so_far.last_key(), so_far.left)?;
        so_far = so_far.with_group(alloc, plan, group)?;
    }
    Ok(so_far)
}
