//! A group put to a partial result.

ghost use Rattle.std.specs.Prelude.{◌≡◌, ◌++◌, IfOk, None};
ghost use Rattle.tables.specs.Contents.{DiffersInGroups, groups_in};
ghost use Rattle.parts.specs.Inside.Gathering.{CanHold, last_of};

use query_plan::Plan;
use std::alloc::AllocError;
use tables::Partial;
use values::GroupEntry;

/// A result with the group that was read last, where there is one.
pub(crate) fn put_last(
    plan: &Plan,
    partial: Partial,
    last: Option<GroupEntry>,
    left: u64,
) -> Result<Partial, AllocError>
    requires { CanHold plan.now partial last left }
    ensures holds { IfOk result (λ next. CanHold plan.now next None left) }
    ensures groups { IfOk result (λ next. groups_in next ≡ groups_in partial ++ last_of last) }
    ensures others { IfOk result (DiffersInGroups partial) }
{
    match last {
        Some(group) => partial.put_group(group),
        None => Ok(partial),
    }
}
