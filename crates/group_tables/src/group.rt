//! The groups that a table gives.

ghost use Rattle.std.specs.Prelude.{◌≡◌, ◌++◌, ◌∷◌, [], OnOk, map};
ghost use Rattle.group_tables.specs.Keys.{key_in};
ghost use Rattle.group_tables.specs.GroupSummaries.{group_summary_in};
ghost use Rattle.group_tables.specs.Inside.Group.{state_summary};
ghost use Rattle.group_tables.specs.Inside.Summaries.{summaries_with};

use crate::accumulators::Accumulators;
use crate::cell::Cell;
use crate::packed_key::PackedKey;
use crate::walk::Walk;
use std::alloc::{AllocError, Global};
use values::Value;

/// A group of a grouping set: the members of one key, and the value of each set function over them
/// (ISO/IEC 9075-2, `<group by clause>`).
///
/// Example: of the records `'Quay', 250` and `'Quay', 50`, grouped by the first column and with SUM
/// of the second one, the group has the key `'Quay'`, 2 members and the cell 300.
#[derive(Debug, Drop)]
pub struct Group {
    /// The values in the columns of the set, one for each and in its order; none under the empty
    /// set.
    pub key: Vec<Value>,
    /// The number of its members, whatever a FILTER keeps of them.
    pub lines: u64,
    /// The value of each set function over the members, or over those that its FILTER keeps, in the
    /// order of the functions.
    pub cells: Vec<Cell>,
}

/// Puts a group for each that a walk has not come to behind others, in its order.
pub(crate) fn put_groups(
    alloc: Global,
    groups: &mut Vec<Group>,
    walk: Walk,
) -> Result<(), AllocError>
    ensures { OnOk result (map group_summary_in groups.new.items
        ≡ summaries_with groups.old.items walk.entries) }
{
    let Walk { entries } = walk;
    for (key, group) in entries {
        put_group(alloc, groups, key, group)?;
    }
    Ok(())
}

/// Puts a group behind others, whose keys have as many values.
pub(crate) fn put_group(
    alloc: Global,
    groups: &mut Vec<Group>,
    key: PackedKey,
    group: Accumulators,
) -> Result<(), AllocError>
    ensures { OnOk result (map group_summary_in groups.new.items
        ≡ map group_summary_in groups.old.items ++ state_summary (key_in key, group) ∷ []) }
{
    let room = match groups.last() {
        Some(group) => group.key.len(),
        None => 0,
    };
    let key = key.values(alloc, room)?;
    let (lines, cells) = group.finish(alloc)?;
    groups.push(Group { key, lines, cells })?;
    Ok(())
}
