//! The groups of shards, taken one of each shard in turn.

ghost use Rattle.std.specs.Prelude.{◌≡◌, IfOk, OnOk, map};
ghost use Rattle.std.specs.List.Sorted.{IsPermutation};
ghost use Rattle.group_tables.specs.GroupSummaries.{group_summary_in};
ghost use Rattle.group_tables.specs.Shards.{all_entries, entries_in};
ghost use Rattle.group_tables.specs.Inside.Summaries.{summaries_with};
ghost use Rattle.group_tables.specs.Inside.Walks.{entries_left};

use crate::accumulators::Accumulators;
use crate::group::{Group, put_group, put_groups};
use crate::packed_key::PackedKey;
use crate::shard::Shard;
use std::alloc::{AllocError, Global};
use std::collections::hash_map::IntoIter;

/// A walk over the groups of a shard, in the order in which they came there.
#[derive(Drop)]
pub(crate) struct Walk {
    /// Those that it has not come to.
    pub(crate) entries: IntoIter<PackedKey, Accumulators>,
}

/// A walk over each shard.
pub(crate) fn walks_over(alloc: Global, shards: Vec<Shard>) -> Result<Vec<Walk>, AllocError>
    ensures { IfOk result (λ walks. entries_left walks.items ≡ all_entries shards.items) }
{
    let mut walks = Vec::with_capacity(alloc, shards.len())?;
    for shard in shards {
        walks.push(walk_over(shard))?;
    }
    Ok(walks)
}

/// A walk over a shard.
pub(crate) fn walk_over(shard: Shard) -> Walk
    ensures { result.entries ≡ entries_in shard }
{
    let Shard { groups } = shard;
    Walk {
        entries: groups.into_iter(),
    }
}

/// The number of groups of the shard that has the fewest, and none where there is no shard.
pub(crate) fn smallest_shard_len(shards: &[Shard]) -> usize {
    shards
        .iter()
        .map(|shard| shard.groups.len())
        .min()
        .unwrap_or(0)
}

/// Puts the next group of each walk that has one behind others.
pub(crate) fn put_next_of_each(
    alloc: Global,
    groups: &mut Vec<Group>,
    walks: &mut Vec<Walk>,
) -> Result<(), AllocError>
    ensures { OnOk result (IsPermutation
        (summaries_with groups.old.items (entries_left walks.old.items))
        (summaries_with groups.new.items (entries_left walks.new.items))) }
{
    for place in 0..walks.len() {
        put_next(alloc, groups, &mut walks[place])?;
    }
    Ok(())
}

/// Puts the next group of a walk, where it has one, behind others.
fn put_next(alloc: Global, groups: &mut Vec<Group>, walk: &mut Walk) -> Result<(), AllocError>
    ensures { OnOk result (summaries_with groups.new.items walk.new.entries
        ≡ summaries_with groups.old.items walk.old.entries) }
{
    if let Some((key, group)) = walk.entries.next() {
        put_group(alloc, groups, key, group)?;
    }
    Ok(())
}

/// The groups, and behind them those that walks have not come to, one walk after the other.
pub(crate) fn put_rest(
    alloc: Global,
    groups: Vec<Group>,
    walks: Vec<Walk>,
) -> Result<Vec<Group>, AllocError>
    ensures { IfOk result (λ all. map group_summary_in all.items
        ≡ summaries_with groups.items (entries_left walks.items)) }
{
    let mut all = groups;
    for walk in walks {
        put_groups(alloc, &mut all, walk)?;
    }
    Ok(all)
}
