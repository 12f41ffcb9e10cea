//! The groups of shards, finished.

ghost use Rattle.std.specs.Prelude.{◌≡◌, IfOk, List, map};
ghost use Rattle.group_tables.specs.GroupSummaries.{group_summary_in};
ghost use Rattle.group_tables.specs.Inside.GroupsOfShards.{AreGroupsOfEach, AreGroupsOfShard, AreGroupsOfShards};
ghost use Rattle.group_tables.specs.Shards.{all_entries};
ghost use Rattle.group_tables.specs.Inside.Summaries.{entry_summaries};

use crate::executor::{Executor, Operation};
use crate::group::{Group, put_groups};
use crate::shard::Shard;
use crate::walk::{put_next_of_each, put_rest, smallest_shard_len, walk_over, walks_over};
use std::alloc::{AllocError, Global};
use std::marker::Sync;
use std::thread;
use std::thread::Threads;

/// The least number of groups that several threads finish: fewer are done sooner than a thread is
/// started.
const PARALLEL_MIN_GROUPS: usize = 4_096;

/// The shards of a table whose groups are to be finished.
struct FinishShards {
    alloc: Global,
    /// How many groups they have.
    count: usize,
    shards: Vec<Shard>,
}

impl Operation for FinishShards {
    ghost use Rattle.std.specs.Prelude.{⊤, IfOk};
    ghost use Rattle.group_tables.specs.Inside.GroupsOfShards.{AreGroupsOfShards};

    type Output = Result<Vec<Group>, AllocError>;

    ghost can_run = { λ _. ⊤ };

    ghost can_give = { λ t result. IfOk result (λ groups.
        AreGroupsOfShards t.shards.items groups.items) };

    fn run_alone(self) -> Result<Vec<Group>, AllocError> {
        let FinishShards {
            alloc,
            count,
            shards,
        } = self;
        groups_in_turn(alloc, count, shards)
    }

    fn run_among<H: Threads + Sync>(self, rt: &H, hands: usize) -> Result<Vec<Group>, AllocError> {
        let FinishShards {
            alloc,
            count,
            shards,
        } = self;
        if hands < shards.len() || count < PARALLEL_MIN_GROUPS {
            return groups_in_turn(alloc, count, shards);
        }
        groups_among(rt, alloc, count, shards)
    }
}

/// The groups of all shards, which have so many; the executor finishes them.
pub(crate) fn finish_shards<E: Executor>(
    executor: &E,
    alloc: Global,
    count: usize,
    shards: Vec<Shard>,
) -> Result<Vec<Group>, AllocError>
    requires ready { E.ready executor.now }
    ensures { IfOk result (λ groups. AreGroupsOfShards shards.items groups.items) }
{
    executor.perform(FinishShards {
        alloc,
        count,
        shards,
    })
}

/// The same, by the calling thread alone, which walks over all shards side by side.
fn groups_in_turn(alloc: Global, count: usize, shards: Vec<Shard>) -> Result<Vec<Group>, AllocError>
    ensures { IfOk result (λ groups. AreGroupsOfShards shards.items groups.items) }
{
    let shortest = smallest_shard_len(shards.as_slice());
    let mut walks = walks_over(alloc, shards)?;
    let mut groups = Vec::with_capacity(alloc, count)?;
    for _ in 0..shortest {
        put_next_of_each(alloc, &mut groups, &mut walks)?;
    }
    put_rest(alloc, groups, walks)
}

/// The same, one shard after the other, each of which is finished by a thread of its own where one
/// can be started. The list has room for so many groups from the start.
fn groups_among<H: Threads + Sync>(
    rt: &H,
    alloc: Global,
    room: usize,
    shards: Vec<Shard>,
) -> Result<Vec<Group>, AllocError>
    ensures { IfOk result (λ groups. AreGroupsOfShards shards.items groups.items) }
{
    let parts = parts_among(rt, alloc, shards)?;
    join_parts(alloc, room, parts)
}

/// The groups of each shard.
fn parts_among<H: Threads + Sync>(
    rt: &H,
    alloc: Global,
    shards: Vec<Shard>,
) -> Result<Vec<Result<Vec<Group>, AllocError>>, AllocError>
    ensures { IfOk result (λ parts. AreGroupsOfEach shards.items parts.items) }
{
    let parts = thread::map_vec(
        rt,
        shards,
        &|shard: Shard| -> Result<Vec<Group>, AllocError>
            ensures { IfOk result (λ groups. AreGroupsOfShard shard groups.items) }
        { groups_of(alloc, shard) },
    )?;
    Ok(parts)
}

/// The groups of a shard.
fn groups_of(alloc: Global, shard: Shard) -> Result<Vec<Group>, AllocError>
    ensures { IfOk result (λ groups. AreGroupsOfShard shard groups.items) }
{
    let mut groups = Vec::with_capacity(alloc, shard.len())?;
    put_groups(alloc, &mut groups, walk_over(shard))?;
    Ok(groups)
}

/// The groups of all parts, one part after the other, where each part was made, in a list with room
/// for so many groups from the start.
fn join_parts(
    alloc: Global,
    room: usize,
    parts: Vec<Result<Vec<Group>, AllocError>>,
) -> Result<Vec<Group>, AllocError>
    ensures { IfOk result (λ groups. (shards : List Shard) → AreGroupsOfEach shards parts.items
        → map group_summary_in groups.items ≡ entry_summaries (all_entries shards)) }
{
    let mut groups = Vec::with_capacity(alloc, room)?;
    for part in parts {
        let mut part = part?;
        groups.append(&mut part)?;
    }
    Ok(groups)
}
