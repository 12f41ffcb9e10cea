//! Shards of two tables that are put together.

ghost use Rattle.std.specs.Prelude.{◌≡◌, ◌<◌, ℕ, true, All, IfOk, length, map, slice_index_or, vec_len};
ghost use Rattle.group_tables.specs.Inside.Shards.{AreJoined, CanJoinEach};
ghost use Rattle.group_tables.specs.Inside.Pairs.{CanJoinPair, HasJoined};
ghost use Rattle.group_tables.specs.declared.pairs.Pair.{Pair};

use crate::executor::{Executor, Operation};
use crate::memory::Memory;
use crate::shard::Shard;
use std::alloc::{AllocError, Global};
use std::marker::Sync;
use std::thread::Threads;
use std::{mem, thread};

/// The least number of groups that several threads put to others: fewer are there sooner than a
/// thread is started.
const PARALLEL_MIN_GROUPS: usize = 4_096;

/// The shards of two tables, of which each is put to the other one's of the same place.
struct JoinShards {
    memory: Memory,
    shards: Vec<Shard>,
    others: Vec<Shard>,
    /// How many groups the others have.
    moving: usize,
}

impl Operation for JoinShards {
    ghost use Rattle.std.specs.Prelude.{◌≡◌, IfOk, vec_len};
    ghost use Rattle.group_tables.specs.Inside.Shards.{AreJoined, CanJoinEach};

    type Output = Result<Vec<Shard>, AllocError>;

    ghost can_run = { λ t. (vec_len t.others ≡ vec_len t.shards)
        × CanJoinEach t.shards.items t.others.items };

    ghost can_give = { λ t result. IfOk result (λ joined. vec_len joined ≡ vec_len t.shards)
        × IfOk result (λ joined. AreJoined t.shards.items t.others.items joined.items) };

    fn run_alone(self) -> Result<Vec<Shard>, AllocError> {
        let JoinShards {
            memory,
            shards,
            others,
            moving: _,
        } = self;
        join_in_turn(memory, shards, others)
    }

    fn run_among<H: Threads + Sync>(self, rt: &H, hands: usize) -> Result<Vec<Shard>, AllocError> {
        let JoinShards {
            memory,
            shards,
            others,
            moving,
        } = self;
        if hands == 1 || moving < PARALLEL_MIN_GROUPS {
            return join_in_turn(memory, shards, others);
        }
        join_among(rt, memory, hands, shards, others)
    }
}

/// The shards, each with the groups of the other list's shard of the same place, which the executor
/// puts to it. The other list has so many groups.
pub(crate) fn join_shards<E: Executor>(
    executor: &E,
    memory: Memory,
    shards: Vec<Shard>,
    others: Vec<Shard>,
    moving: usize,
) -> Result<Vec<Shard>, AllocError>
    requires ready { E.ready executor.now }
    requires count { vec_len others ≡ vec_len shards }
    requires each { CanJoinEach shards.items others.items }
    ensures count { IfOk result (λ joined. vec_len joined ≡ vec_len shards) }
    ensures joined { IfOk result (λ joined. AreJoined shards.items others.items joined.items) }
{
    executor.perform(JoinShards {
        memory,
        shards,
        others,
        moving,
    })
}

/// The same, one shard after the other.
fn join_in_turn(
    memory: Memory,
    shards: Vec<Shard>,
    others: Vec<Shard>,
) -> Result<Vec<Shard>, AllocError>
    requires count { vec_len others ≡ vec_len shards }
    requires each { CanJoinEach shards.items others.items }
    ensures count { IfOk result (λ joined. vec_len joined ≡ vec_len shards) }
    ensures joined { IfOk result (λ joined. AreJoined shards.items others.items joined.items) }
{
    let mut joined = shards;
    for (place, other) in others.into_iter().enumerate() {
        joined[place].absorb(memory, other)?;
    }
    Ok(joined)
}

/// A shard, and that of another table which is put to it.
#[derive(Drop)]
struct Pair {
    shard: Shard,
    other: Shard,
    /// Whether they were put together.
    is_joined: bool,
}

impl Pair {
    /// Puts the groups of the other shard to the shard.
    fn join(&mut self, memory: Memory)
        requires { CanJoinPair self.old }
        ensures { HasJoined self.old self.new }
    {
        let other = mem::replace(&mut self.other, Shard::new(memory));
        self.is_joined = self.shard.absorb(memory, other).is_ok();
    }
}

/// The same, by as many threads as there are hands.
fn join_among<H: Threads + Sync>(
    rt: &H,
    memory: Memory,
    hands: usize,
    shards: Vec<Shard>,
    others: Vec<Shard>,
) -> Result<Vec<Shard>, AllocError>
    requires hands { 0 < hands }
    requires count { vec_len others ≡ vec_len shards }
    requires each { CanJoinEach shards.items others.items }
    ensures count { IfOk result (λ joined. vec_len joined ≡ vec_len shards) }
    ensures joined { IfOk result (λ joined. AreJoined shards.items others.items joined.items) }
{
    let mut pairs = pairs_of(memory.alloc, shards, others)?;
    join_pairs(rt, memory, hands, pairs.as_mut_slice());
    shards_of(memory.alloc, pairs)
}

/// The shards of two lists, in pairs.
fn pairs_of(alloc: Global, shards: Vec<Shard>, others: Vec<Shard>) -> Result<Vec<Pair>, AllocError>
    requires count { vec_len others ≡ vec_len shards }
    ensures shards { IfOk result (λ pairs. map (λ pair. pair.shard) pairs.items ≡ shards.items) }
    ensures others { IfOk result (λ pairs. map (λ pair. pair.other) pairs.items ≡ others.items) }
{
    let mut pairs = Vec::with_capacity(alloc, shards.len())?;
    for (shard, other) in shards.into_iter().zip(others) {
        pairs.push(Pair {
            shard,
            other,
            is_joined: false,
        })?;
    }
    Ok(pairs)
}

/// Puts the shards of each pair together, by as many threads as there are hands.
fn join_pairs<H: Threads + Sync>(rt: &H, memory: Memory, hands: usize, pairs: &mut [Pair])
    requires hands { 0 < hands }
    requires each { All CanJoinPair pairs.old }
    ensures { (i : ℕ) (d : Pair) → i < length pairs.old
        → HasJoined (slice_index_or pairs.old i d) (slice_index_or pairs.new i d) }
{
    thread::for_each_mut(
        rt,
        pairs,
        hands,
        &|_place: usize, pair: &mut Pair|
            requires { CanJoinPair pair.now }
            ensures { HasJoined pair.entry.now pair.exit.now }
        { pair.join(memory) },
    );
}

/// The first shards of the pairs, where all were put together.
fn shards_of(alloc: Global, pairs: Vec<Pair>) -> Result<Vec<Shard>, AllocError>
    ensures shards { IfOk result (λ shards. shards.items ≡ map (λ pair. pair.shard) pairs.items) }
    ensures joined { IfOk result (λ _. All (λ pair. pair.is_joined ≡ true) pairs.items) }
{
    let mut shards = Vec::with_capacity(alloc, pairs.len())?;
    for pair in pairs {
        if !pair.is_joined {
            return Err(AllocError);
        }
        shards.push(pair.shard)?;
    }
    Ok(shards)
}
