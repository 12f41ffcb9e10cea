//! Who performs an operation: the calling thread alone, or several threads.

ghost use Rattle.std.specs.Prelude.{◌<◌};
ghost use denote.Param.Send.{IsSync};

use crate::hash::HashSeed;
use std::marker::Sync;
use std::thread::Threads;

/// What the calling thread can do alone, or several threads together.
///
/// Example: to put the groups of one table to those of another, shard by shard.
pub trait Operation {
    /// What comes of it.
    type Output;

    /// It can be done.
    ghost can_run: { Self → Type 0 };

    /// This may come of it, whoever does it.
    ghost can_give: { Self → Self.Output → Type 0 };

    /// Does it on the calling thread.
    fn run_alone(self) -> Self::Output
        requires can_run { can_run self }
        ensures can_give { can_give self result };

    /// Does it by as many threads as there are hands, the calling one among them, or by fewer where
    /// there is little to do or a thread cannot be started. There is a hand.
    fn run_among<H: Threads + Sync>(self, rt: &H, hands: usize) -> Self::Output
        requires can_run { can_run self }
        requires shared { IsSync H.row }
        requires hands { 0 < hands }
        ensures can_give { can_give self result };
}

/// Who performs the operations by which tables of groups are begun, merged, rolled up and finished,
/// and a report is made.
///
/// Example: `Serial` is the calling thread alone, and `Parallel` several threads.
pub trait Executor {
    /// The executor can do so.
    ghost ready: { Self → Type 0 };

    /// This has one proof at most.
    ghost ready_once: { (executor : Self) → IsProp (Self.ready executor) };

    /// How many hands it has, by which tables are laid out.
    fn hands(&self) -> usize;

    /// The seed by which its tables hash.
    fn seed(&self) -> HashSeed;

    /// Performs an operation.
    fn perform<T: Operation>(&self, operation: T) -> T::Output
        requires ready { Self.ready self.now }
        requires can_run { T.can_run operation }
        ensures can_give { T.can_give operation result };
}

/// The calling thread alone, whose tables hash by the fixed seed.
///
/// Example: `table.absorb(&Serial, other)?` starts no thread.
pub struct Serial;

impl Executor for Serial {
    ghost use Rattle.std.specs.Prelude.{⊤};

    ghost ready = { λ _. ⊤ };

    ghost ready_once = { λ _. Prim.hlevel };

    fn hands(&self) -> usize {
        1
    }

    fn seed(&self) -> HashSeed {
        HashSeed::Fixed
    }

    fn perform<T: Operation>(&self, operation: T) -> T::Output {
        operation.run_alone()
    }
}

/// As many threads as there are workers, the calling one among them. There is a worker.
///
/// Example: `table.absorb(&Parallel { rt: &rt, workers: 4, seed }, other)?` leaves what
/// `table.absorb(&Serial, other)?` leaves.
#[derive(Drop)]
pub struct Parallel<'a, H> {
    /// What starts the threads.
    pub rt: &'a H,
    /// How many workers there are.
    pub workers: usize,
    /// The seed by which the tables hash.
    pub seed: HashSeed,
}

impl<'a, H: Threads + Sync> Executor for Parallel<'a, H> {
    ghost use Rattle.std.specs.Prelude.{◌<◌};
    ghost use Rattle.group_tables.specs.Ready.{IsSyncAtEach, keyless-once};
    ghost use Rattle.std.specs.Coded.{le_prop};

    ghost ready = { λ parallel. IsSyncAtEach H.row × (0 < parallel.workers) };

    ghost ready_once = { λ _. Prim.hlevel (keyless-once, le_prop) };

    fn hands(&self) -> usize {
        self.workers
    }

    fn seed(&self) -> HashSeed {
        self.seed
    }

    fn perform<T: Operation>(&self, operation: T) -> T::Output {
        operation.run_among(self.rt, self.workers)
    }
}
