//! The pieces of an input as a work for a pool.

ghost use Rattle.std.specs.Prelude.{◌≡◌, ◌≤◌, ◌<◌, ◌+◌, min, All, length, ◌^◌, ◌-◌};
ghost use Rattle.std.proofs.Props.{props};
ghost use Rattle.tables.specs.Pieces.{piece_at};
ghost use Rattle.semantics.specs.Limits.{input_limit};

use crate::partial::Partial;
use group_tables::Executor;
use lines::Piece;
use pool::Work;
use query_plan::Plan;
use std::alloc::{AllocError, Global};

/// The pieces of an input under a plan, each by its index: what a pool makes one result of.
///
/// A piece past the last one has no bytes. The weight of a result is the number of its refused
/// lines, and its load the number of its lines.
///
/// Example: of a job over two pieces, `pool::alone(&job, 2, 0)` answers
/// `Ok(Outcome::Whole(partial))` where no line of theirs is refused, and `Ok(Outcome::Over)` where
/// one is, unless memory runs out.
#[derive(Drop)]
pub struct Job<'a> {
    alloc: Global,
    plan: &'a Plan,
    input: &'a [u8],
    pieces: &'a [Piece],
    ghost short: { length input.now < input_limit },
    ghost ordered: { All (λ piece. piece.start ≤ piece.stop) pieces.now } by { Prim.hlevel props },
    ghost within: { All (λ piece. piece.stop ≤ length input.now)
        pieces.now } by { Prim.hlevel props },
}

impl<'a> Job<'a> {
    ghost use Rattle.tables.specs.Jobs.{input_of_job, pieces_of_job, plan_of_job};

    /// The job of a plan over the pieces of an input, whose starts and stops are counted in bytes,
    /// from 0. It takes no memory; the results take theirs from `alloc`.
    ///
    /// The input has fewer than 2^63 bytes. No piece starts behind its stop, and none stops behind
    /// the end of the input; so it is with the pieces that `cut` gives.
    ///
    /// Example: where `pieces` are those of `cut(alloc, input, 1_048_576)?`,
    /// `Job::new(alloc, &plan, input, pieces.as_slice())` is the job over the whole input.
    pub fn new(alloc: Global, plan: &'a Plan, input: &'a [u8], pieces: &'a [Piece]) -> Job<'a>
        requires short { length input.now < input_limit }
        requires ordered { All (λ piece. piece.start ≤ piece.stop) pieces.now }
        requires within { All (λ piece. piece.stop ≤ length input.now) pieces.now }
        ensures plan { plan_of_job result ≡ plan.now }
        ensures input { input_of_job result ≡ input.now }
        ensures pieces { pieces_of_job result ≡ pieces.now }
    {
        Job {
            alloc,
            plan,
            input,
            pieces,
        }
    }

    /// The bytes of the piece with this index, and none past the last piece.
    fn bytes(&self, index: u32) -> &[u8]
        ensures bytes { result.now ≡ (piece_at self.now.input.now self.now.pieces.now index).bytes }
        ensures short { length result.now < input_limit }
    {
        match self.pieces.get(index as usize) {
            Some(piece) => &self.input[piece.start..piece.stop],
            None => &self.input[..0],
        }
    }
}

impl<'a> Work for Job<'a> {
    ghost use Rattle.tables.specs.Jobs.{input_of_job, pieces_of_job, plan_of_job, reduction_of_job};
    ghost use Rattle.tables.specs.Laws.{results_lawful};
    ghost use Rattle.tables.specs.Pieces.{piece_at};
    ghost use Rattle.tables.specs.States.{PartialState};

    type Part = Partial;

    ghost Meaning = { PartialState };

    ghost meaning = { λ part. part };

    ghost reduction = { λ job. reduction_of_job job };

    ghost lawful = { λ job. results_lawful (plan_of_job job)
        (piece_at (input_of_job job) (pieces_of_job job)) };

    fn unit(&self) -> Result<Partial, AllocError> {
        Partial::empty(self.alloc, self.plan)
    }

    fn piece(&self, i: u32) -> Result<Partial, AllocError> {
        Partial::fold_piece(self.alloc, self.plan, i, self.bytes(i))
    }

    fn combine(&self, a: Partial, b: Partial) -> Result<Partial, AllocError> {
        a.merge(b)
    }

    fn add(&self, part: Partial, i: u32) -> Result<Partial, AllocError> {
        part.fold_onto(self.plan, i, self.bytes(i))
    }

    fn weight(&self, p: &Partial) -> u64 {
        p.refused()
    }

    fn load(&self, p: &Partial) -> u64 {
        p.lines()
    }
}

/// A job whose results are merged by an executor. Its pieces have indexes from a first one on, so
/// that they can stand behind pieces that a result has already; no index is above the greatest
/// number of 32 bits.
///
/// Example: a pool makes of `JobBy::new(job, &Parallel { rt: &rt, workers: 4, seed }, 0)` what it
/// makes of `job`.
#[derive(Drop)]
pub struct JobBy<'a, E: Executor> {
    job: Job<'a>,
    executor: &'a E,
    first: u32,
    ghost ready: { E.ready executor.now } by { E.ready_once executor.now },
}

impl<'a, E: Executor> JobBy<'a, E> {
    ghost use Rattle.tables.specs.Jobs.{first_of_job, joined_job};

    /// The job with this executor, which is ready, whose first piece has the index `first`. It
    /// takes no memory.
    ///
    /// Example: `JobBy::new(job, &Serial, 0)` is a work like `job`.
    pub fn new(job: Job<'a>, executor: &'a E, first: u32) -> JobBy<'a, E>
        requires ready { E.ready executor.now }
        ensures job { joined_job result ≡ job.entry }
        ensures first { first_of_job result ≡ first }
    {
        JobBy {
            job,
            executor,
            first,
        }
    }

    /// The index of the piece that comes so many behind the first one.
    fn index(&self, place: u32) -> u32
        ensures { result ≡ min (self.now.first + place) (2 ^ 32 - 1) }
    {
        self.first.saturating_add(place)
    }
}

impl<'a, J: Executor> Work for JobBy<'a, J> {
    ghost use Rattle.tables.specs.Jobs.{first_of_job, input_of_job, joined_job, pieces_of_job, plan_of_job, reduction_of_job_from};
    ghost use Rattle.tables.specs.Laws.{results_lawful};
    ghost use Rattle.tables.specs.Pieces.{piece_from};
    ghost use Rattle.tables.specs.States.{PartialState};

    type Part = Partial;

    ghost Meaning = { PartialState };

    ghost meaning = { λ part. part };

    ghost reduction = { λ it. reduction_of_job_from (first_of_job it) (joined_job it) };

    ghost lawful = { λ it. results_lawful (plan_of_job (joined_job it))
        (piece_from (first_of_job it) (input_of_job (joined_job it))
        (pieces_of_job (joined_job it))) };

    fn unit(&self) -> Result<Partial, AllocError> {
        Partial::empty_by(self.job.alloc, self.job.plan, self.executor)
    }

    fn piece(&self, i: u32) -> Result<Partial, AllocError> {
        Partial::fold_piece_by(
            self.job.alloc,
            self.job.plan,
            self.executor,
            self.index(i),
            self.job.bytes(i),
        )
    }

    fn combine(&self, a: Partial, b: Partial) -> Result<Partial, AllocError> {
        a.merge_by(self.executor, b)
    }

    fn add(&self, part: Partial, i: u32) -> Result<Partial, AllocError> {
        part.fold_onto(self.job.plan, self.index(i), self.job.bytes(i))
    }

    fn weight(&self, p: &Partial) -> u64 {
        self.job.weight(p)
    }

    fn load(&self, p: &Partial) -> u64 {
        self.job.load(p)
    }
}
