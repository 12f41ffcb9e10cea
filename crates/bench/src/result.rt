//! The result over an input that is held whole: of its pieces, of 1,048,576 bytes or more, by 1 to
//! 64 threads.

ghost use Rattle.std.specs.Prelude.{◌≤◌, ◌<◌, IfSome, length};
ghost use Rattle.tables.specs.Partials.{IsPartialOf};
ghost use Rattle.semantics.specs.Limits.{input_limit};

use lines::cut;
use pool::{Outcome, fan_out};
use query::{Plan, check, parse};
use std::alloc::Global;
use std::marker::Sync;
use std::sync::Wait;
use std::thread::Threads;
use tables::{HashSeed, Job, JobBy, Parallel, Partial, job_law};
use values::Schema;

/// The least bytes of a piece, but perhaps of the last one.
const PIECE: usize = 1_048_576;

/// The most pieces that are shared among threads.
const MAX_PIECES: usize = 1_048_576;

/// The greatest length of an input, in bytes.
pub(crate) const LONGEST: usize = 0x7fff_ffff_ffff_ffff;

/// The plan of a query over columns; `None` where one of them is refused.
pub(crate) fn plan_of(alloc: Global, columns: &str, query: &str) -> Option<Plan> {
    let schema = Schema::parse(alloc, columns).ok()?;
    let query = parse(alloc, query).ok()?;
    check(alloc, query, schema).ok()
}

/// The result of a plan over an input, by so many threads; `None` where it has more than
/// 1,048,576 pieces, memory runs out, or a thread cannot be started.
pub(crate) fn result_of<R: Threads + Wait + Sync>(
    rt: &R,
    alloc: Global,
    plan: &Plan,
    input: &[u8],
    hands: usize,
) -> Option<Partial>
    requires short { length input.now < input_limit }
    requires hands { (1 ≤ hands) × (hands ≤ 64) }
    ensures of_plan { IfSome result (IsPartialOf plan.now) }
{
    let Ok(pieces) = cut(alloc, input, PIECE) else {
        return None;
    };
    if pieces.len() > MAX_PIECES {
        return None;
    }
    job_law();
    let executor = Parallel {
        rt,
        workers: hands,
        seed: HashSeed::Fixed,
    };
    let job = JobBy::new(
        Job::new(alloc, plan, input, pieces.as_slice()),
        &executor,
        1,
    );
    match fan_out(rt, alloc, &job, pieces.len() as u32, hands, u64::MAX) {
        Ok(Outcome::Whole(result)) => Some(result),
        Ok(Outcome::Over) | Err(_) => None,
    }
}
