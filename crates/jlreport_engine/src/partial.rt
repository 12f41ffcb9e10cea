//! A run to a part: from a reader to the text of the partial result.

ghost use Rattle.std.specs.Prelude.{◌≡◌, ◌≢◌, ℕ, List, Option, IfErr};
ghost use Rattle.semantics.specs.Joins.{IsPartialRun};
ghost use Rattle.semantics.specs.Run.{IsWithin};
ghost use Rattle.jlreport_engine.specs.Inside.Run.{StandsForKnown};

use crate::seeds::random_seed;
use crate::writer::put_and_flush;
use jlreport_cli::Options;
use jlreport_scan::gather;
use parts::write_part;
use query::Plan;
use semantics::{Done, RunFault};
use std::alloc::Global;
use std::io::{Read, Write};
use std::marker::{Send, Sync};
use std::random::RandomSource;
use std::sync::Wait;
use std::thread::Threads;
use tables::Partial;

/// Works on what a reader gives as `run` does, but writes the part of it to `out` and flushes it,
/// in place of the report and the list of refused lines: `run_join` writes these of that part,
/// alone or among others. The part does not depend on the number of workers, on the size of a piece
/// or on which thread works on which piece. It answers how many lines and how many refused lines
/// there are. Nothing is written before all of the input was read.
///
/// Example: with the plan of `SELECT SUM(q) AS s FROM lines` under `q:int`, and the one line
/// `{"q":5}` as the input, `run_partial(&rt, alloc, &plan, options, input, &mut out)`, where it is
/// done, answers `Done { lines: 1, refused: 0 }`; a part was written to `out`, whose first line is
/// `"jlreport part 1"` in its quotes.
///
/// # Errors
///
/// `Reading` where a read fails, the system gives no random bytes or the input has 2^63 bytes or
/// more, `OutOfMemory` where memory runs out, `ThreadNotStarted` where a thread cannot be started,
/// which one worker never answers, `TooManyRefused` where more lines are refused than the options
/// allow: then nothing was written. `WritingPart` where a write or the flush of the part fails:
/// then a beginning of it was written.
pub fn run_partial<R: Read + Drop + Send, O: Write, H: Threads + Wait + RandomSource + Sync>(
    rt: &H,
    alloc: Global,
    plan: &Plan,
    options: Options,
    reader: R,
    out: &mut O,
) -> Result<Done, RunFault>
    ensures run { IsPartialRun result options.max_refused plan.now.fields plan.now.query
        (R.remaining reader) (O.contents out.old) (O.contents out.new) }
    // One worker starts no thread.
    ensures started { options.workers ≡ 1
        → IfErr result (λ fault. fault ≢ RunFault.ThreadNotStarted) }
{
    let seed = random_seed(rt)?;
    let whole = gather(rt, alloc, plan, options, seed, reader)?;
    write_whole_part(alloc, plan, whole, out)
}

/// Writes the part that a result is, and flushes it. It does so as a run to a part over the input
/// that the result is known to stand for, if not more lines are refused than the limit.
pub(crate) fn write_whole_part<O: Write>(
    alloc: Global,
    plan: &Plan,
    whole: Partial,
    out: &mut O,
) -> Result<Done, RunFault>
    ensures run { (limit : Option ℕ) (known : Option (List ℕ)) → IsWithin limit whole.refused
        → StandsForKnown plan.now known whole
        → IsPartialRun result limit plan.now.fields plan.now.query known
        (O.contents out.old) (O.contents out.new) }
    ensures started { IfErr result (λ fault. fault ≢ RunFault.ThreadNotStarted) }
{
    let done = Done {
        lines: whole.lines(),
        refused: whole.refused(),
    };
    let text = write_part(alloc, plan, whole)?;
    match put_and_flush(out, text.as_slice()) {
        Ok(()) => Ok(done),
        Err(_) => Err(RunFault::WritingPart),
    }
}
