//! A run: from a reader to the report and the list of refused lines.

ghost use Rattle.std.specs.Prelude.{◌≡◌, ◌≢◌, ℕ, List, Option, IfErr, IfOk};
ghost use Rattle.tables.specs.Partials.{StandsForInput};
ghost use Rattle.tables.specs.Sound.{IsSoundUnder};
ghost use Rattle.semantics.specs.Run.{IsRun, IsWithin, refusals, report};
ghost use Rattle.report.specs.Report.{refusals_of};
ghost use Rattle.jlreport_engine.specs.Inside.Run.{StandsForKnown};

use crate::seeds::random_seed;
use crate::writer::{list_buffer, put_both};
use jlreport_cli::Options;
use jlreport_scan::{gather, gather_alone};
use query::Plan;
use report::{arranged_law, report_on};
use semantics::{Done, RunFault};
use std::alloc::{AllocError, Global};
use std::io::{Read, Write};
use std::marker::{Send, Sync};
use std::random::RandomSource;
use std::sync::Wait;
use std::thread::Threads;
use tables::{Executor, Groups, Parallel, Partial, Serial, sound_law};

/// What is written of an input, and all the memory that it takes to write it.
#[derive(Drop)]
struct Texts {
    /// The report.
    report: Vec<u8>,
    /// The groups, and the refused lines: the memory is given back once all is written, so that
    /// nobody waits for that.
    groups: Groups,
    /// What the list of refused lines is written through.
    buffer: Vec<u8>,
}

/// Answers the query of a plan over what a reader gives, by as many threads as there are workers,
/// the calling one among them: writes the report to `out` and flushes it, and then the list of
/// refused lines to `err` and flushes it. What is written does not depend on the number of workers,
/// on the size of a piece or on which thread works on which piece. It answers how many lines and
/// how many refused lines there are. Nothing is written before all of the input was read.
///
/// Where there are several workers, one thread more may read on meanwhile. With one worker no
/// thread is started.
///
/// Example: with the plan of `SELECT SUM(q) AS s FROM lines` under `q:int`, and the one line
/// `{"q":5}` as the input, `run(&rt, alloc, &plan, options, input, &mut out, &mut err)`, where it
/// is done, answers `Done { lines: 1, refused: 0 }`; the lines `s` and `5` were written to `out`,
/// and nothing to `err`.
///
/// # Errors
///
/// `Reading` where a read fails, the system gives no random bytes or the input has 2^63 bytes or
/// more, `OutOfMemory` where memory runs out, `ThreadNotStarted` where a thread cannot be started,
/// which one worker never answers, `TooManyRefused` where more lines are refused than the options
/// allow: then nothing was written. `WritingReport` where a write or the flush of the report fails:
/// then a beginning of it was written, and nothing of the list. `WritingRefused` where a write or
/// the flush of the list fails: then the report was written, and a beginning of the list.
pub fn run<R: Read + Drop + Send, O: Write, E: Write, H: Threads + Wait + RandomSource + Sync>(
    rt: &H,
    alloc: Global,
    plan: &Plan,
    options: Options,
    reader: R,
    out: &mut O,
    err: &mut E,
) -> Result<Done, RunFault>
    ensures run { IsRun result options.max_refused plan.now.fields plan.now.query
        (R.remaining reader) (O.contents out.old) (O.contents out.new)
        (E.contents err.old) (E.contents err.new) }
    // One worker starts no thread.
    ensures started { options.workers ≡ 1
        → IfErr result (λ fault. fault ≢ RunFault.ThreadNotStarted) }
{
    let seed = random_seed(rt)?;
    let whole = gather(rt, alloc, plan, options, seed, reader)?;
    sound_law();
    let parallel = Parallel {
        rt,
        workers: options.workers(),
        seed,
    };
    write_whole(&parallel, alloc, plan, whole, out, err)
}

/// Does what `run` does on the calling thread, without a thread of its own. The number of workers
/// is not looked at.
///
/// Example: with the plan of `SELECT COUNT(*) AS n FROM lines`, and an input without a byte,
/// `run_alone(alloc, &plan, options, input, &mut out, &mut err)`, where it is done, answers
/// `Done { lines: 0, refused: 0 }`; the lines `n` and `0` were written to `out`, and nothing to
/// `err`.
///
/// # Errors
///
/// Those of `run`, but never `ThreadNotStarted`.
pub fn run_alone<R: Read + Drop, O: Write, E: Write>(
    alloc: Global,
    plan: &Plan,
    options: Options,
    reader: R,
    out: &mut O,
    err: &mut E,
) -> Result<Done, RunFault>
    ensures run { IsRun result options.max_refused plan.now.fields plan.now.query
        (R.remaining reader) (O.contents out.old) (O.contents out.new)
        (E.contents err.old) (E.contents err.new) }
    ensures started { IfErr result (λ fault. fault ≢ RunFault.ThreadNotStarted) }
{
    let whole = gather_alone(alloc, plan, options, reader)?;
    sound_law();
    write_whole(&Serial, alloc, plan, whole, out, err)
}

/// Writes the report and the list of refused lines by a result. It does so as a run over the input
/// that the result is known to stand for, if not more lines are refused than the limit.
pub(crate) fn write_whole<X: Executor, O: Write, E: Write>(
    executor: &X,
    alloc: Global,
    plan: &Plan,
    whole: Partial,
    out: &mut O,
    err: &mut E,
) -> Result<Done, RunFault>
    requires ready { X.ready executor.now }
    requires sound { IsSoundUnder plan.now whole }
    ensures run { (limit : Option ℕ) (known : Option (List ℕ)) → IsWithin limit whole.refused
        → StandsForKnown plan.now known whole
        → IsRun result limit plan.now.fields plan.now.query known
        (O.contents out.old) (O.contents out.new) (E.contents err.old) (E.contents err.new) }
    ensures started { IfErr result (λ fault. fault ≢ RunFault.ThreadNotStarted) }
{
    let done = Done {
        lines: whole.lines(),
        refused: whole.refused(),
    };
    let Texts {
        report,
        groups,
        mut buffer,
    } = texts_of(executor, alloc, plan, whole)?;
    let refused = groups.refused();
    if let Err(fault) = put_both(
        out,
        report.as_slice(),
        err,
        &mut buffer,
        plan.schema(),
        refused,
    ) {
        return Err(fault);
    }
    // The two large pieces of memory go back before the many small ones: a large one has the
    // allocator look at each small one that lies with it.
    drop(report);
    drop(buffer);
    groups.give_back(executor, alloc);
    Ok(done)
}

/// What is written of an input, by the result over it.
fn texts_of<X: Executor>(
    executor: &X,
    alloc: Global,
    plan: &Plan,
    partial: Partial,
) -> Result<Texts, AllocError>
    requires ready { X.ready executor.now }
    requires sound { IsSoundUnder plan.now partial }
    ensures report { IfOk result (λ texts. (input : List ℕ)
        → StandsForInput plan.now partial input
        → texts.report.items ≡ report plan.now.fields plan.now.query input) }
    ensures refused { IfOk result (λ texts. (input : List ℕ)
        → StandsForInput plan.now partial input
        → refusals_of plan.now.fields texts.groups.refused ≡ refusals plan.now.fields input) }
{
    let groups = partial.finish_by(executor, plan)?;
    let report = report_on(executor, alloc, &groups, plan)?;
    let buffer = list_buffer(alloc, plan.schema(), groups.refused().len())?;
    // The groups came in the order of a walk over a table, which the report does not show.
    arranged_law();
    Ok(Texts {
        report,
        groups,
        buffer,
    })
}
