//! Joins: from the parts that a reader gives to the report of all their inputs, or to the part of
//! these.

ghost use Rattle.std.specs.Prelude.{◌≡◌, ◌≢◌, IfErr, IfSome, OnOk};
ghost use Rattle.parts.specs.Joining.{IsReadOf};
ghost use Rattle.semantics.specs.Joins.{IsJoin, IsPartialJoin};
ghost use Rattle.semantics.specs.Run.{IsWithin};
ghost use Rattle.jlreport_engine.specs.Inside.Joined.{IsJoined, IsOver, fault_of_parts};

use crate::partial::write_whole_part;
use crate::runs::write_whole;
use crate::seeds::random_seed;
use jlreport_cli::Options;
use parts::{PartsRefusal, read_parts};
use query::Plan;
use semantics::{Done, JoinFault, RunFault};
use std::alloc::Global;
use std::io::{Read, Write};
use std::marker::{Send, Sync};
use std::random::RandomSource;
use std::thread::Threads;
use tables::{Executor, HashSeed, Parallel, Partial};

/// Joins the parts that a reader gives, one behind the other: writes the report over all their
/// inputs to `out` and flushes it, and then the list of refused lines to `err` and flushes it. This
/// is what `run` writes of the inputs, one behind the other, each with its last line ended; the
/// lines of each part are numbered behind those of the parts before it. As many threads as there
/// are workers, the calling one among them, put the groups together and make the report. It answers
/// how many lines and how many refused lines the inputs have. Nothing is written before all parts
/// were read.
///
/// Example: with the plan of `SELECT SUM(q) AS s FROM lines` under `q:int`, and as the input the
/// part of the one line `{"q":5}` and behind it that of `{"q":2}`,
/// `run_join(&rt, alloc, &plan, options, input, &mut out, &mut err)`, where it is done, answers
/// `Done { lines: 2, refused: 0 }`; the lines `s` and `7` were written to `out`, and nothing to
/// `err`.
///
/// # Errors
///
/// `Parts` where what was read is no parts of the columns and the query, one behind the other, with
/// the first fault: then nothing was written. Of inputs it refuses the parts only where there is
/// none, where the inputs have 2^63 lines or more together, or where the columns or the canonical
/// query have more than 1,000,000 bytes as strings of JSON. `Run` where the join fails as a run
/// does: by `Reading`, `OutOfMemory` or `TooManyRefused`, and nothing was written; by
/// `WritingReport`, and a beginning of the report was written, and nothing of the list; or by
/// `WritingRefused`, and the report was written, and a beginning of the list. It never answers
/// `ThreadNotStarted`.
pub fn run_join<R: Read + Drop, O: Write, E: Write, H: Threads + RandomSource + Sync>(
    rt: &H,
    alloc: Global,
    plan: &Plan,
    options: Options,
    reader: R,
    out: &mut O,
    err: &mut E,
) -> Result<Done, JoinFault>
    ensures join { IsJoin result options.max_refused plan.now.fields plan.now.query
        (R.remaining reader) (O.contents out.old) (O.contents out.new)
        (E.contents err.old) (E.contents err.new) }
    ensures reads { IfSome (R.remaining reader) (λ bytes.
        IsReadOf plan.now.fields plan.now.query bytes result) }
    ensures started { IfErr result (λ fault. fault ≢ JoinFault.Run RunFault.ThreadNotStarted) }
{
    let seed = seed_of_join(rt)?;
    let parallel = Parallel {
        rt,
        workers: options.workers(),
        seed,
    };
    let whole = join_within(alloc, plan, options, &parallel, reader)?;
    write_whole(&parallel, alloc, plan, whole, out, err).map_err(JoinFault::Run)
}

/// Joins the parts that a reader gives, one behind the other, to one: writes the part of all their
/// inputs to `out` and flushes it. This is what `run_partial` writes of the inputs, one behind the
/// other, each with its last line ended. As many threads as there are workers, the calling one
/// among them, put the groups together. It answers how many lines and how many refused lines the
/// inputs have. Nothing is written before all parts were read.
///
/// Example: with the plan of `SELECT SUM(q) AS s FROM lines` under `q:int`, and as the input the
/// part of the one line `{"q":5}` and behind it that of `{"q":2}`,
/// `join_partial(&rt, alloc, &plan, options, input, &mut out)`, where it is done, answers
/// `Done { lines: 2, refused: 0 }`, and the part of both lines was written to `out`.
///
/// # Errors
///
/// `Parts` where what was read is no parts of the columns and the query, one behind the other, with
/// the first fault: then nothing was written. It refuses parts of inputs only where `run_join` may.
/// `Run` where the join fails as a run to a part does: by `Reading`, `OutOfMemory` or
/// `TooManyRefused`, and nothing was written; or by `WritingPart`, and a beginning of the part was
/// written. It never answers `ThreadNotStarted`.
pub fn join_partial<R: Read + Drop, O: Write, H: Threads + RandomSource + Sync>(
    rt: &H,
    alloc: Global,
    plan: &Plan,
    options: Options,
    reader: R,
    out: &mut O,
) -> Result<Done, JoinFault>
    ensures join { IsPartialJoin result options.max_refused plan.now.fields plan.now.query
        (R.remaining reader) (O.contents out.old) (O.contents out.new) }
    ensures reads { IfSome (R.remaining reader) (λ bytes.
        IsReadOf plan.now.fields plan.now.query bytes result) }
    ensures started { IfErr result (λ fault. fault ≢ JoinFault.Run RunFault.ThreadNotStarted) }
{
    let seed = seed_of_join(rt)?;
    let parallel = Parallel {
        rt,
        workers: options.workers(),
        seed,
    };
    let whole = join_within(alloc, plan, options, &parallel, reader)?;
    write_whole_part(alloc, plan, whole, out).map_err(JoinFault::Run)
}

/// The seed of a join.
fn seed_of_join<H: RandomSource>(rt: &H) -> Result<HashSeed, JoinFault>
    ensures { IfErr result (λ fault. fault ≡ JoinFault.Run RunFault.Reading) }
{
    match random_seed(rt) {
        Ok(seed) => Ok(seed),
        Err(fault) => Err(JoinFault::Run(fault)),
    }
}

/// The result over all inputs whose parts a reader gives, if not more of their lines are refused
/// than the options allow.
fn join_within<R: Read + Drop, X: Executor>(
    alloc: Global,
    plan: &Plan,
    options: Options,
    executor: &X,
    reader: R,
) -> Result<Partial, JoinFault>
    requires ready { X.ready executor.now }
    ensures { IsJoined result options.max_refused plan.now (R.remaining reader) }
{
    let whole = read_parts(alloc, plan, executor, reader).map_err(fault_of_parts)?;
    check_limit(options, whole.refused()).map_err(JoinFault::Run)?;
    Ok(whole)
}

/// The fault of a join that a refusal of parts is.
fn fault_of_parts(refusal: PartsRefusal) -> JoinFault
    ensures { result ≡ fault_of_parts refusal }
{
    match refusal {
        PartsRefusal::Fault(fault) => JoinFault::Parts(fault),
        PartsRefusal::Reading => JoinFault::Run(RunFault::Reading),
        PartsRefusal::OutOfMemory => JoinFault::Run(RunFault::OutOfMemory),
    }
}

/// Nothing, where so many refused lines are not more than may be; else the fault that says so.
fn check_limit(options: Options, refused: u64) -> Result<(), RunFault>
    ensures within { OnOk result (IsWithin options.max_refused refused) }
    ensures over { IfErr result (IsOver options.max_refused refused) }
{
    match options.max_refused() {
        Some(most) if refused > most => Err(RunFault::TooManyRefused(most)),
        Some(_) | None => Ok(()),
    }
}
