//! Runs over readers and writers that are slow, are interrupted or fail, in one round and in
//! several, alone and on threads, and with memory refused.

use super::streams::{Pause, PauseReader, Sink};
use jlreport_cli::Options;
use jlreport_engine::{Done, RunFault, run, run_alone};
use query::{Plan, check, parse};
use std::alloc::Global;
use std::io::{ErrorKind, Read, Write};
use std::marker::{Send, Sync};
use std::process::Abort;
use std::random::RandomSource;
use std::sync::Wait;
use std::test::Fail;
use std::thread::Threads;
use values::Schema;

/// Three good lines.
pub const THREE: &[u8] =
    b"{\"d\":\"x\",\"r\":\"n\",\"q\":5}\n{\"d\":\"x\",\"r\":null,\"q\":2}\n{\"d\":\"y\",\"r\":\"n\"}\n";

/// The columns of these lines.
pub const COLUMNS: &str = "d:text,r:text,q:int";

/// A query on them, and its report.
pub const BY_D: &str = "SELECT d, COUNT(*) AS n, SUM(q) AS s FROM lines GROUP BY d";

pub const BY_D_REPORT: &[u8] = b"d,n,s\nx,2,7\ny,1,\\N\n";

/// Four lines that are refused where `q` is a whole number, and the list of them.
const FOUR_BAD: &[u8] = b"\n[1]\n{\"q\":true}\n{\"q\":9223372036854775808}\n";

const FOUR_REFUSED: &[u8] =
    b"line 1: not JSON\nline 2: not an object\nline 3: bad value in column q\nline 4: bad value in column q\n";

/// A query that counts all records, and its report over none.
pub const COUNT: &str = "SELECT COUNT(*) AS n FROM lines";

const COUNT_NONE: &[u8] = b"n\n0\n";

/// An input under a query, and what is written of it.
#[derive(Clone, Copy)]
pub struct Case<'a> {
    pub query: &'a str,
    pub input: &'a [u8],
    pub report: &'a [u8],
    pub refused: &'a [u8],
    pub done: Done,
}

/// Good lines in groups.
const GROUPED: Case<'static> = Case {
    query: BY_D,
    input: THREE,
    report: BY_D_REPORT,
    refused: b"",
    done: Done {
        lines: 3,
        refused: 0,
    },
};

/// Lines of which each is refused.
const REFUSED: Case<'static> = Case {
    query: COUNT,
    input: FOUR_BAD,
    report: COUNT_NONE,
    refused: FOUR_REFUSED,
    done: Done {
        lines: 4,
        refused: 4,
    },
};

/// The rows of several grouping sets.
const ROLLED_UP: Case<'static> = Case {
    query: "SELECT d, r, GROUPING(d, r) AS g, COUNT(DISTINCT q) AS k FROM lines GROUP BY ROLLUP (d, r)",
    input: THREE,
    report: b"d,r,g,k\nx,n,0,1\nx,\\N,0,1\ny,n,0,0\nx,\\N,1,2\ny,\\N,1,0\n\\N,\\N,3,2\n",
    refused: b"",
    done: Done {
        lines: 3,
        refused: 0,
    },
};

/// The least size of a round.
pub const LEAST_ROUND: usize = 1_048_578;

/// Which call runs: `run_alone`, or `run` with so many workers.
#[derive(Clone, Copy, Debug, PartialEq, Eq)]
pub enum By {
    Alone,
    Workers(usize),
}

impl By {
    /// The options of a run by this call, in pieces of a size, under a limit of refused lines. It
    /// reads in rounds of the least size, and so takes little memory.
    pub fn options(self, rt: &impl Abort, piece: usize, limit: Option<u64>) -> Options {
        let workers = match self {
            By::Alone => 4,
            By::Workers(workers) => workers,
        };
        let options = Options::new(workers, piece, limit).expect(rt, "the numbers are in range");
        options
            .with_round(LEAST_ROUND)
            .expect(rt, "a round of the least size")
    }
}

/// The plan of a query under the columns, where memory is granted.
pub fn plan_if_any(alloc: Global, query: &str) -> Option<Plan> {
    let query = parse(alloc, query).ok()?;
    match Schema::parse(alloc, COLUMNS) {
        Ok(schema) => check(alloc, query, schema).ok(),
        Err(_) => {
            drop(query);
            None
        }
    }
}

/// The plan of a query under the columns.
pub fn make_plan(rt: &impl Abort, alloc: Global, query: &str) -> Plan {
    plan_if_any(alloc, query).expect(rt, "a plan")
}

// A query or a plan is given up by a call: a drop in place is proved in place, for each form of a
// query.

/// The answer of a run by one of the calls.
fn answer<R: Read + Drop + Send, O: Write, E: Write>(
    rt: &(impl Threads + Wait + RandomSource + Sync),
    alloc: Global,
    (by, options): (By, Options),
    plan: &Plan,
    reader: R,
    out: &mut O,
    err: &mut E,
) -> Result<Done, RunFault> {
    match by {
        By::Alone => run_alone(alloc, plan, options, reader, out, err),
        By::Workers(_) => run(rt, alloc, plan, options, reader, out, err),
    }
}

/// Asserts that a run of a case over a reader is done, and what it has written.
pub fn assert_done(
    rt: &(impl Abort + Threads + Wait + RandomSource + Sync),
    alloc: Global,
    asked: (By, Options),
    (plan, case): (&Plan, &Case<'_>),
    reader: PauseReader<'_>,
) {
    let mut out = Vec::new(alloc);
    let mut err = Vec::new(alloc);
    let met = answer(rt, alloc, asked, plan, reader, &mut out, &mut err);
    assert!(rt; met == Ok(case.done), "{met:?}: {asked:?}");
    assert!(rt; out.as_slice() == case.report, "{asked:?}");
    assert!(rt; err.as_slice() == case.refused, "{asked:?}");
}

/// The calls, with the numbers of workers.
const CALLS: [By; 6] = [
    By::Alone,
    By::Workers(1),
    By::Workers(2),
    By::Workers(3),
    By::Workers(4),
    By::Workers(64),
];

/// Sizes of pieces, each with the most bytes that a read gives.
const SIZES: [(usize, usize); 5] = [
    (1, 7),
    (7, 2),
    (20, 1),
    (1_048_576, 1_000_000),
    (67_108_864, 1_000_000),
];

/// Asserts that a case is done by each call, in pieces of each size. A read that gives no byte is
/// the end: what the reader would give behind it is not read.
fn assert_done_by_all(
    rt: &(impl Abort + Threads + Wait + RandomSource + Sync),
    alloc: Global,
    (plan, case): (&Plan, &Case<'_>),
) {
    for by in CALLS {
        for (piece, at_once) in SIZES {
            let reader = PauseReader {
                front: case.input,
                pause: Pause::Nothing,
                behind: b"no line\n",
                at_once,
            };
            let options = by.options(rt, piece, None);
            assert_done(rt, alloc, (by, options), (plan, case), reader);
        }
    }
}

#[test]
fn slow_readers(rt: HostRuntime) {
    for case in [GROUPED, REFUSED, ROLLED_UP] {
        let plan = make_plan(&rt, rt.alloc(), case.query);
        assert_done_by_all(&rt, rt.alloc(), (&plan, &case));
        drop(plan);
    }
}

/// Asserts that nothing is written where a read fails behind some bytes, though the next would not.
fn assert_not_read(
    rt: &(impl Abort + Threads + Wait + RandomSource + Sync),
    alloc: Global,
    by: By,
    (plan, case): (&Plan, &Case<'_>),
    (count, kind): (usize, ErrorKind),
) {
    let mut out = Vec::new(alloc);
    let mut err = Vec::new(alloc);
    let (front, behind) = case.input.split_at(count.min(case.input.len()));
    let reader = PauseReader {
        front,
        pause: Pause::Error(kind),
        behind,
        at_once: 7,
    };
    let asked = (by, by.options(rt, 1, None));
    let met = answer(rt, alloc, asked, plan, reader, &mut out, &mut err);
    let is_met = met == Err(RunFault::Reading);
    assert!(rt; is_met, "{met:?}: {by:?}, {kind:?} behind {count} bytes");
    assert!(rt; out.is_empty() && err.is_empty());
}

/// Asserts so of each read in turn, the one that would give the end among them.
fn assert_none_read(
    rt: &(impl Abort + Threads + Wait + RandomSource + Sync),
    alloc: Global,
    (by, kind): (By, ErrorKind),
    (plan, case): (&Plan, &Case<'_>),
) {
    for count in 0..case.input.len() + 1 {
        assert_not_read(rt, alloc, by, (plan, case), (count, kind));
    }
}

/// The kinds of failure of a read or a write. One that is interrupted is one that failed.
const KINDS: [ErrorKind; 2] = [ErrorKind::BrokenPipe, ErrorKind::Interrupted];

#[test]
fn readers_that_fail(rt: HostRuntime) {
    for case in [GROUPED, REFUSED] {
        let plan = make_plan(&rt, rt.alloc(), case.query);
        for kind in KINDS {
            let asked = (&plan, &case);
            assert_none_read(&rt, rt.alloc(), (By::Alone, kind), asked);
            assert_none_read(&rt, rt.alloc(), (By::Workers(2), kind), asked);
        }
        drop(plan);
    }
}

/// A writer that takes so many bytes, two at most a call, and then pauses, or whose flush fails
/// behind them.
fn sink(alloc: Global, room: usize, pause: Pause) -> Sink {
    Sink {
        room,
        at_once: 2,
        pause,
        flushes: false,
        taken: Vec::new(alloc),
    }
}

/// Asserts that a run whose report is not written leaves a beginning of it, and nothing of the
/// list.
fn assert_report_cut(
    rt: &(impl Abort + Threads + Wait + RandomSource + Sync),
    alloc: Global,
    by: By,
    (plan, case): (&Plan, &Case<'_>),
    (room, pause): (usize, Pause),
) {
    let mut out = sink(alloc, room, pause);
    let mut err = Vec::new(alloc);
    let asked = (by, by.options(rt, 1, None));
    let met = answer(rt, alloc, asked, plan, case.input, &mut out, &mut err);
    let is_met = met == Err(RunFault::WritingReport);
    assert!(rt; is_met, "{met:?}: {by:?}, {pause:?} behind {room} bytes");
    assert!(rt; out.taken.as_slice() == &case.report[..room.min(case.report.len())]);
    assert!(rt; err.is_empty());
}

/// Asserts that a run whose list is not written leaves the report, and a beginning of the list.
fn assert_list_cut(
    rt: &(impl Abort + Threads + Wait + RandomSource + Sync),
    alloc: Global,
    by: By,
    (plan, case): (&Plan, &Case<'_>),
    (room, pause): (usize, Pause),
) {
    let mut out = Vec::new(alloc);
    let mut err = sink(alloc, room, pause);
    let asked = (by, by.options(rt, 1, None));
    let met = answer(rt, alloc, asked, plan, case.input, &mut out, &mut err);
    let is_met = met == Err(RunFault::WritingRefused);
    assert!(rt; is_met, "{met:?}: {by:?}, {pause:?} behind {room} bytes");
    assert!(rt; out.as_slice() == case.report);
    assert!(rt; err.taken.as_slice() == &case.refused[..room.min(case.refused.len())]);
}

/// What a writer may do in place of taking bytes. A write that takes none is one that failed.
const PAUSES: [Pause; 3] = [
    Pause::Nothing,
    Pause::Error(ErrorKind::BrokenPipe),
    Pause::Error(ErrorKind::Interrupted),
];

/// Asserts so of each write in turn, though the next would not fail, and behind all of them of the
/// flush.
fn assert_each_cut(
    rt: &(impl Abort + Threads + Wait + RandomSource + Sync),
    alloc: Global,
    (by, pause): (By, Pause),
    (plan, case): (&Plan, &Case<'_>),
) {
    for room in 0..case.report.len() + 1 {
        assert_report_cut(rt, alloc, by, (plan, case), (room, pause));
    }
    for room in 0..case.refused.len() + 1 {
        assert_list_cut(rt, alloc, by, (plan, case), (room, pause));
    }
}

#[test]
fn writers_that_fail(rt: HostRuntime) {
    for case in [GROUPED, REFUSED] {
        let plan = make_plan(&rt, rt.alloc(), case.query);
        for pause in PAUSES {
            let asked = (&plan, &case);
            assert_each_cut(&rt, rt.alloc(), (By::Alone, pause), asked);
            assert_each_cut(&rt, rt.alloc(), (By::Workers(2), pause), asked);
        }
        drop(plan);
    }
}

/// Asserts that more lines are refused than the options allow, and that nothing is written.
pub fn assert_too_many(
    rt: &(impl Abort + Threads + Wait + RandomSource + Sync),
    alloc: Global,
    (by, options): (By, Options),
    plan: &Plan,
    reader: PauseReader<'_>,
) {
    let mut out = Vec::new(alloc);
    let mut err = Vec::new(alloc);
    let limit = options.max_refused().expect(rt, "a limit");
    let asked = (by, options);
    let met = answer(rt, alloc, asked, plan, reader, &mut out, &mut err);
    let is_met = met == Err(RunFault::TooManyRefused(limit));
    assert!(rt; is_met, "{met:?}: {asked:?}");
    assert!(rt; out.is_empty() && err.is_empty());
}

/// Asserts that the limit decides alone: again and again, since schedules differ.
fn assert_limited(
    rt: &(impl Abort + Threads + Wait + RandomSource + Sync),
    alloc: Global,
    (by, piece): (By, usize),
    plan: &Plan,
) {
    let less = (by, by.options(rt, piece, Some(3)));
    let enough = (by, by.options(rt, piece, Some(4)));
    for _ in 0..50 {
        let reader = PauseReader::whole(REFUSED.input, 7);
        assert_too_many(rt, alloc, less, plan, reader);
        let reader = PauseReader::whole(REFUSED.input, 7);
        assert_done(rt, alloc, enough, (plan, &REFUSED), reader);
    }
}

/// The limit decides alone, also where workers stop early.
#[test]
fn limits(rt: HostRuntime) {
    let plan = make_plan(&rt, rt.alloc(), REFUSED.query);
    for workers in [1, 2, 64] {
        assert_limited(&rt, rt.alloc(), (By::Workers(workers), 1), &plan);
        assert_limited(&rt, rt.alloc(), (By::Workers(workers), 1_048_576), &plan);
    }
    drop(plan);
}

#[test]
fn prints_faults(rt: HostRuntime) -> Result<(), Fail> {
    let texts = [
        (RunFault::Reading, "reading failed"),
        (RunFault::OutOfMemory, "out of memory"),
        (RunFault::ThreadNotStarted, "a thread could not be started"),
        (RunFault::TooManyRefused(3), "more than 3 refused lines"),
        (RunFault::WritingReport, "writing the report failed"),
        (RunFault::WritingRefused, "writing the refused lines failed"),
        (RunFault::WritingPart, "writing the part failed"),
    ];
    for (fault, wanted) in texts {
        let printed = fault.to_string(rt.alloc())?;
        assert_eq!(rt; printed.as_str(), wanted);
    }
    Ok(())
}

/// Whether a call may answer this where memory is refused: the memory fault, or that a thread was
/// not started where it starts threads.
pub fn is_refusal(by: By, fault: RunFault) -> bool {
    match by {
        By::Alone | By::Workers(1) => fault == RunFault::OutOfMemory,
        By::Workers(_) => fault == RunFault::OutOfMemory || fault == RunFault::ThreadNotStarted,
    }
}

/// Where memory is refused the answer says so and nothing is written, else the report is. It takes
/// no memory but the run's.
fn assert_answered(
    rt: &(impl Abort + Threads + Wait + RandomSource + Sync),
    alloc: Global,
    (by, options): (By, Options),
    (plan, case): (&Plan, &Case<'_>),
) {
    let (mut room, mut list) = ([0u8; 128], [0u8; 128]);
    let (mut out, mut err) = (room.as_mut_slice(), list.as_mut_slice());
    let asked = (by, options);
    match answer(rt, alloc, asked, plan, case.input, &mut out, &mut err) {
        Ok(done) => {
            assert!(rt; done == case.done);
            assert!(rt; room.starts_with(case.report) && list.starts_with(case.refused));
            assert!(rt; room[case.report.len().min(127)] == 0);
            assert!(rt; list[case.refused.len().min(127)] == 0);
        }
        Err(fault) => {
            assert!(rt; is_refusal(by, fault), "{fault:?}");
            assert!(rt; room[0] == 0 && list[0] == 0);
        }
    }
}

/// Asserts so of a run that is given a plan, where there is memory for one.
pub fn assert_run_or_refused(
    rt: &(impl Abort + Threads + Wait + RandomSource + Sync),
    alloc: Global,
    asked: (By, Options),
    case: &Case<'_>,
) {
    if let Some(plan) = plan_if_any(alloc, case.query) {
        assert_answered(rt, alloc, asked, (&plan, case));
        drop(plan);
    }
}

#[test]
fn refusal_of_run_alone(rt: HostRuntime) {
    let asked = (By::Alone, By::Alone.options(&rt, 1, None));
    for case in [GROUPED, REFUSED, ROLLED_UP] {
        assert_run_or_refused(&rt, rt.alloc(), asked, &case);
    }
}

#[test]
fn refusal_of_run(rt: HostRuntime) {
    for workers in [1, 2, 4] {
        let by = By::Workers(workers);
        let asked = (by, by.options(&rt, 1, None));
        for case in [GROUPED, REFUSED, ROLLED_UP] {
            assert_run_or_refused(&rt, rt.alloc(), asked, &case);
        }
    }
}
