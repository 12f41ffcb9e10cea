//! Parts of shards, and their joins: what these write, and where a read or a write fails.

use super::runs::{BY_D, BY_D_REPORT, By, is_refusal, make_plan, plan_if_any};
use super::streams::{Pause, PauseReader, Sink};
use jlreport_cli::Options;
use jlreport_engine::{Done, JoinFault, RunFault, join_partial, run_join, run_partial};
use query::Plan;
use std::alloc::Global;
use std::io::ErrorKind;
use std::marker::Sync;
use std::process::Abort;
use std::random::RandomSource;
use std::sync::Wait;
use std::thread::Threads;

/// Two shards, and both as one input. A line of the second one is refused, and its last one has no
/// line feed.
const FIRST: &[u8] = b"{\"d\":\"x\",\"r\":\"n\",\"q\":5}\n{\"d\":\"x\",\"r\":null,\"q\":2}\n";

const SECOND: &[u8] = b"[1]\n{\"d\":\"y\",\"r\":\"n\"}";

const BOTH: &[u8] =
    b"{\"d\":\"x\",\"r\":\"n\",\"q\":5}\n{\"d\":\"x\",\"r\":null,\"q\":2}\n[1]\n{\"d\":\"y\",\"r\":\"n\"}\n";

/// The list of refused lines, and what is answered.
const REFUSED: &[u8] = b"line 3: not an object\n";

const DONE: Done = Done {
    lines: 4,
    refused: 1,
};

/// The part of an input.
fn part_of(
    rt: &(impl Abort + Threads + Wait + RandomSource + Sync),
    alloc: Global,
    (plan, options): (&Plan, Options),
    input: &[u8],
) -> Vec<u8> {
    let mut part = Vec::new(alloc);
    let met = run_partial(rt, alloc, plan, options, input, &mut part);
    assert!(rt; met.is_ok(), "{met:?}");
    part
}

/// The parts of the two shards, one behind the other.
fn parts(
    rt: &(impl Abort + Threads + Wait + RandomSource + Sync),
    alloc: Global,
    (plan, options): (&Plan, Options),
) -> Vec<u8> {
    let mut parts = part_of(rt, alloc, (plan, options), FIRST);
    let second = part_of(rt, alloc, (plan, options), SECOND);
    assert!(rt; parts.extend_from_slice(second.as_slice()).is_ok());
    parts
}

/// The report and the part of both shards, on the calling thread and by three workers.
#[test]
fn joins(rt: HostRuntime) {
    let plan = make_plan(&rt, rt.alloc(), BY_D);
    for workers in [1, 3] {
        let options = By::Workers(workers).options(&rt, 7, None);
        let given = parts(&rt, rt.alloc(), (&plan, options));
        let reader = PauseReader::whole(given.as_slice(), 5);
        let (mut out, mut err) = (Vec::new(rt.alloc()), Vec::new(rt.alloc()));
        let met = run_join(&rt, rt.alloc(), &plan, options, reader, &mut out, &mut err);
        assert!(rt; met == Ok(DONE), "{met:?}");
        assert!(rt; out.as_slice() == BY_D_REPORT && err.as_slice() == REFUSED);
        let reader = PauseReader::whole(given.as_slice(), 5);
        let mut part = Vec::new(rt.alloc());
        let met = join_partial(&rt, rt.alloc(), &plan, options, reader, &mut part);
        assert!(rt; met == Ok(DONE), "{met:?}");
        assert!(rt; part == part_of(&rt, rt.alloc(), (&plan, options), BOTH));
    }
    drop(plan);
}

/// The limit is that of the lines of both shards.
#[test]
fn limit_of_joins(rt: HostRuntime) {
    let plan = make_plan(&rt, rt.alloc(), BY_D);
    let free = By::Alone.options(&rt, 7, None);
    let given = parts(&rt, rt.alloc(), (&plan, free));
    let options = By::Alone.options(&rt, 7, Some(0));
    let (mut out, mut err) = (Vec::new(rt.alloc()), Vec::new(rt.alloc()));
    let reader = given.as_slice();
    let met = run_join(&rt, rt.alloc(), &plan, options, reader, &mut out, &mut err);
    assert!(rt;
        met == Err(JoinFault::Run(RunFault::TooManyRefused(0))),
        "{met:?}"
    );
    assert!(rt; out.is_empty() && err.is_empty());
    let met = run_partial(&rt, rt.alloc(), &plan, options, BOTH, &mut out);
    assert!(rt; met == Err(RunFault::TooManyRefused(0)), "{met:?}");
    assert!(rt; out.is_empty());
    drop(plan);
}

/// A reader of bytes that fails behind so many of them.
fn failing_behind<'a>(bytes: &'a [u8], len: usize) -> PauseReader<'a> {
    let (front, behind) = bytes.split_at(bytes.len().min(len));
    PauseReader {
        front,
        pause: Pause::Error(ErrorKind::Other),
        behind,
        at_once: 7,
    }
}

/// Nothing is written where a read fails, whichever it is.
#[test]
fn joins_that_are_not_read(rt: HostRuntime) {
    let plan = make_plan(&rt, rt.alloc(), BY_D);
    let options = By::Alone.options(&rt, 7, None);
    let given = parts(&rt, rt.alloc(), (&plan, options));
    let bytes = given.as_slice();
    let (mut out, mut err) = (Vec::new(rt.alloc()), Vec::new(rt.alloc()));
    for len in 0..bytes.len() {
        let reader = failing_behind(bytes, len);
        let met = run_join(&rt, rt.alloc(), &plan, options, reader, &mut out, &mut err);
        assert!(rt; met == Err(JoinFault::Run(RunFault::Reading)), "{met:?}");
        let reader = failing_behind(bytes, len);
        let met = join_partial(&rt, rt.alloc(), &plan, options, reader, &mut out);
        assert!(rt; met == Err(JoinFault::Run(RunFault::Reading)), "{met:?}");
        assert!(rt; out.is_empty() && err.is_empty());
    }
    drop(plan);
}

/// Nothing is written where the second part lacks its end.
#[test]
fn join_without_an_end(rt: HostRuntime) {
    let plan = make_plan(&rt, rt.alloc(), BY_D);
    let options = By::Alone.options(&rt, 7, None);
    let given = parts(&rt, rt.alloc(), (&plan, options));
    let front = &given.as_slice()[..given.len().min(300)];
    let (mut out, mut err) = (Vec::new(rt.alloc()), Vec::new(rt.alloc()));
    let met = run_join(&rt, rt.alloc(), &plan, options, front, &mut out, &mut err);
    match met {
        Err(JoinFault::Parts(fault)) => assert_eq!(rt; fault.part, 2),
        Ok(_) | Err(JoinFault::Run(_)) => panic!(rt; "another answer"),
    }
    assert!(rt; out.is_empty() && err.is_empty());
    drop(plan);
}

/// A writer that has room for so many bytes, takes two at once, and then fails, or fails where it
/// is flushed.
fn failing_sink(alloc: Global, room: usize, flushes: bool) -> Sink {
    Sink {
        room,
        at_once: 2,
        pause: Pause::Error(ErrorKind::BrokenPipe),
        flushes,
        taken: Vec::new(alloc),
    }
}

/// As much of the part of both shards is written as a writer has room for: of a run, and of a join.
fn assert_part_cut(
    rt: &(impl Abort + Threads + Wait + RandomSource + Sync),
    alloc: Global,
    (plan, options): (&Plan, Options),
    part: &[u8],
    room: usize,
    flushes: bool,
) {
    let mut out = failing_sink(alloc, room, flushes);
    let met = run_partial(rt, alloc, plan, options, BOTH, &mut out);
    assert!(rt; met == Err(RunFault::WritingPart), "{met:?}");
    assert!(rt; out.taken.as_slice() == &part[..part.len().min(room)]);
    let mut out = failing_sink(alloc, room, flushes);
    let met = join_partial(rt, alloc, plan, options, part, &mut out);
    assert!(rt;
        met == Err(JoinFault::Run(RunFault::WritingPart)),
        "{met:?}"
    );
    assert!(rt; out.taken.as_slice() == &part[..part.len().min(room)]);
}

/// A beginning of a part is written where a write fails, whichever it is, and the whole where the
/// flush fails.
#[test]
fn parts_that_are_not_written(rt: HostRuntime) {
    let plan = make_plan(&rt, rt.alloc(), BY_D);
    let options = By::Alone.options(&rt, 7, None);
    let part = part_of(&rt, rt.alloc(), (&plan, options), BOTH);
    for room in 0..part.len() {
        assert_part_cut(
            &rt,
            rt.alloc(),
            (&plan, options),
            part.as_slice(),
            room,
            true,
        );
    }
    assert_part_cut(
        &rt,
        rt.alloc(),
        (&plan, options),
        part.as_slice(),
        part.len(),
        false,
    );
    drop(plan);
}

/// What a join with these writers answers, and that these were given all there was room for of the
/// report and the list.
fn assert_join_cut(
    rt: &(impl Abort + Threads + Wait + RandomSource + Sync),
    alloc: Global,
    (plan, options): (&Plan, Options),
    part: &[u8],
    sinks: (Sink, Sink),
    fault: RunFault,
) {
    let (mut out, mut err) = sinks;
    let (report_room, list_room) = (out.room, err.room);
    let met = run_join(rt, alloc, plan, options, part, &mut out, &mut err);
    assert!(rt; met == Err(JoinFault::Run(fault)), "{met:?}");
    assert!(rt; out.taken.as_slice() == &BY_D_REPORT[..BY_D_REPORT.len().min(report_room)]);
    assert!(rt; err.taken.as_slice() == &REFUSED[..REFUSED.len().min(list_room)]);
}

/// A beginning of the report is written, and nothing of the list, where a write of the report
/// fails, whichever it is; and the report and a beginning of the list where one of the list fails.
#[test]
fn joins_that_are_not_written(rt: HostRuntime) {
    let plan = make_plan(&rt, rt.alloc(), BY_D);
    let options = By::Alone.options(&rt, 7, None);
    let part = part_of(&rt, rt.alloc(), (&plan, options), BOTH);
    let ample = BY_D_REPORT.len();
    for room in 0..ample {
        let sinks = (
            failing_sink(rt.alloc(), room, true),
            failing_sink(rt.alloc(), 0, true),
        );
        assert_join_cut(
            &rt,
            rt.alloc(),
            (&plan, options),
            part.as_slice(),
            sinks,
            RunFault::WritingReport,
        );
    }
    let sinks = (
        failing_sink(rt.alloc(), ample, false),
        failing_sink(rt.alloc(), 0, true),
    );
    assert_join_cut(
        &rt,
        rt.alloc(),
        (&plan, options),
        part.as_slice(),
        sinks,
        RunFault::WritingReport,
    );
    for room in 0..REFUSED.len() {
        let sinks = (
            failing_sink(rt.alloc(), ample, true),
            failing_sink(rt.alloc(), room, true),
        );
        assert_join_cut(
            &rt,
            rt.alloc(),
            (&plan, options),
            part.as_slice(),
            sinks,
            RunFault::WritingRefused,
        );
    }
    let sinks = (
        failing_sink(rt.alloc(), ample, true),
        failing_sink(rt.alloc(), REFUSED.len(), false),
    );
    assert_join_cut(
        &rt,
        rt.alloc(),
        (&plan, options),
        part.as_slice(),
        sinks,
        RunFault::WritingRefused,
    );
    drop(plan);
}

/// The most bytes of the part of both shards.
const ROOM: usize = 1024;

/// The bytes that were written into memory of zeros.
fn written(room: &[u8]) -> &[u8] {
    let len = room.iter().position(|byte| *byte == 0).unwrap_or(0);
    &room[..len]
}

/// Where memory is refused the join of the part of both shards says so and nothing is written, else
/// the report is, or the part again. It takes no memory but the join's.
fn assert_joined(
    rt: &(impl Abort + Threads + Wait + RandomSource + Sync),
    alloc: Global,
    (plan, options): (&Plan, Options),
    part: &[u8],
) {
    let (mut room, mut list) = ([0u8; 128], [0u8; 128]);
    let (mut out, mut err) = (room.as_mut_slice(), list.as_mut_slice());
    match run_join(rt, alloc, plan, options, part, &mut out, &mut err) {
        Ok(done) => {
            assert!(rt; done == DONE);
            assert!(rt; written(&room) == BY_D_REPORT && written(&list) == REFUSED);
        }
        Err(fault) => {
            assert!(rt; fault == JoinFault::Run(RunFault::OutOfMemory), "{fault:?}");
            assert!(rt; room[0] == 0 && list[0] == 0);
        }
    }
    let mut again = [0u8; ROOM];
    let mut out = again.as_mut_slice();
    match join_partial(rt, alloc, plan, options, part, &mut out) {
        Ok(done) => {
            assert!(rt; done == DONE);
            assert!(rt; written(&again) == part);
        }
        Err(fault) => {
            assert!(rt; fault == JoinFault::Run(RunFault::OutOfMemory), "{fault:?}");
            assert!(rt; again[0] == 0);
        }
    }
}

/// For the loop that refuses each allocation in turn.
#[test]
fn refusal_of_parts_and_joins(rt: HostRuntime) {
    for workers in [1, 2] {
        let by = By::Workers(workers);
        let options = by.options(&rt, 7, None);
        if let Some(plan) = plan_if_any(rt.alloc(), BY_D) {
            let mut room = [0u8; ROOM];
            let mut out = room.as_mut_slice();
            match run_partial(&rt, rt.alloc(), &plan, options, BOTH, &mut out) {
                Ok(done) => {
                    assert!(rt; done == DONE);
                    assert_joined(&rt, rt.alloc(), (&plan, options), written(&room));
                }
                Err(fault) => {
                    assert!(rt; is_refusal(by, fault), "{fault:?}");
                    assert!(rt; room[0] == 0);
                }
            }
            drop(plan);
        }
    }
}
