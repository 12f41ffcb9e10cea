//! The result over an input, gathered without writing it: with ample memory, and with memory
//! refused.

use super::runs::{BY_D, By, COUNT, THREE, make_plan, plan_if_any};
use jlreport_cli::Options;
use jlreport_scan::{GatherFault, gather, gather_alone};
use query::Plan;
use std::alloc::Global;
use std::marker::Sync;
use std::sync::Wait;
use std::test::Fail;
use std::thread::Threads;
use tables::HashSeed;

/// The numbers of lines and of refused lines that a call gathers of an input.
fn gather_counts(
    rt: &(impl Threads + Wait + Sync),
    alloc: Global,
    (by, options): (By, Options),
    plan: &Plan,
    input: &[u8],
) -> Result<(u64, u64), GatherFault> {
    let whole = match by {
        By::Alone => gather_alone(alloc, plan, options, input)?,
        By::Workers(_) => gather(rt, alloc, plan, options, HashSeed::Fixed, input)?,
    };
    Ok((whole.lines(), whole.refused()))
}

/// The calls: alone, by one worker, and by one thread more.
const CALLS: [By; 3] = [By::Alone, By::Workers(1), By::Workers(2)];

/// A query, an input, a limit of refused lines, and what is answered.
type Row = (
    &'static str,
    &'static [u8],
    Option<u64>,
    Result<(u64, u64), GatherFault>,
);

const ROWS: [Row; 5] = [
    (COUNT, b"", None, Ok((0, 0))),
    (COUNT, b"\n", None, Ok((1, 1))),
    (BY_D, THREE, Some(0), Ok((3, 0))),
    (COUNT, b"\n[1]\n{}", Some(2), Ok((3, 2))),
    (
        COUNT,
        b"\n[1]\n{}",
        Some(1),
        Err(GatherFault::TooManyRefused(1)),
    ),
];

/// Whether a call may answer this where memory is refused.
fn is_refusal(by: By, met: Result<(u64, u64), GatherFault>) -> bool {
    match met {
        Ok(_) | Err(GatherFault::Reading | GatherFault::TooManyRefused(_)) => false,
        Err(GatherFault::OutOfMemory) => true,
        Err(GatherFault::ThreadNotStarted) => by == By::Workers(2),
    }
}

#[test]
fn gathers(rt: HostRuntime) {
    for (query, input, limit, wanted) in ROWS {
        let plan = make_plan(&rt, rt.alloc(), query);
        for by in CALLS {
            let asked = (by, by.options(&rt, 1, limit));
            let met = gather_counts(&rt, rt.alloc(), asked, &plan, input);
            assert!(rt; met == wanted, "{met:?}: {by:?}");
        }
        drop(plan);
    }
}

#[test]
fn refusal_of_gathering(rt: HostRuntime) {
    for (query, input, limit, wanted) in ROWS {
        if let Some(plan) = plan_if_any(rt.alloc(), query) {
            for by in CALLS {
                let asked = (by, by.options(&rt, 1, limit));
                let met = gather_counts(&rt, rt.alloc(), asked, &plan, input);
                assert!(rt; met == wanted || is_refusal(by, met), "{met:?}: {by:?}");
            }
            drop(plan);
        }
    }
}

#[test]
fn prints_gather_faults(rt: HostRuntime) -> Result<(), Fail> {
    let texts = [
        (GatherFault::Reading, "reading failed"),
        (GatherFault::OutOfMemory, "out of memory"),
        (
            GatherFault::ThreadNotStarted,
            "a thread could not be started",
        ),
        (GatherFault::TooManyRefused(3), "more than 3 refused lines"),
    ];
    for (fault, wanted) in texts {
        let printed = fault.to_string(rt.alloc())?;
        assert_eq!(rt; printed.as_str(), wanted);
    }
    Ok(())
}
