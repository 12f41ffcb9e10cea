//! Runs that read their input in several rounds write what they write of one round: the numbers of
//! lines run on, and the limit of refused lines is one limit for all rounds.

use super::runs::{
    BY_D, By, Case, LEAST_ROUND, assert_done, assert_run_or_refused, assert_too_many, make_plan,
};
use super::streams::{Pause, PauseReader};
use jlreport_cli::Options;
use jlreport_engine::Done;
use std::alloc::{AllocError, Global};
use std::io::ErrorKind;
use std::marker::Sync;
use std::process::Abort;
use std::random::RandomSource;
use std::sync::Wait;
use std::test::Fail;
use std::thread::Threads;

/// Sizes of rounds, the least and the greatest among them.
const ROUNDS: [usize; 3] = [LEAST_ROUND, 4_000_000, 67_108_864];

const CALLS: [By; 3] = [By::Alone, By::Workers(1), By::Workers(4)];

/// The options of a run in rounds of a size, in pieces of a size, under a limit of refused lines.
fn in_rounds(
    rt: &impl Abort,
    by: By,
    (round, piece): (usize, usize),
    limit: Option<u64>,
) -> (By, Options) {
    let options = by.options(rt, piece, limit);
    (
        by,
        options.with_round(round).expect(rt, "the size is in range"),
    )
}

/// Appends bytes, and behind them one byte again and again up to a length, and a line feed.
fn push_line(
    bytes: &mut Vec<u8>,
    front: &[u8],
    (byte, len): (u8, usize),
) -> Result<(), AllocError> {
    let stop = bytes.len().saturating_add(len);
    bytes.extend_from_slice(front)?;
    bytes.resize(stop, byte)?;
    bytes.push(b'\n')?;
    Ok(())
}

const SUM: &str = "SELECT SUM(q) AS s FROM lines";

/// A line that is much too long between two good ones.
fn long_line(alloc: Global) -> Result<Vec<u8>, AllocError> {
    let mut bytes = b"{\"q\":1}\n".to_vec(alloc)?;
    push_line(&mut bytes, b"", (b'x', 3_000_000))?;
    bytes.extend_from_slice(b"{\"q\":2}\n")?;
    Ok(bytes)
}

/// A line of the greatest length, one of a byte more, a good line and one that is no JSON.
fn longest_lines(alloc: Global) -> Result<Vec<u8>, AllocError> {
    let mut bytes = Vec::new(alloc);
    push_line(&mut bytes, b"{\"q\":1}", (b' ', 1_048_576))?;
    push_line(&mut bytes, b"{\"q\":1}", (b' ', 1_048_577))?;
    bytes.extend_from_slice(b"{\"q\":2}\nx\n")?;
    Ok(bytes)
}

/// Ten lines, of which four fill a round of the least size: in the first three are refused, in the
/// second two, and in the third none.
fn three_rounds(alloc: Global) -> Result<Vec<u8>, AllocError> {
    let lines: [&[u8]; 9] = [
        b"[1]",
        b"[1]",
        b"x",
        b"{\"d\":\"x\",\"q\":1}",
        b"{\"d\":\"y\",\"q\":2}",
        b"",
        b"{\"q\":true}",
        b"{\"d\":\"x\",\"q\":3}",
        b"{\"d\":\"y\",\"q\":4}",
    ];
    let mut bytes = Vec::new(alloc);
    for line in lines {
        push_line(&mut bytes, line, (b' ', 262_143))?;
    }
    bytes.extend_from_slice(b"{\"d\":\"x\",\"q\":5}")?;
    Ok(bytes)
}

/// What is written of these ten lines.
fn case_of_three_rounds(input: &[u8]) -> Case<'_> {
    Case {
        query: BY_D,
        input,
        report: b"d,n,s\nx,3,9\ny,2,6\n",
        refused: b"line 1: not an object\nline 2: not an object\nline 3: not JSON\nline 6: not JSON\nline 7: bad value in column q\n",
        done: Done {
            lines: 10,
            refused: 5,
        },
    }
}

/// Sizes of rounds and of pieces, each with the most bytes that a read gives.
const SIZES: [(usize, usize, usize); 6] = [
    (LEAST_ROUND, 20, 1),
    (LEAST_ROUND, 1, 2),
    (4_000_000, 67_108_864, 7),
    (LEAST_ROUND, 1_048_576, 1_000_000),
    (4_000_000, 1_048_576, 1_000_000),
    (67_108_864, 1_048_576, 1_000_000),
];

/// Asserts that a case is done by each call in rounds of each size, from readers that give few
/// bytes a call and many.
fn assert_done_in_rounds(
    rt: &(impl Abort + Threads + Wait + RandomSource + Sync),
    alloc: Global,
    case: &Case<'_>,
) {
    let plan = make_plan(rt, alloc, case.query);
    for by in CALLS {
        for (round, piece, at_once) in SIZES {
            let asked = in_rounds(rt, by, (round, piece), None);
            let reader = PauseReader::whole(case.input, at_once);
            assert_done(rt, alloc, asked, (&plan, case), reader);
        }
    }
    drop(plan);
}

#[test]
fn runs_in_rounds(rt: HostRuntime) -> Result<(), Fail> {
    let long = long_line(rt.alloc())?;
    let case = Case {
        query: SUM,
        input: long.as_slice(),
        report: b"s\n3\n",
        refused: b"line 2: too long\n",
        done: Done {
            lines: 3,
            refused: 1,
        },
    };
    assert_done_in_rounds(&rt, rt.alloc(), &case);
    let longest = longest_lines(rt.alloc())?;
    let case = Case {
        query: SUM,
        input: longest.as_slice(),
        report: b"s\n3\n",
        refused: b"line 2: too long\nline 4: not JSON\n",
        done: Done {
            lines: 4,
            refused: 2,
        },
    };
    assert_done_in_rounds(&rt, rt.alloc(), &case);
    let several = three_rounds(rt.alloc())?;
    let case = case_of_three_rounds(several.as_slice());
    assert_done_in_rounds(&rt, rt.alloc(), &case);
    Ok(())
}

/// The limit counts over all rounds: five lines are refused in two of them.
#[test]
fn limits_over_rounds(rt: HostRuntime) -> Result<(), Fail> {
    let alloc = rt.alloc();
    let several = three_rounds(alloc)?;
    let case = case_of_three_rounds(several.as_slice());
    let plan = make_plan(&rt, alloc, case.query);
    for by in CALLS {
        for round in ROUNDS {
            let sizes = (round, 1_048_576);
            let less = in_rounds(&rt, by, sizes, Some(4));
            let reader = PauseReader::whole(case.input, 1_000_000);
            assert_too_many(&rt, alloc, less, &plan, reader);
            let enough = in_rounds(&rt, by, sizes, Some(5));
            let reader = PauseReader::whole(case.input, 1_000_000);
            assert_done(&rt, alloc, enough, (&plan, &case), reader);
        }
    }
    drop(plan);
    Ok(())
}

/// Where a round has too many refused lines the next one is not read, and so it is not told that a
/// read would fail.
#[test]
fn limits_before_a_read_that_fails(rt: HostRuntime) -> Result<(), Fail> {
    let alloc = rt.alloc();
    let mut lines = Vec::new(alloc);
    for _ in 0..1_500_000 {
        lines.extend_from_slice(b"x\n")?;
    }
    let plan = make_plan(&rt, alloc, SUM);
    for by in CALLS {
        let asked = in_rounds(&rt, by, (LEAST_ROUND, 1_048_576), Some(0));
        let reader = PauseReader {
            front: lines.as_slice(),
            pause: Pause::Error(ErrorKind::Other),
            behind: b"",
            at_once: 1_000_000,
        };
        assert_too_many(&rt, alloc, asked, &plan, reader);
    }
    drop(plan);
    Ok(())
}

/// For the loop that refuses each allocation in turn, where the input has several rounds.
#[test]
fn refusal_of_runs_in_rounds(rt: HostRuntime) {
    let Ok(several) = three_rounds(rt.alloc()) else {
        return;
    };
    let case = case_of_three_rounds(several.as_slice());
    for by in [By::Alone, By::Workers(2)] {
        let asked = in_rounds(&rt, by, (LEAST_ROUND, 1), None);
        assert_run_or_refused(&rt, rt.alloc(), asked, &case);
    }
}
