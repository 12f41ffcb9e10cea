//! Times parts apart from the lines that they are of: makes one result of the pieces of a file,
//! writes its part, and reads that again. It prints how many lines there are, how many of them are
//! refused, and how many bytes the part has; and on standard error the nanoseconds of the writing,
//! and those of the reading.
//!
//! Example: under `d:text,q:int`, by the query `SELECT d, SUM(q) AS s FROM lines GROUP BY d`, over
//! the lines `{"d":"x","q":5}` and `[1]`, it prints `2 lines, 1 refused, 180 bytes`.

ghost use Rattle.std.specs.Prelude.{◌≤◌, ◌<◌, length};
ghost use Rattle.semantics.specs.Limits.{input_limit};

use crate::hands_of;
use crate::result::{LONGEST, plan_of, result_of};
use parts::{read_parts, write_part};
use query::Plan;
use std::alloc::Global;
use std::io::{Eprint, Print};
use std::marker::Sync;
use std::rt::Files;
use std::sync::Wait;
use std::thread::Threads;
use std::time::{Clock, Instant};
use std::{fs, io};
use tables::{HashSeed, Parallel};

/// Makes the result of an input, writes and reads its part, and prints what came of it and how long
/// it took.
fn work<R: Threads + Wait + Clock + Print + Eprint + Sync>(
    rt: &R,
    alloc: Global,
    plan: &Plan,
    input: &[u8],
    hands: usize,
) -> io::Result<()>
    requires short { length input.now < input_limit }
    requires hands { (1 ≤ hands) × (hands ≤ 64) }
{
    let Some(result) = result_of(rt, alloc, plan, input, hands) else {
        return Ok(());
    };
    let start = Instant::now(rt)?;
    let Ok(part) = write_part(alloc, plan, result) else {
        return Ok(());
    };
    let written = start.elapsed(rt)?.as_nanos();
    let start = Instant::now(rt)?;
    let executor = Parallel {
        rt,
        workers: hands,
        seed: HashSeed::Fixed,
    };
    let Ok(again) = read_parts(alloc, plan, &executor, part.as_slice()) else {
        return Ok(());
    };
    let read = start.elapsed(rt)?.as_nanos();
    println!(rt;
        "{} lines, {} refused, {} bytes",
        again.lines(),
        again.refused(),
        part.len()
    )?;
    eprintln!(rt; "{written} {read}")
}

/// Times this for the file at a path, by a query over columns and as many hands as the word means.
/// Where the query or the columns are refused, it prints nothing.
pub fn run<R: Threads + Wait + Clock + Files + Print + Eprint + AllocGlobal + Sync>(
    rt: &R,
    columns: &str,
    query: &str,
    path: &str,
    hands: &str,
) -> io::Result<()> {
    let Some(plan) = plan_of(rt.alloc(), columns, query) else {
        return Ok(());
    };
    let input = fs::read(rt, path)?;
    if input.len() > LONGEST {
        return Ok(());
    }
    work(rt, rt.alloc(), &plan, input.as_slice(), hands_of(hands))
}
