//! Answers one query over the bytes of a file, whose name is its word, by calls of the libraries:
//! on the calling thread alone, and then by four workers. Each run writes its report to standard
//! output, and its list of refused lines to standard error.
#![tactic(auto)]

use anyhow::Context;
use jlreport_cli::Options;
use jlreport_engine::{run, run_alone};
use query::{Plan, check, parse};
use std::alloc::Global;
use std::{env, fs};
use values::Schema;

const COLUMNS: &str = "shop:text,cents:int";

const QUERY: &str = "SELECT shop, COUNT(*) AS events, SUM(cents) AS cents FROM lines GROUP BY shop";

/// The plan of the query under the columns.
fn plan(alloc: Global) -> anyhow::Result<Plan> {
    let schema = Schema::parse(alloc, COLUMNS)?;
    let query = parse(alloc, QUERY)?;
    Ok(check(alloc, query, schema)?)
}

fn main(rt: HostRuntime) -> anyhow::Result<()> {
    let alloc = rt.alloc();
    let path = env::args(&rt)?.skip(1).next().context("no file is named")?;
    let bytes = fs::read(&rt, path.as_str())?;
    let input = bytes.as_slice();
    let options = Options::new(4, 1_048_576, None).context("a number is out of range")?;
    let plan = plan(alloc)?;
    let (mut out, mut err) = (rt.stdout(), rt.stderr());
    run_alone(alloc, &plan, options, input, &mut out, &mut err)?;
    run(&rt, alloc, &plan, options, input, &mut out, &mut err)?;
    Ok(())
}
