//! The report and the refused list of one input, and the laws.

ghost use Rattle.std.specs.Prelude.{IfOk, ◌<◌, ◌^◌, length};
ghost use Rattle.tables.specs.Partials.{IsPartialOf};
ghost use Rattle.tables.specs.Planned.{IsFinishOf};

use query::{Plan, check, parse};
use report::{arrange, arranged_law, order_law, refused_text, report_on, report_text};
use std::alloc::{AllocError, Global};
use std::marker::Sync;
use std::process::Abort;
use std::test::Fail;
use std::thread::Threads;
use tables::{Groups, HashSeed, Parallel, Partial, Serial, sound_law};
use values::Schema;

/// The plan of a query that takes an average of each group, where memory is granted.
fn plan_if_any(alloc: Global) -> Option<Plan> {
    let text = "SELECT r, AVG(q) AS a FROM lines GROUP BY r HAVING COUNT(*) > 0 ORDER BY r DESC";
    let query = parse(alloc, text).ok()?;
    match Schema::parse(alloc, "r:text,q:int") {
        Ok(schema) => check(alloc, query, schema).ok(),
        Err(_) => {
            drop(query);
            None
        }
    }
}

/// Lines of which some are refused. One text begins as the sign of NULL does, and one has quotes.
const LINES: &[u8] = b"{\"r\":\"say \\\"hi\\\"\",\"q\":-3}
x
{\"r\":\"say \\\"hi\\\"\",\"q\":-4}
[1]
{\"q\":true}
{\"r\":\"\\\\N\"}
{}
";

/// Their report and their list.
const REPORT: &[u8] = b"r,a\n\\N,\\N\n\"say \"\"hi\"\"\",-7/2\n\\\\N,\\N\n";

const LIST: &[u8] = b"line 2: not JSON\nline 4: not an object\nline 5: bad value in column q\n";

/// What is written of the lines.
#[derive(Drop)]
struct Outputs {
    report: Vec<u8>,
    /// The report once more, by three hands.
    report_by_hands: Vec<u8>,
    /// The report once more, by rows that are held all at once.
    report_of_rows: Vec<u8>,
    list: Vec<u8>,
}

/// The result over lines that are one piece.
fn result_of(alloc: Global, plan: &Plan, lines: &[u8]) -> Result<Partial, AllocError>
    requires { length lines.now < 2 ^ 63 }
    ensures { IfOk result (IsPartialOf plan.now) }
{
    Partial::fold_piece(alloc, plan, 0, lines)
}

/// The groups of a result of the plan over some pieces.
fn finish(plan: &Plan, partial: Partial) -> Result<Groups, AllocError>
    requires { IsPartialOf plan.now partial }
    ensures { IfOk result (IsFinishOf plan.now partial) }
{
    sound_law();
    partial.finish(plan)
}

/// What is written of the lines: the report, and the list.
fn write_texts<H: Threads + Sync>(
    rt: &H,
    alloc: Global,
    plan: &Plan,
) -> Result<Outputs, AllocError> {
    let partial = result_of(alloc, plan, LINES)?;
    let groups = finish(plan, partial)?;
    let report = report_on(&Serial, alloc, &groups, plan)?;
    let hands = Parallel {
        rt,
        workers: 3,
        seed: HashSeed::Fixed,
    };
    let report_by_hands = report_on(&hands, alloc, &groups, plan)?;
    let rows = arrange(alloc, &groups, plan)?;
    let report_of_rows = report_text(alloc, &rows, plan)?;
    let schema = plan.schema();
    let list = refused_text(alloc, &groups, schema)?;
    Ok(Outputs {
        report,
        report_by_hands,
        report_of_rows,
        list,
    })
}

#[test]
fn writes_the_report_and_the_list(rt: HostRuntime) -> Result<(), Fail> {
    let plan = plan_if_any(rt.alloc()).expect(&rt, "a plan");
    let answer = write_texts(&rt, rt.alloc(), &plan);
    drop(plan);
    let written = answer?;
    assert_eq!(rt; written.report.as_slice(), REPORT);
    assert_eq!(rt; written.report_by_hands.as_slice(), REPORT);
    assert_eq!(rt; written.report_of_rows.as_slice(), REPORT);
    assert_eq!(rt; written.list.as_slice(), LIST);
    Ok(())
}

/// For the loop that refuses each allocation in turn: the report and the list, or want of memory.
#[test]
fn refusal_of_the_report_and_the_list(rt: HostRuntime) {
    let Some(plan) = plan_if_any(rt.alloc()) else {
        return;
    };
    let answer = write_texts(&rt, rt.alloc(), &plan);
    drop(plan);
    match answer {
        Ok(written) => {
            assert_eq!(rt; written.report.as_slice(), REPORT);
            assert_eq!(rt; written.report_by_hands.as_slice(), REPORT);
            assert_eq!(rt; written.report_of_rows.as_slice(), REPORT);
            assert_eq!(rt; written.list.as_slice(), LIST);
        }
        Err(AllocError) => {}
    }
}

#[test]
fn has_laws(rt: HostRuntime) {
    order_law();
    arranged_law();
    assert!(rt; true);
}
