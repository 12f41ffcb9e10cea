//! Partial results rolled to sets of grouping columns, listed or not.

ghost use Rattle.std.specs.Prelude.{◌≡◌, true, IfOk};
ghost use Rattle.group_tables.specs.Rolled.{AreAmong};
ghost use Rattle.tables.specs.Partials.{IsPartialOf};
ghost use Rattle.tables.specs.Planned.{AreGroupingColumns};

use super::partials::{
    BY_D, BY_D_AND_R, FOUR, INPUTS, is_row, made_up_input, plan_of, plan_or_refused,
    result_of_piece,
};
use super::reference::{Row, rows_under};
use query::Plan;
use std::alloc::{AllocError, Global};
use std::process::Abort;
use tables::{Cell, Group, Partial, sound_law};
use values::Value;

/// Three good lines.
const THREE: &[u8] =
    b"{\"d\":\"x\",\"r\":\"n\",\"q\":5}\n{\"d\":\"x\",\"r\":null,\"q\":2}\n{\"d\":\"y\",\"r\":\"n\"}\n";

/// The groups of a result of the plan over some pieces, rolled to the empty set.
fn roll_to_one(plan: &Plan, partial: &Partial) -> Result<Vec<Group>, AllocError>
    requires { IsPartialOf plan.now partial.now }
{
    sound_law();
    partial.roll(plan, &[])
}

/// The empty set is not listed, and the different values of the groups of `r` overlap.
#[test]
fn rolled_to_a_set_that_is_not_listed(rt: HostRuntime) {
    let alloc = rt.alloc();
    let text = "SELECT COUNT(DISTINCT d) FROM lines GROUP BY GROUPING SETS ((r), (d))";
    let plan = plan_of(&rt, alloc, text);
    let partial = result_of_piece(alloc, &plan, 0, THREE).expect(&rt, "memory");
    let groups = roll_to_one(&plan, &partial).expect(&rt, "memory");
    assert_eq!(rt; groups.len(), 1);
    for group in &groups {
        let cells = [Cell::Plain(Value::Int(2))];
        assert!(rt; group.key.is_empty() && group.lines == 3);
        assert!(rt; group.cells.as_slice() == cells.as_slice());
    }
    drop(plan);
}

/// Whether a set has all columns of another one.
fn has_columns(finer: &[usize], set: &[usize]) -> bool
    ensures { result ≡ true → AreAmong set.now finer.now }
{
    set.iter().all(|place| finer.contains(place))
}

/// Whether each place is that of a grouping column.
fn are_grouping_columns(plan: &Plan, set: &[usize]) -> bool
    ensures { result ≡ true → AreGroupingColumns plan.now set.now }
{
    has_columns(plan.grouping(), set)
}

/// The groups by their keys.
fn sort_groups(mut groups: Vec<Group>) -> Vec<Group> {
    groups.sort_unstable_by(|a, b| a.key.cmp(&b.key));
    groups
}

/// Holds what a result is rolled to under a set of columns to the plain program.
fn assert_rolled(
    rt: &impl Abort,
    alloc: Global,
    plan: &Plan,
    partial: &Partial,
    set: &[usize],
    wanted: &[Row],
)
    requires { IsPartialOf plan.now partial.now }
{
    assert!(rt; are_grouping_columns(plan, set));
    sound_law();
    let groups = sort_groups(partial.roll(plan, set).expect(rt, "memory"));
    assert_eq!(rt; groups.len(), wanted.len());
    for (group, wanted) in groups.into_iter().zip(wanted.iter()) {
        let row = (0, group);
        assert!(rt; is_row(&row, wanted), "{row:?} / {wanted:?}");
    }
}

/// The places of sets of the columns `d` and `r`, with some order and with a column twice.
const SETS: [&[usize]; 6] = [&[], &[0], &[1], &[0, 1], &[1, 0], &[0, 0]];

/// Under each set of the grouping columns, whether or not it is listed.
#[test]
fn rolled_like_reference(rt: HostRuntime) {
    let alloc = rt.alloc();
    let listed =
        "SELECT MIN(d), COUNT(DISTINCT q), AVG(q) FROM lines GROUP BY GROUPING SETS ((r), (d))";
    for text in [BY_D_AND_R, listed] {
        let plan = plan_of(&rt, alloc, text);
        for seed in 0..INPUTS {
            let input = made_up_input(alloc, seed).expect(&rt, "memory");
            let input = input.as_bytes();
            let partial = result_of_piece(alloc, &plan, 0, input).expect(&rt, "memory");
            for set in SETS {
                let wanted = rows_under(&rt, alloc, &plan, set, input);
                assert_rolled(&rt, alloc, &plan, &partial, set, wanted.as_slice());
            }
        }
        drop(plan);
    }
}

/// For the loop that refuses each allocation in turn: the one group of all lines, or want of
/// memory. What was rolled is as it was.
#[test]
fn refusal_of_roll(rt: HostRuntime) {
    if let Some(plan) = plan_or_refused(&rt, rt.alloc(), BY_D) {
        if let Ok(partial) = result_of_piece(rt.alloc(), &plan, 0, FOUR) {
            if let Ok(groups) = roll_to_one(&plan, &partial) {
                let [group] = groups.as_slice() else {
                    panic!(rt; "not one group");
                };
                let cells = [Cell::Plain(Value::Int(3)), Cell::Plain(Value::Int(7))];
                assert!(rt; group.key.is_empty() && group.lines == 3);
                assert!(rt; group.cells.as_slice() == cells.as_slice());
            }
            assert!(rt; partial.lines() == 4 && partial.refused() == 1);
        }
        drop(plan);
    }
}
