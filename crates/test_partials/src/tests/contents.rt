//! What a partial result contains, as plain values.

use super::partials::{BY_D, plan_or_refused, two_merged};
use lines::LineFault;
use std::process::Abort;
use tables::{Partial, PartialContents, Serial};
use values::{GroupEntry, State, Value};

/// Whether this is a group by `d`: of so many lines, with this sum of so many numbers. It takes no
/// memory.
fn is_group(group: &GroupEntry, key: &str, members: u64, sum: i128, numbers: u64) -> bool {
    let [Value::Text(text)] = group.key.as_slice() else {
        return false;
    };
    let [State::Rows, State::Sum(total, count)] = group.states.as_slice() else {
        return false;
    };
    text.as_str() == key && group.members == members && *total == sum && *count == numbers
}

/// Asserts that these are the contents of the four lines, the groups by ascending keys. It takes no
/// memory.
fn assert_four_contained(rt: &impl Abort, contents: &PartialContents) {
    let [first, second] = contents.groups.as_slice() else {
        panic!(rt; "not two groups");
    };
    assert!(rt; is_group(first, "x", 2, 7, 2) && is_group(second, "y", 1, 0, 0));
    let refused = [(3, LineFault::NoObject)];
    assert!(rt; contents.lines == 4 && contents.refused.as_slice() == refused.as_slice());
}

/// For the loop that refuses each allocation in turn: the contents of two pieces merged, or want of
/// memory. The refused line is the second one of the later piece.
#[test]
fn refusal_of_into_contents(rt: HostRuntime) {
    if let Some(plan) = plan_or_refused(&rt, rt.alloc(), BY_D) {
        if let Ok(merged) = two_merged(&rt, rt.alloc(), &plan) {
            if let Ok(contents) = merged.into_contents() {
                assert_four_contained(&rt, &contents);
            }
        }
        drop(plan);
    }
}

/// The same of a result without groups, to which none is put.
#[test]
fn refusal_of_without_groups(rt: HostRuntime) {
    if let Some(plan) = plan_or_refused(&rt, rt.alloc(), BY_D) {
        let refused = Vec::new(rt.alloc());
        if let Ok(begun) = Partial::without_groups(rt.alloc(), &plan, &Serial, 3, refused) {
            assert!(rt; begun.lines() == 3 && begun.refused() == 0);
            if let Ok(contents) = begun.into_contents() {
                assert!(rt; contents.groups.is_empty() && contents.lines == 3);
                assert!(rt; contents.refused.is_empty());
            }
        }
        drop(plan);
    }
}
