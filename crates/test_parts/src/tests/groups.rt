//! Groups and their lines.

use super::line_source::LineList;
use super::scalars::{Scalar, check_scalars, push_line};
use part_lines::{GroupShape, PartRefusal, StateKind, next_group, push_group, push_groups};
use semantics::Kind;
use std::alloc::{AllocError, Global};
use std::process::Abort;
use values::{GroupEntry, State, Value};

/// The groups of `Harbour`, and of no shop, with `SUM(cents)`.
const SHOPS: &[&[u8]] = &[b"\"Harbour\"", b"2", b"7", b"2", b"null", b"1", b"1", b"1"];

/// The group of no column, with `COUNT(*)`, `COUNT(x)`, `SUM(x)`, `MIN(y)` and `COUNT(DISTINCT x)`.
const WHOLE: &[&[u8]] = &[b"3", b"2", b"-7", b"2", b"\"a\"", b"2", b"-8", b"1"];

/// The shape of the groups of a shop with a sum.
fn shop_shape(alloc: Global) -> Result<GroupShape, AllocError> {
    Ok(GroupShape {
        columns: vec![in alloc; Kind::Text]?,
        states: vec![in alloc; StateKind::Sum]?,
    })
}

/// The shape of a group of no column with a state of each kind.
fn whole_shape(alloc: Global) -> Result<GroupShape, AllocError> {
    Ok(GroupShape {
        columns: Vec::new(alloc),
        states: vec![in alloc;
            StateKind::Rows,
            StateKind::Count,
            StateKind::Sum,
            StateKind::Extreme(Kind::Text),
            StateKind::Distinct(Kind::Int),
        ]?,
    })
}

fn shop(
    alloc: Global,
    name: Scalar,
    members: u64,
    sum: i128,
    count: u64,
) -> Result<GroupEntry, AllocError> {
    Ok(GroupEntry {
        key: vec![in alloc; name.value(alloc)?]?,
        members,
        states: vec![in alloc; State::Sum(sum, count)]?,
    })
}

fn shops(alloc: Global) -> Result<Vec<GroupEntry>, AllocError> {
    let harbour = shop(alloc, Scalar::Text("Harbour"), 2, 7, 2)?;
    let none = shop(alloc, Scalar::Null, 1, 1, 1)?;
    Ok(vec![in alloc; harbour, none]?)
}

fn whole(alloc: Global) -> Result<GroupEntry, AllocError> {
    let least = Scalar::Text("a").value(alloc)?;
    let different = vec![in alloc; Value::Int(-8), Value::Int(1)]?;
    Ok(GroupEntry {
        key: Vec::new(alloc),
        members: 3,
        states: vec![in alloc;
            State::Rows,
            State::Count(2),
            State::Sum(-7, 2),
            State::Extreme(least),
            State::Distinct(different),
        ]?,
    })
}

fn is_same_state(left: &State, right: &State) -> bool {
    match (left, right) {
        (State::Rows, State::Rows) => true,
        (State::Count(left), State::Count(right)) => left == right,
        (State::Sum(left, many), State::Sum(right, more)) => left == right && many == more,
        (State::Extreme(left), State::Extreme(right)) => left == right,
        (State::Distinct(left), State::Distinct(right)) => left == right,
        (
            State::Rows
            | State::Count(_)
            | State::Sum(_, _)
            | State::Extreme(_)
            | State::Distinct(_),
            _,
        ) => false,
    }
}

fn is_same_group(left: &GroupEntry, right: &GroupEntry) -> bool {
    left.key == right.key
        && left.members == right.members
        && left.states.len() == right.states.len()
        && left
            .states
            .iter()
            .zip(&right.states)
            .all(|(left, right)| is_same_state(left, right))
}

/// The text of lines.
fn text_of(alloc: Global, lines: &[&[u8]]) -> Result<Vec<u8>, AllocError> {
    let mut text = Vec::new(alloc);
    for line in lines {
        push_line(&mut text, line)?;
    }
    Ok(text)
}

/// The key of a group, where there is one.
fn key_of(group: Option<&GroupEntry>) -> Option<&[Value]> {
    match group {
        Some(group) => Some(group.key.as_slice()),
        None => None,
    }
}

/// So many groups of this shape, of 3 members at most together.
fn read_groups(
    alloc: Global,
    lines: &'static [&'static [u8]],
    shape: &GroupShape,
    count: u64,
) -> Result<Vec<GroupEntry>, PartRefusal> {
    let mut source = LineList::new(alloc, lines);
    let mut groups = Vec::new(alloc);
    let mut left = 3;
    for _ in 0..count {
        let group = next_group(alloc, &mut source, shape, key_of(groups.last()), left)?;
        left -= group.members;
        groups.push(group)?;
    }
    Ok(groups)
}

/// Lines that are not two groups of a shop with a sum, of 3 members at most, each with the number
/// of the line of its first fault, and what is told of that. Numbers of 64 bits are from
/// -9223372036854775808 to 9223372036854775807.
const SHOP_FAULTS: &[(&[&[u8]], u64, &str)] = &[
    (&[b"'Harbour'", b"2"], 1, "not a value"),
    (&[b"\"Harbour\"", b"2.0"], 2, "not a value"),
    (&[b"7", b"2"], 1, "unexpected value"),
    (&[b"\"Harbour\"", b"-2"], 2, "unexpected value"),
    (&[b"\"Harbour\"", b"null"], 2, "unexpected value"),
    (
        &[b"\"Harbour\"", b"18446744073709551616"],
        2,
        "unexpected value",
    ),
    (
        &[b"\"Harbour\"", b"18446744073709551615"],
        2,
        "out of range",
    ),
    (&[b"\"Harbour\"", b"4"], 2, "out of range"),
    (&[b"\"Harbour\"", b"0"], 2, "out of range"),
    (&[b"\"Harbour\"", b"2", b"\"7\""], 3, "unexpected value"),
    (&[b"\"Harbour\"", b"2", b"7", b"3"], 4, "out of range"),
    (&[b"\"Harbour\"", b"2", b"1", b"0"], 4, "out of range"),
    (
        &[b"\"Harbour\"", b"2", b"9223372036854775808", b"1"],
        4,
        "out of range",
    ),
    (
        &[b"\"Harbour\"", b"2", b"9223372036854775807", b"1"],
        5,
        "ends too early",
    ),
    (
        &[b"\"Harbour\"", b"2", b"-9223372036854775809", b"1"],
        4,
        "out of range",
    ),
    (
        &[b"\"Harbour\"", b"2", b"-9223372036854775808", b"1"],
        5,
        "ends too early",
    ),
    (
        &[b"\"Harbour\"", b"2", b"7", b"2", b"\"Harbour\""],
        5,
        "out of order",
    ),
    (
        &[b"\"Harbour\"", b"2", b"7", b"2", b"\"Dock\""],
        5,
        "out of order",
    ),
    (
        &[b"\"Harbour\"", b"2", b"7", b"2", b"\"Quay\"", b"2"],
        6,
        "out of range",
    ),
];

/// Lines that are not one group of no column with a state of each kind, in the same way.
const WHOLE_FAULTS: &[(&[&[u8]], u64, &str)] = &[
    (&[b"3", b"4"], 2, "out of range"),
    (&[b"3", b"2", b"-7", b"2", b"5"], 5, "unexpected value"),
    (&[b"3", b"2", b"-7", b"2", b"null", b"4"], 6, "out of range"),
    (
        &[b"3", b"2", b"-7", b"2", b"null", b"1", b"null"],
        7,
        "unexpected value",
    ),
    (
        &[b"3", b"2", b"-7", b"2", b"null", b"1", b"\"a\""],
        7,
        "unexpected value",
    ),
    (
        &[
            b"3",
            b"2",
            b"-7",
            b"2",
            b"null",
            b"1",
            b"9223372036854775808",
        ],
        7,
        "unexpected value",
    ),
    (
        &[b"3", b"2", b"-7", b"2", b"null", b"2", b"1", b"-8"],
        8,
        "out of order",
    ),
    (
        &[b"3", b"2", b"-7", b"2", b"null", b"2", b"1", b"1"],
        8,
        "out of order",
    ),
    (
        &[b"3", b"2", b"-7", b"2", b"null", b"2", b"1"],
        8,
        "ends too early",
    ),
];

/// Checks that lines are not read as so many groups of this shape, for this fault at this line.
fn check_fault(
    rt: &impl Abort,
    alloc: Global,
    shape: &GroupShape,
    count: u64,
    lines: &'static [&'static [u8]],
    line: u64,
    told: &str,
) -> Result<(), PartRefusal> {
    match read_groups(alloc, lines, shape, count) {
        Err(PartRefusal::Fault(fault)) => {
            assert_eq!(rt; fault.line, line, "{lines:?}");
            let text = fault.kind.to_string(alloc)?;
            assert!(rt; text.as_str() == told, "{lines:?}: {text}");
        }
        Err(PartRefusal::OutOfMemory) => return Err(PartRefusal::OutOfMemory),
        Ok(_) | Err(PartRefusal::Reading) => panic!(rt; "{lines:?}"),
    }
    Ok(())
}

/// Checks that each front of the lines of two groups ends too early, and their other faults.
fn check_shop_faults(rt: &impl Abort, alloc: Global) -> Result<(), PartRefusal> {
    let shape = shop_shape(alloc)?;
    for (count, _) in SHOPS.iter().enumerate() {
        let line = count as u64 + 1;
        let front = &SHOPS[..count];
        check_fault(rt, alloc, &shape, 2, front, line, "ends too early")?;
    }
    for (lines, line, told) in SHOP_FAULTS {
        check_fault(rt, alloc, &shape, 2, lines, *line, told)?;
    }
    Ok(())
}

/// Checks the faults of a group of no column, and that there are no two of them: the key of the
/// second one, which no line stands for, is not above that of the first one.
fn check_whole_faults(rt: &impl Abort, alloc: Global) -> Result<(), PartRefusal> {
    let shape = whole_shape(alloc)?;
    for (lines, line, told) in WHOLE_FAULTS {
        check_fault(rt, alloc, &shape, 1, lines, *line, told)?;
    }
    check_fault(rt, alloc, &shape, 2, WHOLE, 8, "out of order")
}

/// Checks what is written of two groups, and what their lines are read as.
fn check_shops(rt: &impl Abort, alloc: Global) -> Result<(), PartRefusal> {
    let groups = shops(alloc)?;
    let mut text = Vec::new(alloc);
    push_groups(alloc, &mut text, groups.as_slice())?;
    assert!(rt; text == text_of(alloc, SHOPS)?, "{text:?}");
    let read = read_groups(alloc, SHOPS, &shop_shape(alloc)?, 2)?;
    assert_eq!(rt; read.len(), groups.len());
    for (left, right) in read.iter().zip(&groups) {
        assert!(rt; is_same_group(left, right));
    }
    Ok(())
}

/// Checks the same of one group with a state of each kind.
fn check_whole(rt: &impl Abort, alloc: Global) -> Result<(), PartRefusal> {
    let group = whole(alloc)?;
    let mut text = Vec::new(alloc);
    push_group(alloc, &mut text, &group)?;
    assert!(rt; text == text_of(alloc, WHOLE)?, "{text:?}");
    let shape = whole_shape(alloc)?;
    let read = next_group(alloc, &mut LineList::new(alloc, WHOLE), &shape, None, 3)?;
    assert!(rt; is_same_group(&read, &group));
    Ok(())
}

/// Checks all of these. It fails for want of memory alone.
fn check_groups(rt: &impl Abort, alloc: Global) -> Result<(), PartRefusal> {
    check_shops(rt, alloc)?;
    check_whole(rt, alloc)?;
    check_shop_faults(rt, alloc)?;
    check_whole_faults(rt, alloc)
}

/// Where memory is ample, all values and groups are as the tables have them.
#[test]
fn worked_examples(rt: HostRuntime) {
    assert_eq!(rt; check_scalars(&rt, rt.alloc()), Ok(()));
    assert!(rt; check_groups(&rt, rt.alloc()).is_ok());
}

/// For the loop that refuses each allocation in turn: all as in the examples, or want of memory.
#[test]
fn refusal_of_groups(rt: HostRuntime) {
    match check_groups(&rt, rt.alloc()) {
        Ok(()) | Err(PartRefusal::OutOfMemory) => {}
        Err(PartRefusal::Fault(_) | PartRefusal::Reading) => {
            panic!(rt; "a good group is refused");
        }
    }
}
