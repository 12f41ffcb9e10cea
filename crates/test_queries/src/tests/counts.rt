//! How many grouping sets queries have.

use query::{QueryFault, parse};
use std::alloc::{AllocError, Global};

/// How many sets GROUP BY has.
fn count_of(alloc: Global, groups: &str) -> Result<u64, QueryFault> {
    let mut text = String::new(alloc);
    text.push_str("SELECT COUNT(*) FROM lines GROUP BY ")?;
    text.push_str(groups)?;
    let query = parse(alloc, text.as_str())?;
    Ok(query.set_count())
}

/// Lists of GROUP BY, each with the number of its sets.
const COUNTS: &[(&str, u64)] = &[
    ("a", 1),
    ("()", 1),
    ("a, a, (a, b), ()", 1),
    ("ROLLUP (a, b)", 3),
    ("ROLLUP (a, b), ROLLUP (c)", 6),
    ("CUBE (a, (b, c)), d, ROLLUP (a, a)", 12),
    ("GROUPING SETS (ROLLUP (a, b), CUBE (c), (a, b), ())", 7),
    (
        "GROUPING SETS (a, a, a), GROUPING SETS (GROUPING SETS (a, b), CUBE (a, b))",
        18,
    ),
    // Before DISTINCT drops any.
    ("DISTINCT ROLLUP (a), ROLLUP (a)", 4),
    ("DISTINCT CUBE (a, a, a), ()", 8),
];

#[test]
fn counts_sets(rt: HostRuntime) {
    for (groups, wanted) in COUNTS {
        let count = count_of(rt.alloc(), groups).expect(&rt, "a query");
        assert_eq!(rt; count, *wanted, "{groups}");
    }
}

#[test]
fn counts_one_set_without_group_by(rt: HostRuntime) {
    let query = parse(rt.alloc(), "SELECT COUNT(*) FROM lines").expect(&rt, "a query");
    assert_eq!(rt; query.set_count(), 1);
    drop(query);
}

/// Adds a CUBE of a name, so many times.
fn push_cube(text: &mut String, names: usize) -> Result<(), AllocError> {
    text.push_str("CUBE (a")?;
    for _ in 1..names {
        text.push_str(", a")?;
    }
    text.push_str(")")?;
    Ok(())
}

/// How many sets a CUBE of so many names has.
fn cube_count(alloc: Global, names: usize) -> Result<u64, QueryFault> {
    let mut groups = String::new(alloc);
    push_cube(&mut groups, names)?;
    count_of(alloc, groups.as_str())
}

/// How many sets there are in a CUBE of a name 63 times, one of 62 times and so on to one of a
/// single name, which are 2^64 - 2, and in what stands behind them.
fn count_with_all_cubes(alloc: Global, behind: &str) -> Result<u64, QueryFault> {
    let mut groups = String::new(alloc);
    groups.push_str("GROUPING SETS (")?;
    for missing in 0..62 {
        push_cube(&mut groups, 63 - missing)?;
        groups.push_str(", ")?;
    }
    push_cube(&mut groups, 1)?;
    groups.push_str(behind)?;
    groups.push_str(")")?;
    count_of(alloc, groups.as_str())
}

/// The numbers of sets of CUBE, for some numbers of names.
const CUBES: &[(usize, u64)] = &[
    (1, 2),
    (6, 64),
    (63, 9_223_372_036_854_775_808),
    (64, 18_446_744_073_709_551_615),
    (65, 18_446_744_073_709_551_615),
    (70, 18_446_744_073_709_551_615),
];

/// A number that 64 bits do not hold is told as the greatest.
#[test]
fn counts_sets_of_cubes(rt: HostRuntime) {
    for (names, wanted) in CUBES {
        let count = cube_count(rt.alloc(), *names).expect(&rt, "a query");
        assert_eq!(rt; count, *wanted, "{names}");
    }
}

/// The numbers of sets of all cubes, with what stands behind them.
const BEHIND_CUBES: &[(&str, u64)] = &[
    ("", 18_446_744_073_709_551_614),
    (", a", 18_446_744_073_709_551_615),
    (", a, a", 18_446_744_073_709_551_615),
    ("), ROLLUP (a", 18_446_744_073_709_551_615),
];

/// The last numbers that 64 bits hold, and the first that they do not.
#[test]
fn counts_up_to_the_greatest(rt: HostRuntime) {
    for (behind, wanted) in BEHIND_CUBES {
        let count = count_with_all_cubes(rt.alloc(), behind).expect(&rt, "a query");
        assert_eq!(rt; count, *wanted, "{behind}");
    }
}
