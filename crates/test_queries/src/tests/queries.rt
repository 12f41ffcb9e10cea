//! Reading queries, and their canonical texts.

use query::{Expression, Query, QueryFault, parse, print};
use std::alloc::Global;
use std::process::Abort;

/// The canonical text of a query's text.
fn canonical(alloc: Global, text: &str) -> Result<String, QueryFault> {
    let query = parse(alloc, text)?;
    Ok(print(alloc, &query)?)
}

/// Texts of queries, each with its canonical text: some of all clauses, and some that typing would
/// refuse.
const QUERIES: &[(&str, &str)] = &[
    (
        "select d , sum(q) as s from lines where not(a)or q in(1) group by d",
        "SELECT d, SUM(q) AS s FROM lines WHERE NOT a OR q IN (1) GROUP BY d",
    ),
    (
        "SELECT COUNT(*) FROM lines WHERE NOT((d='it''s'))or q not in(1,-2)and(r is null)is unknown",
        "SELECT COUNT(*) FROM lines WHERE NOT d = 'it''s' OR q NOT IN (1, -2) AND r IS NULL IS UNKNOWN",
    ),
    (
        "SELECT d, r, GROUPING(d, r) AS g, COUNT(*) AS n FROM lines GROUP BY ROLLUP (d, r)",
        "SELECT d, r, GROUPING(d, r) AS g, COUNT(*) AS n FROM lines GROUP BY ROLLUP (d, r)",
    ),
    (
        "select count(*) from lines group by grouping sets(rollup(d,(r,q)),cube(d),()),d",
        "SELECT COUNT(*) FROM lines GROUP BY GROUPING SETS (ROLLUP (d, (r, q)), CUBE (d), ()), d",
    ),
    (
        "select count(*)from lines group by distinct(d),rollup(d,d)",
        "SELECT COUNT(*) FROM lines GROUP BY DISTINCT d, ROLLUP (d, d)",
    ),
    (
        "select count(*)as n from lines having sum(q)>1 or not(d)order by n desc,min(q)nulls first,d",
        "SELECT COUNT(*) AS n FROM lines HAVING SUM(q) > 1 OR NOT d ORDER BY n DESC, MIN(q) NULLS FIRST, d",
    ),
    (
        "select d from lines where COUNT(*)>1 order by avg( q )\nasc,\"order\"nulls first",
        "SELECT d FROM lines WHERE COUNT(*) > 1 ORDER BY AVG(q), \"order\" NULLS FIRST",
    ),
    (
        "SELECT \"a b\", \"a\"\"b\" AS \"\u{e9}\", \"1a\", _1a FROM \"lines\"",
        "SELECT \"a b\", \"a\"\"b\" AS \"\u{e9}\", \"1a\", _1a FROM lines",
    ),
];

/// Where memory is refused the answer is want of memory, else the text of the query.
#[test]
fn refusal_of_parse_and_print(rt: HostRuntime) {
    for (text, wanted) in QUERIES {
        match canonical(rt.alloc(), text) {
            Ok(met) => assert_eq!(rt; met.as_str(), *wanted),
            Err(fault) => assert!(rt; is_out_of_memory(&fault), "{fault:?}"),
        }
    }
}

pub fn is_out_of_memory(fault: &QueryFault) -> bool {
    matches!(fault, QueryFault::OutOfMemory)
}

/// Asserts that a query has the items `d AS "D", COUNT(*)`, and no GROUP BY.
fn assert_tree(rt: &impl Abort, query: &Query) {
    let items = query.tree().items.as_slice();
    assert_eq!(rt; items.len(), 2);
    assert!(rt; query.tree().groups.is_empty());
    assert!(rt; is_name(&items[0].expression, "d"));
    assert!(rt; !is_name(&items[1].expression, "d"));
}

#[test]
fn keeps_the_tree(rt: HostRuntime) {
    let text = "SELECT d AS \"D\", COUNT(*) FROM lines";
    let query = parse(rt.alloc(), text).expect(&rt, "a query");
    assert_tree(&rt, &query);
}

fn is_name(expression: &Expression, wanted: &str) -> bool {
    match expression {
        Expression::Name(name) => name.as_str() == wanted,
        Expression::Grouping(_) | Expression::Function(_) => false,
    }
}
