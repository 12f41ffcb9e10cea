//! The plans of queries under columns.

use super::queries::is_out_of_memory;
use query::{
    ColumnFunction, Plan, QueryFault, check, filter_holds, filter_texts, header, parse, set_text,
};
use std::alloc::{AllocError, Global};
use std::process::Abort;
use values::{Record, Schema, Truth, Value};

const COLUMNS: &str = "d:text,r:text,q:int";

/// The plan of a query under the columns, whose text is a schema: it is refused for want of memory
/// alone.
fn plan_of(alloc: Global, text: &str) -> Result<Plan, QueryFault> {
    let query = parse(alloc, text)?;
    match Schema::parse(alloc, COLUMNS) {
        Ok(schema) => check(alloc, query, schema),
        Err(_) => {
            drop(query);
            Err(QueryFault::OutOfMemory)
        }
    }
}

/// The header of the first item and the text of the first set of a query.
fn first_texts(alloc: Global, text: &str) -> Result<(String, String), QueryFault> {
    let plan = plan_of(alloc, text)?;
    if plan.query().tree().items.is_empty() || plan.sets().is_empty() {
        return Ok((String::new(alloc), String::new(alloc)));
    }
    Ok((header(alloc, &plan, 0)?, set_text(alloc, &plan, 0)?))
}

/// Queries, each with the header of its first item and the text of its first set.
const FIRST_TEXTS: &[(&str, &str, &str)] = &[
    (
        "SELECT d, COUNT(*) FROM lines WHERE NOT d = 'x' OR q IN (1) AND d > 'a' GROUP BY d",
        "d",
        "(d)",
    ),
    (
        "SELECT GROUPING(d, r), r FROM lines GROUP BY ROLLUP (r, d) HAVING SUM(q) > 1 ORDER BY MIN(d), r",
        "GROUPING(d, r)",
        "(r, d)",
    ),
    (
        "SELECT r AS x, COUNT(*) FROM lines GROUP BY DISTINCT GROUPING SETS ((r, d), (d, r), r), ROLLUP (d)",
        "x",
        "(r, d)",
    ),
    ("SELECT COUNT(*) AS \"a b\" FROM lines", "a b", "()"),
    (
        "SELECT COUNT(*) FILTER (WHERE q > 1 OR d IS NULL), SUM(q) FILTER (WHERE NOT r IN ('x')) AS s FROM lines",
        "COUNT(*) FILTER (WHERE q > 1 OR d IS NULL)",
        "()",
    ),
];

/// Where memory is refused the answer is want of memory, else the texts.
#[test]
fn refusal_of_check(rt: HostRuntime) {
    for (text, header, set) in FIRST_TEXTS {
        match first_texts(rt.alloc(), text) {
            Ok((first, second)) => {
                assert_eq!(rt; first.as_str(), *header);
                assert_eq!(rt; second.as_str(), *set);
            }
            Err(fault) => assert!(rt; is_out_of_memory(&fault), "{fault:?}"),
        }
    }
}

/// Asserts that the set functions of a plan are COUNT(*) and the sum of column 2.
fn assert_functions(rt: &impl Abort, plan: &Plan) {
    let functions = plan.set_functions();
    assert_eq!(rt; functions.len(), 2);
    assert!(rt; functions[0].function.is_same(ColumnFunction::CountRows));
    assert!(rt; functions[1].function.is_same(ColumnFunction::Sum(2)));
}

/// Asserts that a plan of three columns has one set, of columns 1 and 0.
fn assert_places(rt: &impl Abort, plan: &Plan) {
    let sets = plan.sets();
    assert_eq!(rt; sets.len(), 1);
    assert_eq!(rt; sets[0].as_slice(), [1, 0].as_slice());
    assert_eq!(rt; plan.schema().columns().len(), 3);
}

/// Each different set function once; the columns of a set by their places in the schema.
#[test]
fn keeps_functions_and_places(rt: HostRuntime) {
    let text = "SELECT r, COUNT(*), SUM(q) AS s, SUM(q) AS t FROM lines GROUP BY r, d, r";
    let plan = plan_of(rt.alloc(), text).expect(&rt, "a plan");
    assert_functions(&rt, &plan);
    assert_places(&rt, &plan);
}

/// Set functions with three different FILTERs, one of them written twice, and one without.
const FILTERED: &str =
    "SELECT COUNT(*) FILTER (WHERE q > 1) AS a, SUM(q) FILTER (WHERE q > 2) AS b, \
    MAX(q) FILTER (WHERE (q > 1)) AS c, COUNT(*) FILTER (WHERE d = 'x') AS e, COUNT(*) AS n FROM lines";

/// The texts of the different filters of a plan, which of them are True for a record, and the truth
/// value of the FILTER of each set function for it.
#[derive(Drop)]
struct FiltersFound {
    texts: Vec<String>,
    marks: Vec<bool>,
    truths: Vec<Truth>,
}

/// The truth value of the FILTER of each set function for a record.
fn truths_of(alloc: Global, plan: &Plan, record: &Record) -> Result<Vec<Truth>, AllocError> {
    let mut truths = Vec::new(alloc);
    if !plan.schema().fits(record) {
        return Ok(truths);
    }
    for place in 0..plan.functions() {
        truths.push(filter_holds(plan, place, record))?;
    }
    Ok(truths)
}

/// What the filters of a plan are for a record without texts and with this number.
fn find_filters(alloc: Global, plan: &Plan, number: i128) -> Result<FiltersFound, AllocError> {
    let record = Record::new(vec![in alloc; Value::Null, Value::Null, Value::Int(number)]?);
    let mut marks = vec![in alloc; true, true]?;
    if plan.schema().fits(&record) {
        plan.mark_filters(&record, &mut marks)?;
    }
    Ok(FiltersFound {
        texts: filter_texts(alloc, plan)?,
        marks,
        truths: truths_of(alloc, plan, &record)?,
    })
}

/// What the filters of a query are for a record without texts and with this number.
fn find_filters_of(alloc: Global, text: &str, number: i128) -> Result<FiltersFound, QueryFault> {
    let plan = plan_of(alloc, text)?;
    let found = find_filters(alloc, &plan, number);
    drop(plan);
    Ok(found?)
}

/// Asserts what the three filters, and those of the five set functions, are for a record with the
/// number 2.
fn assert_filters(rt: &impl Abort, found: &FiltersFound) {
    assert_eq!(rt; found.texts.len(), 3);
    assert_eq!(rt; found.texts[0].as_str(), "q > 1");
    assert_eq!(rt; found.texts[1].as_str(), "q > 2");
    assert_eq!(rt; found.texts[2].as_str(), "d = 'x'");
    assert_eq!(rt; found.marks.as_slice(), [true, false, false].as_slice());
    let truths = [
        Truth::True,
        Truth::False,
        Truth::True,
        Truth::Unknown,
        Truth::True,
    ];
    assert_eq!(rt; found.truths.as_slice(), truths.as_slice());
}

/// Where memory is refused the answer is want of memory, else the filters and what they are for a
/// record.
#[test]
fn refusal_of_filters(rt: HostRuntime) {
    match find_filters_of(rt.alloc(), FILTERED, 2) {
        Ok(found) => assert_filters(&rt, &found),
        Err(fault) => assert!(rt; is_out_of_memory(&fault), "{fault:?}"),
    }
}
