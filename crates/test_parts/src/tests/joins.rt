//! Parts, written and read.

use parts::{PartsRefusal, read_parts, write_part};
use query::{Plan, check, parse};
use std::alloc::{AllocError, Global};
use std::process::Abort;
use tables::{Partial, Serial};
use values::Schema;

const COLUMNS: &str = "shop:text,cents:int";

const QUERY: &str = "SELECT shop, SUM(cents) AS s FROM lines GROUP BY ROLLUP (shop)";

/// Four lines, of which the second one is no JSON.
const FOUR: &[u8] =
    b"{\"shop\":\"Harbour\",\"cents\":5}\nnot JSON\n{\"shop\":\"Harbour\",\"cents\":2}\n{\"cents\":1}\n";

const MARK: &[u8] = b"\"jlreport part 1\"\n";

const OF_COLUMNS: &[u8] = b"\"shop:text,cents:int\"\n";

const OF_QUERY: &[u8] = b"\"SELECT shop, SUM(cents) AS s FROM lines GROUP BY ROLLUP (shop)\"\n";

/// The lines of the four, of the refused one, and of the two groups.
const CONTENTS: &[u8] = b"4\n1\n2\n\"not JSON\"\n2\n\"Harbour\"\n2\n7\n2\nnull\n1\n1\n1\n";

/// The SHA-256 of all lines before, by another program.
const CHECKSUM: &[u8] = b"\"d6c42a35f77c6ec05dcafd798ea7477daf5fa4a8203bcdc3801bef5c84155bee\"\n";

/// The part of the four lines.
const PART: &[&[u8]] = &[MARK, OF_COLUMNS, OF_QUERY, CONTENTS, CHECKSUM];

/// Lines that are no parts, and what is wrong with them.
const BROKEN: &[(&[&[u8]], &str)] = &[
    (&[], "part 1, line 1: no part"),
    (&[b"4\n"], "part 1, line 1: not a part"),
    (
        &[b"\"jlreport part 2\"\n"],
        "part 1, line 1: a part of version 2",
    ),
    (
        &[MARK, b"\"shop:text\"\n"],
        "part 1, line 2: other columns: \"shop:text\"",
    ),
    (
        &[MARK, OF_COLUMNS, b"\"SELECT\"\n"],
        "part 1, line 3: another query: \"SELECT\"",
    ),
    (
        &[MARK, OF_COLUMNS, OF_QUERY, b"1.0\n"],
        "part 1, line 4: not a value",
    ),
    (
        &[MARK, OF_COLUMNS, OF_QUERY, b"null\n"],
        "part 1, line 4: unexpected value",
    ),
    (
        &[MARK, OF_COLUMNS, OF_QUERY, b"4\n5\n"],
        "part 1, line 5: out of range",
    ),
    (
        &[
            MARK,
            OF_COLUMNS,
            OF_QUERY,
            b"4\n2\n2\n\"not JSON\"\n2\n\"not JSON\"\n",
        ],
        "part 1, line 8: out of order",
    ),
    (
        &[MARK, OF_COLUMNS, OF_QUERY, b"9223372036854775808\n"],
        "part 1, line 4: too many lines",
    ),
    (
        &[MARK, OF_COLUMNS, OF_QUERY, CONTENTS],
        "part 1, line 17: ends too early",
    ),
    (
        &[MARK, OF_COLUMNS, OF_QUERY, CONTENTS, MARK],
        "part 1, line 17: checksum does not fit",
    ),
    (
        &[MARK, OF_COLUMNS, OF_QUERY, CONTENTS, CHECKSUM, OF_QUERY],
        "part 2, line 18: not a part",
    ),
];

/// The plan of the query, and `None` for want of memory.
fn plan_or_refused(alloc: Global) -> Option<Plan> {
    let schema = Schema::parse(alloc, COLUMNS).ok()?;
    let query = parse(alloc, QUERY).ok()?;
    check(alloc, query, schema).ok()
}

/// Pieces of a text, one behind the other.
fn joined(alloc: Global, pieces: &[&[u8]]) -> Result<Vec<u8>, AllocError> {
    let mut text = Vec::new(alloc);
    for piece in pieces {
        text.extend_from_slice(piece)?;
    }
    Ok(text)
}

/// The text of the part of the four lines.
fn part_of_four(alloc: Global, plan: &Plan) -> Result<Vec<u8>, AllocError> {
    let partial = Partial::fold_piece(alloc, plan, 0, FOUR)?;
    write_part(alloc, plan, partial)
}

/// The text of the join of the parts that a text is.
fn join_of(alloc: Global, plan: &Plan, text: &[u8]) -> Result<Vec<u8>, PartsRefusal> {
    let partial = read_parts(alloc, plan, &Serial, text)?;
    match write_part(alloc, plan, partial) {
        Ok(text) => Ok(text),
        Err(_) => Err(PartsRefusal::OutOfMemory),
    }
}

/// Asserts that the part is that of the four lines, and is read as what it was written of.
fn assert_part_of_four(rt: &impl Abort, alloc: Global, plan: &Plan) {
    let part = joined(alloc, PART).expect(rt, "memory");
    let written = part_of_four(alloc, plan).expect(rt, "memory");
    assert!(rt; written.as_slice() == part.as_slice());
    let again = join_of(alloc, plan, part.as_slice())
        .ok()
        .expect(rt, "a part");
    assert!(rt; again.as_slice() == part.as_slice());
}

#[test]
fn part_of_four_lines(rt: HostRuntime) {
    let plan = plan_or_refused(rt.alloc()).expect(&rt, "a plan");
    assert_part_of_four(&rt, rt.alloc(), &plan);
    drop(plan);
}

/// Asserts that the first fault of lines is told so.
fn assert_fault(rt: &impl Abort, alloc: Global, plan: &Plan, pieces: &[&[u8]], told: &str) {
    let text = joined(alloc, pieces).expect(rt, "memory");
    match read_parts(alloc, plan, &Serial, text.as_slice()) {
        Err(PartsRefusal::Fault(fault)) => {
            let text = format!(in alloc; "{fault}").expect(rt, "memory");
            assert!(rt; text.as_str() == told, "{text}");
        }
        Ok(_) | Err(PartsRefusal::Reading | PartsRefusal::OutOfMemory) => panic!(rt; "{told}"),
    }
}

#[test]
fn faults_of_parts(rt: HostRuntime) {
    let plan = plan_or_refused(rt.alloc()).expect(&rt, "a plan");
    for (pieces, told) in BROKEN {
        assert_fault(&rt, rt.alloc(), &plan, pieces, told);
    }
    drop(plan);
}

/// Asserts that each front of a text is no part, but the one that lacks the last line feed alone.
fn assert_fronts(rt: &impl Abort, alloc: Global, plan: &Plan, text: &[u8]) {
    for len in 0..text.len() {
        let is_read = read_parts(alloc, plan, &Serial, &text[..len]).is_ok();
        assert!(rt; is_read == (len + 1 == text.len()), "{len}");
    }
}

#[test]
fn fronts_of_a_part(rt: HostRuntime) {
    let plan = plan_or_refused(rt.alloc()).expect(&rt, "a plan");
    let text = joined(rt.alloc(), PART).expect(&rt, "memory");
    assert_fronts(&rt, rt.alloc(), &plan, text.as_slice());
    drop(plan);
}

/// For the loop that refuses each allocation in turn: the part of the four lines, read and written
/// again, or want of memory.
#[test]
fn refusal_of_parts(rt: HostRuntime) {
    if let Some(plan) = plan_or_refused(rt.alloc()) {
        if let Ok(part) = part_of_four(rt.alloc(), &plan) {
            match join_of(rt.alloc(), &plan, part.as_slice()) {
                Ok(again) => assert!(&rt; again.as_slice() == part.as_slice()),
                Err(refusal) => assert!(&rt; matches!(refusal, PartsRefusal::OutOfMemory)),
            }
        }
        drop(plan);
    }
}
