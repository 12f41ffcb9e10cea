//! What no clause says: that the calls which take no memory, by the pages, ask for none. A test
//! makes its values first, and these calls between two marks. Whoever watches the allocations tells
//! whether one comes between the marks.

use super::runs::{LEAST_ROUND, make_plan};
use jlreport_engine::put;
use lines::{RecordReader, Round, Rounds, checked_lines_of, lines_of};
use pool::{Deal, settled};
use query::{Text, filter_holds, holds};
use query_lexer::reserved_word;
use std::alloc::{AllocError, Global};
use std::sync::atomic::AtomicBool;
use std::test::Fail;
use tables::{Job, JobBy, Partial, Serial};
use values::{Op, Record, Truth, Value, compare};

/// A query that looks at texts and numbers of a record.
const QUERY: &str = "SELECT COUNT(*) FILTER (WHERE d = 'x') AS n FROM lines \
    WHERE q > 2 AND d IN ('y', 'x') GROUP BY CUBE (d, r)";

/// A mark: an allocation of so many bytes as no other has.
fn mark(alloc: Global) {
    let room: Result<Vec<u8>, AllocError> = Vec::with_capacity(alloc, 1_000_003);
    drop(room);
}

#[test]
fn no_memory_for_records(rt: HostRuntime) -> Result<(), Fail> {
    let alloc = rt.alloc();
    let name = "d".to_string(alloc)?;
    let text = "x".to_string(alloc)?;
    let values = vec![in alloc; Value::Text(text), Value::Null, Value::Int(3)]?;
    let plan = make_plan(&rt, alloc, QUERY);
    mark(alloc);
    let record = Record::new(values);
    assert!(rt; plan.schema().fits(&record));
    assert!(rt; plan.functions() == 1);
    assert_eq!(rt; holds(&plan, &record), Truth::True);
    assert_eq!(rt; filter_holds(&plan, 0, &record), Truth::True);
    assert_eq!(rt; plan.query().set_count(), 4);
    assert_eq!(rt;
        compare(Op::Lt, &Value::Int(2), &Value::Int(10)),
        Truth::True
    );
    let values = record.into_values();
    let name = Text::from_string(name);
    drop(RecordReader::new(alloc));
    mark(alloc);
    drop(name);
    drop(values);
    drop(plan);
    Ok(())
}

#[test]
fn no_memory_for_lines(rt: HostRuntime) -> Result<(), Fail> {
    let alloc = rt.alloc();
    let mut rounds = Rounds::new(alloc, b"ab\ncd".as_slice(), LEAST_ROUND)?;
    let spare = Round::new(alloc, LEAST_ROUND)?;
    let demand = AtomicBool::new(true);
    let mut room = [0u8; 5];
    let mut out = room.as_mut_slice();
    mark(alloc);
    assert_eq!(rt; lines_of(b"ab\ncd").next(), Some(b"ab".as_slice()));
    assert!(rt; checked_lines_of(b"ab\ncd").next().is_some());
    assert_eq!(rt; rounds.advance_for(&demand), Ok(true));
    assert_eq!(rt; rounds.round(), b"ab\ncd".as_slice());
    assert!(rt; rounds.is_over());
    let round = rounds.hand_out(spare);
    assert_eq!(rt; rounds.advance(), Ok(false));
    assert_eq!(rt; rounds.next(), Ok(None));
    assert_eq!(rt; put(&mut out, round.bytes()).err(), None);
    mark(alloc);
    assert_eq!(rt; room.as_slice(), b"ab\ncd".as_slice());
    Ok(())
}

#[test]
fn no_memory_for_results(rt: HostRuntime) -> Result<(), Fail> {
    let alloc = rt.alloc();
    let deal = Deal::new(alloc, 4, 2)?;
    let plan = make_plan(&rt, alloc, QUERY);
    let first = Partial::empty(alloc, &plan).expect(&rt, "a result");
    let second = Partial::empty(alloc, &plan).expect(&rt, "a result");
    mark(alloc);
    assert!(rt; first.same_shape(&second));
    drop(JobBy::new(Job::new(alloc, &plan, b"", &[]), &Serial, 0));
    let mut hands = deal.into_hands();
    assert!(rt; !settled(hands.as_mut_slice()));
    assert!(rt; reserved_word("select").is_some());
    mark(alloc);
    drop(hands);
    drop(second);
    drop(first);
    drop(plan);
    Ok(())
}
