//! Pieces, lines and records, to the byte: each call over a table.

use lines::{
    LineFault, LineRefusal, Piece, RecordReader, cut, lines_of, read_by_tree, read_record,
};
use std::alloc::Global;
use std::process::Abort;
use std::test::Fail;
use values::{Record, Schema, Value};

/// Eight bytes with four lines, one of them empty and the last without a line feed.
const FOUR_LINES: &[u8] = b"ab\ncd\n\ne";

/// A value of a record, as a table has it.
#[derive(Clone, Copy, Debug)]
enum Expected {
    Null,
    Int(i64),
    Text(&'static str),
    Bool(bool),
}

impl Expected {
    fn is(self, value: &Value) -> bool {
        match (self, value) {
            (Expected::Null, Value::Null) => true,
            (Expected::Int(number), Value::Int(found)) => i128::from(number) == *found,
            (Expected::Text(text), Value::Text(found)) => found.as_str() == text,
            (Expected::Bool(truth), Value::Bool(found)) => truth == *found,
            (Expected::Null | Expected::Int(_) | Expected::Text(_) | Expected::Bool(_), _) => false,
        }
    }
}

/// Whether these are the values of a record.
fn are_values(expected: &[Expected], record: &Record) -> bool {
    let values = record.values();
    if values.len() != expected.len() {
        return false;
    }
    for (wanted, value) in expected.iter().zip(values) {
        if !wanted.is(value) {
            return false;
        }
    }
    true
}

/// Checks what came of a line: the record of these values, or this fault.
fn check_reading(
    rt: &impl Abort,
    read: Result<Record, LineRefusal>,
    expected: Result<&[Expected], LineFault>,
) {
    match (read, expected) {
        (Ok(record), Ok(values)) => assert!(rt; are_values(values, &record), "{expected:?}"),
        (Err(refusal), Err(fault)) => assert_eq!(rt; refusal, LineRefusal::Fault(fault)),
        (read, _) => panic!(rt; "{read:?}, and not {expected:?}"),
    }
}

/// Checks the same where memory may be refused: the record, the fault, or want of memory.
fn check_refusable(
    rt: &impl Abort,
    read: Result<Record, LineRefusal>,
    expected: Result<&[Expected], LineFault>,
) {
    match read {
        Err(LineRefusal::Memory) => {}
        read => check_reading(rt, read, expected),
    }
}

/// Checks what comes of a line by every way to read it; the tokens alone answer exactly where there
/// is a record, and the bytes alone where moreover the first name does not begin with an escape.
fn check_line(
    rt: &impl Abort,
    alloc: Global,
    reader: &mut RecordReader,
    columns: &str,
    line: &[u8],
    expected: Result<&[Expected], LineFault>,
) -> Result<(), Fail> {
    let schema = Schema::parse(alloc, columns)?;
    check_reading(rt, reader.read(&schema, line), expected);
    check_reading(rt, read_by_tree(alloc, &schema, line), expected);
    check_reading(rt, read_record(alloc, &schema, line), expected);
    match reader.read_by_tokens(&schema, line) {
        Some(record) => check_reading(rt, Ok(record), expected),
        None => assert!(rt; expected.is_err(), "{expected:?}"),
    }
    match reader.read_by_bytes(&schema, line) {
        Some(record) => check_reading(rt, Ok(record), expected),
        None => assert!(rt;
            expected.is_err() || line.starts_with(b"{\"\\"),
            "{expected:?}"
        ),
    }
    Ok(())
}

/// `{"q":1}` with white space behind it, `len` bytes in all.
fn pad_line(alloc: Global, len: usize) -> Result<Vec<u8>, Fail> {
    let mut line = b"{\"q\":1}".to_vec(alloc)?;
    line.resize(len, b' ')?;
    Ok(line)
}

#[test]
fn lines_of_bytes(rt: HostRuntime) {
    let rows: [(&[u8], &[&[u8]]); 6] = [
        (FOUR_LINES, &[b"ab", b"cd", b"", b"e"]),
        (b"", &[]),
        (b"\n", &[b""]),
        (b"a", &[b"a"]),
        (b"a\n", &[b"a"]),
        (b"a\r\nb", &[b"a\r", b"b"]),
    ];
    for (bytes, expected) in rows {
        let mut lines = lines_of(bytes);
        for line in expected {
            assert_eq!(rt; lines.next(), Some(*line));
        }
        assert_eq!(rt; lines.next(), None);
        assert_eq!(rt; lines.next(), None);
    }
}

#[test]
fn cuts_of_bytes(rt: HostRuntime) -> Result<(), Fail> {
    let rows: [(&[u8], usize, &[usize]); 8] = [
        (b"", 1, &[]),
        (FOUR_LINES, 1, &[3, 6, 7, 8]),
        (FOUR_LINES, 2, &[3, 6, 8]),
        (FOUR_LINES, 3, &[3, 6, 8]),
        (FOUR_LINES, 4, &[6, 8]),
        (FOUR_LINES, 7, &[7, 8]),
        (FOUR_LINES, 8, &[8]),
        (FOUR_LINES, 1000, &[8]),
    ];
    for (input, target, stops) in rows {
        assert!(rt; target >= 1);
        let pieces = cut(rt.alloc(), input, target)?;
        assert_eq!(rt; pieces.len(), stops.len());
        let mut start = 0;
        for (piece, stop) in pieces.iter().zip(stops) {
            assert_eq!(rt; *piece, Piece { start, stop: *stop });
            start = *stop;
        }
    }
    Ok(())
}

/// Among the records are a plain line, members in any order, repeated names, of which the last
/// counts, escapes in names and texts, and nested values and floats that no column takes.
#[test]
fn lines_as_records(rt: HostRuntime) -> Result<(), Fail> {
    let columns = "d:text,q:int,v:bool";
    let rows: [(&[u8], Result<&[Expected], LineFault>); 23] = [
        (
            b"{\"d\":\"a\",\"q\":7,\"v\":true}",
            Ok(&[Expected::Text("a"), Expected::Int(7), Expected::Bool(true)]),
        ),
        (
            b"{\"v\": true, \"other\": [1, {}], \"d\": \"a\\\"b\", \"q\": 7}\r",
            Ok(&[
                Expected::Text("a\"b"),
                Expected::Int(7),
                Expected::Bool(true),
            ]),
        ),
        (
            b" {\"v\": null, \"d\": \"\\u0061\\n\", \"x\": [1.5e3, {\"y\": -0.0}, []]} ",
            Ok(&[Expected::Text("a\n"), Expected::Null, Expected::Null]),
        ),
        (
            b"{\"q\":1,\"d\":\"\\\"\\\\\\/\\b\\f\\n\\r\\t\xc3\xa9\\u00E9\\ud83d\\ude00 \xc3\xa9\"}",
            Ok(&[
                Expected::Text("\"\\/\u{8}\u{c}\n\r\t\u{e9}\u{e9}\u{1f600} \u{e9}"),
                Expected::Int(1),
                Expected::Null,
            ]),
        ),
        (
            b"{\"q\":1,\"v\":true,\"q\":-9223372036854775808,\"v\":false}",
            Ok(&[
                Expected::Null,
                Expected::Int(-9_223_372_036_854_775_808),
                Expected::Bool(false),
            ]),
        ),
        (
            b"{\"\\u0064\":\"b\",\"z\":18446744073709551616,\"q\":9223372036854775807}",
            Ok(&[
                Expected::Text("b"),
                Expected::Int(9_223_372_036_854_775_807),
                Expected::Null,
            ]),
        ),
        (
            b"{\"q\":null}",
            Ok(&[Expected::Null, Expected::Null, Expected::Null]),
        ),
        (b"{}", Ok(&[Expected::Null, Expected::Null, Expected::Null])),
        (b"", Err(LineFault::NoJson)),
        (b"{\"q\":1", Err(LineFault::NoJson)),
        (b"{\"q\":1}}", Err(LineFault::NoJson)),
        (b"{\"q\":1,}", Err(LineFault::NoJson)),
        (b"{\"q\":1 \"v\":true}", Err(LineFault::NoJson)),
        (b"{\"x\":1e400}", Err(LineFault::NoJson)),
        (b"{\"d\":\"\xff\"}", Err(LineFault::NoJson)),
        (b"{\"x\":\"\xff\"}", Err(LineFault::NoJson)),
        (b"{\"d\":\"\\ud83d\"}", Err(LineFault::NoJson)),
        (b"{\"d\":\"\\x\"}", Err(LineFault::NoJson)),
        (b"[1]", Err(LineFault::NoObject)),
        (b"{\"q\":true}", Err(LineFault::BadValue(1))),
        (b"{\"q\":9223372036854775808}", Err(LineFault::BadValue(1))),
        (b"{\"q\":1.0,\"v\":1}", Err(LineFault::BadValue(1))),
        (b"{\"v\":1,\"d\":2,\"q\":3}", Err(LineFault::BadValue(0))),
    ];
    let mut reader = RecordReader::new(rt.alloc());
    for (line, expected) in rows {
        check_line(&rt, rt.alloc(), &mut reader, columns, line, expected)?;
    }
    Ok(())
}

#[test]
fn long_lines(rt: HostRuntime) -> Result<(), Fail> {
    let alloc = rt.alloc();
    let mut reader = RecordReader::new(alloc);
    let mut nested = vec![in alloc; b'['; 200]?;
    nested.resize(400, b']')?;
    let rows: [(Vec<u8>, Result<&[Expected], LineFault>); 3] = [
        (pad_line(alloc, 1_048_576)?, Ok(&[Expected::Int(1)])),
        (pad_line(alloc, 1_048_577)?, Err(LineFault::TooLong)),
        (nested, Err(LineFault::NoJson)),
    ];
    for (line, expected) in &rows {
        check_line(&rt, alloc, &mut reader, "q:int", line.as_slice(), *expected)?;
    }
    Ok(())
}

/// For the loop that refuses each allocation in turn: all pieces, or want of memory.
#[test]
fn refusal_of_cut(rt: HostRuntime) {
    match cut(rt.alloc(), FOUR_LINES, 1) {
        Ok(pieces) => assert_eq!(rt; pieces.len(), 4),
        Err(_) => {}
    }
}

/// The same of a good line and of refused ones, by a reader that reads on and by calls of their
/// own.
#[test]
fn refusal_of_records(rt: HostRuntime) {
    let Ok(schema) = Schema::parse(rt.alloc(), "d:text,q:int") else {
        return;
    };
    let rows: [(&[u8], Result<&[Expected], LineFault>); 4] = [
        (
            b"{\"d\":\"a text that is long enough\",\"q\":7,\"more\":[1,2,{\"a\":null}]}",
            Ok(&[
                Expected::Text("a text that is long enough"),
                Expected::Int(7),
            ]),
        ),
        (
            b"{\"d\":\"a text that is long enough\"",
            Err(LineFault::NoJson),
        ),
        (
            b"[\"a text that is long enough\"]",
            Err(LineFault::NoObject),
        ),
        (
            b"{\"d\":\"a text that is long enough\",\"q\":\"b\"}",
            Err(LineFault::BadValue(1)),
        ),
    ];
    let mut reader = RecordReader::new(rt.alloc());
    for (line, expected) in rows {
        check_refusable(&rt, reader.read(&schema, line), expected);
        check_refusable(&rt, read_record(rt.alloc(), &schema, line), expected);
        check_refusable(&rt, read_by_tree(rt.alloc(), &schema, line), expected);
    }
}
