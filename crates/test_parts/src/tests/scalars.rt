//! Values and their lines, and lines that are no values, by RFC 8259.

use part_lines::{Scratch, push_value, read_value};
use std::alloc::{AllocError, Global};
use std::process::Abort;
use values::Value;

/// A value, as a table has it.
#[derive(Clone, Copy)]
pub enum Scalar {
    Null,
    Bool(bool),
    Int(i128),
    Text(&'static str),
}

impl Scalar {
    pub fn value(self, alloc: Global) -> Result<Value, AllocError> {
        match self {
            Scalar::Null => Ok(Value::Null),
            Scalar::Bool(truth) => Ok(Value::Bool(truth)),
            Scalar::Int(number) => Ok(Value::Int(number)),
            Scalar::Text(text) => Ok(Value::Text(text.to_string(alloc)?)),
        }
    }
}

/// Values, each with its line.
const SCALARS: &[(Scalar, &[u8])] = &[
    (Scalar::Null, b"null"),
    (Scalar::Bool(true), b"true"),
    (Scalar::Bool(false), b"false"),
    (Scalar::Int(0), b"0"),
    (Scalar::Int(-5), b"-5"),
    (
        Scalar::Int(i128::MAX),
        b"170141183460469231731687303715884105727",
    ),
    (
        Scalar::Int(i128::MIN),
        b"-170141183460469231731687303715884105728",
    ),
    (Scalar::Text(""), b"\"\""),
    (Scalar::Text("null"), b"\"null\""),
    (Scalar::Text("a\"b"), b"\"a\\\"b\""),
    (Scalar::Text("a\\b"), b"\"a\\\\b\""),
    (Scalar::Text("a\nb"), b"\"a\\nb\""),
    (Scalar::Text("\u{8}\u{c}\r\t"), b"\"\\b\\f\\r\\t\""),
    (
        Scalar::Text("\u{0}\u{1}\u{11}"),
        b"\"\\u0000\\u0001\\u0011\"",
    ),
    (Scalar::Text(" /\u{7f}"), b"\" /\x7f\""),
    (Scalar::Text("\u{e9}"), b"\"\xc3\xa9\""),
    (Scalar::Text("\u{1f600}"), b"\"\xf0\x9f\x98\x80\""),
];

/// Lines that are no values. Those that stand for a value in JSON are not written as it is: with a
/// sign, a digit, a space or an escape more.
const NO_SCALARS: &[&[u8]] = &[
    b"",
    b" ",
    b" 1",
    b"1 ",
    b"1\r",
    b"1\n",
    b"-0",
    b"01",
    b"+1",
    b"1.0",
    b"1e3",
    b"1E0",
    b"-",
    b"0x1",
    b"1,2",
    b"170141183460469231731687303715884105728",
    b"-170141183460469231731687303715884105729",
    b"TRUE",
    b"Null",
    b"nul",
    b"nulls",
    b"true false",
    b"[]",
    b"{}",
    b"a",
    b"\"",
    b"\"a",
    b"a\"",
    b"'a'",
    b" \"a\"",
    b"\"a\" ",
    b"\"a\"\"b\"",
    b"\"a\"b\"",
    b"\"a\nb\"",
    b"\"\\u000a\"",
    b"\"\\u0061\"",
    b"\"\\/\"",
    b"\"\\x\"",
    b"\"\\ud83d\\ude00\"",
    b"\"\\ud83d\"",
    b"\"\xf0\x9f\x98\"",
    b"\"\xff\"",
];

/// Puts a line and a line feed behind a text.
pub fn push_line(text: &mut Vec<u8>, line: &[u8]) -> Result<(), AllocError> {
    text.extend_from_slice(line)?;
    text.push(b'\n')?;
    Ok(())
}

/// Checks what a line is read as.
fn check_reading(
    rt: &impl Abort,
    alloc: Global,
    scratch: &mut Scratch,
    line: &[u8],
    expected: Option<Value>,
) -> Result<(), AllocError> {
    let read = read_value(alloc, scratch, line)?;
    assert_eq!(rt; read, expected);
    Ok(())
}

/// Checks both tables, the lines of the values one behind the other. It fails for want of memory
/// alone.
pub fn check_scalars(rt: &impl Abort, alloc: Global) -> Result<(), AllocError> {
    let mut scratch = Scratch::new(alloc);
    let mut text = Vec::new(alloc);
    let mut expected = Vec::new(alloc);
    for (scalar, line) in SCALARS {
        let value = scalar.value(alloc)?;
        push_value(alloc, &mut text, &value)?;
        push_line(&mut expected, line)?;
        assert!(rt; text == expected, "{value:?}");
        check_reading(rt, alloc, &mut scratch, line, Some(value))?;
    }
    for line in NO_SCALARS {
        check_reading(rt, alloc, &mut scratch, line, None)?;
    }
    Ok(())
}

/// For the loop that refuses each allocation in turn: all as the tables have it, or want of memory.
#[test]
fn refusal_of_scalars(rt: HostRuntime) {
    match check_scalars(&rt, rt.alloc()) {
        Ok(()) | Err(AllocError) => {}
    }
}
