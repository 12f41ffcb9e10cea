//! Values, read from lines.

ghost use Rattle.std.specs.Prelude.{◌≡◌, ◌≢◌, ℕ, List, IfOk, IfSome, MatchOption};
ghost use Rattle.std.specs.Str.{bytes_eq};
ghost use Rattle.json.specs.Print.{quoted};
ghost use Rattle.json.specs.Reads.{token_of};
ghost use Rattle.json.specs.Token as json;
ghost use Rattle.semantics.specs.Values.{whole, text};
ghost use Rattle.values.specs.Datum.{datum_of};
ghost use Rattle.part_lines.specs.Inside.LineValues.{IsNoLiteralName, TellsAmong};
ghost use Rattle.part_lines.specs.LineValues.{IsTextOf, Tells, line_value};

use crate::strings::{has_no_escape, json_string};
use itoa::Buffer;
use json::{Reader, Scratch, Token};
use lines_json::whole_number;
use simdutf8::basic::from_utf8;
use std::alloc::{AllocError, Global};
use values::Value;

/// The value of a line, without its line feed; `None` where the line is the text of no value.
///
/// Example: of `-5` it is the whole number -5, and of ` -5`, `-5.0` or `-05` there is none.
///
/// # Errors
///
/// `AllocError` where there is no memory for the value.
pub fn read_value(
    alloc: Global,
    scratch: &mut Scratch,
    line: &[u8],
) -> Result<Option<Value>, AllocError>
    ensures { Tells result (line_value line.now) }
{
    match short_number(line) {
        Some(value) => Ok(Some(value)),
        None => read_any_value(alloc, scratch, line),
    }
}

/// The whole number of 64 bits that a line is the text of; `None` says nothing of the line.
fn short_number(line: &[u8]) -> Option<Value>
    ensures { IfSome result (λ value. IsTextOf line.now (datum_of value)) }
{
    let number = whole_number(line)?;
    if Buffer::new().format(number).as_bytes() == line {
        Some(Value::Int(i128::from(number)))
    } else {
        None
    }
}

/// The value of a line as `read_value` has it, whatever it is.
fn read_any_value(
    alloc: Global,
    scratch: &mut Scratch,
    line: &[u8],
) -> Result<Option<Value>, AllocError>
    ensures { Tells result (line_value line.now) }
{
    let Ok(line) = from_utf8(line) else {
        return Ok(None);
    };
    if let Some(value) = literal_value(line) {
        return Ok(Some(value));
    }
    if line.starts_with('"') {
        read_string(alloc, scratch, line)
    } else {
        Ok(read_number(line))
    }
}

/// The value of a literal name of JSON (RFC 8259, section 3).
fn literal_value(line: &str) -> Option<Value>
    ensures { MatchOption result (IsNoLiteralName line.now)
        (λ value. IsTextOf line.now (datum_of value)) }
{
    match line {
        "true" => Some(Value::Bool(true)),
        "false" => Some(Value::Bool(false)),
        "null" => Some(Value::Null),
        _ => None,
    }
}

/// The whole number of a line, if it has 128 bits and is written as numbers are: without a plus, a
/// zero in front, a fraction or an exponent.
fn read_number(line: &str) -> Option<Value>
    ensures { TellsAmong whole line.now result }
{
    let Ok(number) = line.parse::<i128>() else {
        return None;
    };
    if Buffer::new().format(number) == line {
        Some(Value::Int(number))
    } else {
        None
    }
}

/// The text of a line, if it is a string of JSON with the shortest escapes.
fn read_string(
    alloc: Global,
    scratch: &mut Scratch,
    line: &str,
) -> Result<Option<Value>, AllocError>
    ensures { IfOk result (TellsAmong text line.now) }
{
    match plain_string(line) {
        Some(string) => Ok(Some(Value::Text(String::from_str(alloc, string)?))),
        None => read_escaped_string(alloc, scratch, line),
    }
}

/// The text between the quotes of a line, where it stands there as it is, without an escape; `None`
/// says nothing of the line.
fn plain_string<'a>(line: &'a str) -> Option<&'a str>
    ensures { IfSome result (λ s. line.now ≡ quoted s.now) }
{
    let string = line.strip_prefix('"')?.strip_suffix('"')?;
    if has_no_escape(string) {
        Some(string)
    } else {
        None
    }
}

/// The text of a line as `read_string` has it, with escapes or without.
fn read_escaped_string(
    alloc: Global,
    scratch: &mut Scratch,
    line: &str,
) -> Result<Option<Value>, AllocError>
    ensures { IfOk result (TellsAmong text line.now) }
{
    let mut reader = Reader::new(line, scratch)?;
    let Some(token) = reader.next() else {
        return Ok(None);
    };
    let Some(string) = string_in(token) else {
        return Ok(None);
    };
    if !is_string_of(alloc, string, line)? {
        return Ok(None);
    }
    Ok(Some(Value::Text(String::from_str(alloc, string)?)))
}

/// The text of a token, if it is a string.
fn string_in<'a>(token: Token<'a>) -> Option<&'a str>
    ensures { MatchOption result ((s : List ℕ) → token_of token.entry ≢ json.string s)
        (λ s. token_of token.entry ≡ json.string s.now) }
{
    match token {
        Token::String(text) => Some(text),
        Token::BeginObject
        | Token::EndObject
        | Token::BeginArray
        | Token::EndArray
        | Token::Key(_)
        | Token::Number(_)
        | Token::Bool(_)
        | Token::Null
        | Token::Bad => None,
    }
}

/// Whether a line is a text as a string of JSON.
fn is_string_of(alloc: Global, text: &str, line: &str) -> Result<bool, AllocError>
    ensures { IfOk result (λ same. same ≡ bytes_eq (quoted text.now) line.now) }
{
    Ok(json_string(alloc, text)?.as_slice() == line.as_bytes())
}
