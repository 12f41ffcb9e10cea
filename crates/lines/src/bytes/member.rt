//! The value of a member, as a column of its name takes it.

ghost use Rattle.std.specs.Prelude.{◌≡◌, ◌<◌, ◌≤◌, IfSome, get_or, length};
ghost use Rattle.semantics.specs.declared.kind.Kind.{Kind};
ghost use Rattle.lines.specs.Inside.Members.{IsTakenAt};
ghost use Rattle.lines_json.specs.Bytes.{byte_or_space, quotation_mark};

use crate::spare::Spare;
use lines_json::{bool_at, byte_at, null_end, plain_string_end, push_content, whole_number_at};
use values::{Kind, Value};

/// What a column of this type takes of the value that stands at a place, and where the value ends;
/// `None` says nothing of the text.
#[inline(always)]
pub(crate) fn value_at(
    kind: Kind,
    text: &str,
    at: usize,
    spare: &mut Spare,
) -> Option<(Value, usize)>
    requires { at ≤ length text.now }
    ensures { IfSome result (λ r. IsTakenAt text.now kind at r.1 r.0) }
{
    let line = text.as_bytes();
    if byte_at(line, at) == b'n' {
        return null_at(line, at);
    }
    present_at(kind, text, at, spare)
}

/// The same, but for NULL.
#[inline(always)]
fn present_at(kind: Kind, text: &str, at: usize, spare: &mut Spare) -> Option<(Value, usize)>
    requires { at ≤ length text.now }
    ensures { IfSome result (λ r. IsTakenAt text.now kind at r.1 r.0) }
{
    match kind {
        Kind::Int => int_at(text.as_bytes(), at),
        Kind::Text => text_at(text, at, spare),
        Kind::Bool => truth_at(text.as_bytes(), at),
    }
}

/// The same of NULL, which each column takes.
fn null_at(line: &[u8], at: usize) -> Option<(Value, usize)>
    requires { at ≤ length line.now }
    ensures { (k : Kind) → IfSome result (λ r. IsTakenAt line.now k at r.1 r.0) }
{
    let stop = null_end(line, at)?;
    Some((Value::Null, stop))
}

/// The same of a column of whole numbers, but for NULL.
#[inline(always)]
fn int_at(line: &[u8], at: usize) -> Option<(Value, usize)>
    requires { at ≤ length line.now }
    ensures { IfSome result (λ r. IsTakenAt line.now Kind.Int at r.1 r.0) }
{
    let (number, stop) = whole_number_at(line, at)?;
    Some((Value::Int(i128::from(number)), stop))
}

/// The same of a column of texts, but for NULL.
#[inline(always)]
fn text_at(text: &str, at: usize, spare: &mut Spare) -> Option<(Value, usize)>
    requires { at ≤ length text.now }
    ensures { IfSome result (λ r. IsTakenAt text.now Kind.Text at r.1 r.0) }
{
    let line = text.as_bytes();
    if byte_at(line, at) != b'"' {
        return None;
    }
    match plain_string_end(line, at + 1) {
        Some(quote) => {
            let copy = spare.copy(&text[at + 1..quote])?;
            Some((Value::Text(copy), quote + 1))
        }
        None => escaped_text_at(text, at, spare),
    }
}

/// The same where an escape stands in the text; out of line, since few have one.
#[inline(never)]
fn escaped_text_at(text: &str, at: usize, spare: &mut Spare) -> Option<(Value, usize)>
    requires within { at < length text.now }
    requires opens { byte_or_space text.now at ≡ quotation_mark }
    ensures { IfSome result (λ r. IsTakenAt text.now Kind.Text at r.1 r.0) }
{
    let mut content = spare.copy("")?;
    let quote = push_content(text, at + 1, &mut content)?;
    Some((Value::Text(content), quote + 1))
}

/// The same of a column of truth values, but for NULL.
#[inline(always)]
fn truth_at(line: &[u8], at: usize) -> Option<(Value, usize)>
    requires { at ≤ length line.now }
    ensures { IfSome result (λ r. IsTakenAt line.now Kind.Bool at r.1 r.0) }
{
    let (truth, stop) = bool_at(line, at)?;
    Some((Value::Bool(truth), stop))
}
