//! The parts of a schema text.

ghost use Rattle.std.specs.Prelude.{◌≡◌, ◌≢◌, IfErr, IfOk, Some, None};
ghost use Rattle.std.specs.List.{list_all, list_any};
ghost use Rattle.std.specs.Str.{bytes_eq};
ghost use Rattle.semantics.specs.Columns.{column_of, fault_of, kind_named, kind_of, name_of, names_of};
ghost use Rattle.semantics.specs.Words.{begins_word, continues_word, is_word};
ghost use Rattle.values.specs.Schema.{field_of, fields_of};

use crate::schema::Column;
use semantics::{Kind, SchemaFault};
use std::alloc::Global;

/// The most columns that a schema has.
const MAX_COLUMNS: usize = 32;

/// Whether a word begins with a byte.
fn begins_word(byte: u8) -> bool
    ensures letter { result ≡ begins_word byte }
{
    byte.is_ascii_alphabetic() || byte == b'_'
}

/// Whether a word goes on with a byte.
fn continues_word(byte: u8) -> bool
    ensures letter { result ≡ continues_word byte }
{
    byte.is_ascii_alphabetic() || byte.is_ascii_digit() || byte == b'_'
}

/// Whether a text is a word, as the name of a column is.
fn is_word(text: &str) -> bool
    ensures word { result ≡ is_word text.now }
{
    match text.as_bytes() {
        [first, rest @ ..] => begins_word(*first) && all_continue(rest),
        [] => false,
    }
}

/// Whether a word goes on with each byte.
fn all_continue(bytes: &[u8]) -> bool
    ensures all { result ≡ list_all continues_word bytes.now }
{
    bytes.iter().all(|byte| continues_word(*byte))
}

/// The type that a text names.
fn kind_named(text: &str) -> Option<Kind>
    ensures kind { result ≡ kind_named text.now }
{
    match text {
        "int" => Some(Kind::Int),
        "text" => Some(Kind::Text),
        "bool" => Some(Kind::Bool),
        _ => None,
    }
}

/// The name and the type of a part `name:type`.
fn name_and_kind(part: &str) -> (&str, Option<Kind>)
    ensures name { result.0.now ≡ name_of part.now }
    ensures kind { result.1 ≡ kind_of part.now }
{
    match part.split_once(':') {
        Some((name, kind)) => (name, kind_named(kind)),
        None => (part, None),
    }
}

/// Whether a column has this name.
fn has_name(columns: &[Column], name: &str) -> bool
    ensures any { result ≡ list_any (bytes_eq name.now) (names_of (fields_of columns.now)) }
{
    columns.iter().any(|column| name == column.name.as_str())
}

/// The column that a part names behind the columns before it, or the part's fault.
pub(crate) fn next_column(
    alloc: Global,
    before: &[Column],
    part: &str,
) -> Result<Column, SchemaFault>
    ensures sound { IfOk result (λ _. fault_of (names_of (fields_of before.now)) part.now ≡ None) }
    ensures column { IfOk result (λ column. column_of part.now ≡ Some (field_of column)) }
    ensures fault { IfErr result (λ fault. fault ≢ SchemaFault.OutOfMemory
        → fault_of (names_of (fields_of before.now)) part.now ≡ Some fault) }
{
    let number = before.len() + 1;
    if number > MAX_COLUMNS {
        return Err(SchemaFault::TooManyColumns);
    }
    let (name, kind) = name_and_kind(part);
    if !is_word(name) {
        return Err(SchemaFault::BadName(number));
    }
    let Some(kind) = kind else {
        return Err(SchemaFault::UnknownType(number));
    };
    if has_name(before, name) {
        return Err(SchemaFault::RepeatedName(number));
    }
    match name.to_string(alloc) {
        Ok(name) => Ok(Column { name, kind }),
        Err(_) => Err(SchemaFault::OutOfMemory),
    }
}
