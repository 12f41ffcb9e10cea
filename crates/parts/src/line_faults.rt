//! What is wrong with a line, as a text and back.

ghost use Rattle.std.specs.Prelude.{◌≡◌, ◌++◌, IfOk, codes, position, string_bytes};
ghost use Rattle.std.specs.Str.{bytes_eq};
ghost use Rattle.semantics.specs.Canonical.{name_at};
ghost use Rattle.semantics.specs.Columns.{names_of};
ghost use Rattle.semantics.specs.Texts.{fault_text};
ghost use Rattle.values.specs.Schema.{fields_of};
ghost use Rattle.parts.specs.ReadingParts.{bad_column, fault_named};

use crate::header::behind_front;
use lines::LineFault;
use std::alloc::{AllocError, Global};
use values::Column;

/// What stands before the name of a column whose value is bad.
const BAD_VALUE: &str = "bad value in column ";

/// What is wrong with a line, as the list of refused lines says it.
pub(crate) fn fault_text(
    alloc: Global,
    columns: &[Column],
    fault: LineFault,
) -> Result<String, AllocError>
    ensures { IfOk result (λ text. string_bytes text ≡ fault_text (fields_of columns.now) fault) }
{
    match fault {
        LineFault::TooLong => String::from_str(alloc, "too long"),
        LineFault::NoJson => String::from_str(alloc, "not JSON"),
        LineFault::NoObject => String::from_str(alloc, "not an object"),
        LineFault::BadValue(place) => bad_value_text(alloc, column_name(columns, place)),
    }
}

/// That the value in the column of this name is bad.
fn bad_value_text(alloc: Global, name: &str) -> Result<String, AllocError>
    ensures { IfOk result (λ text. string_bytes text
        ≡ codes "bad value in column " ++ name.now) }
{
    let mut text = String::from_str(alloc, BAD_VALUE)?;
    text.push_str(name)?;
    Ok(text)
}

/// The name of the column at a place, and nothing where there is no column.
fn column_name(columns: &[Column], place: usize) -> &str
    ensures { result.now ≡ name_at (fields_of columns.now) place }
{
    match columns.get(place) {
        Some(column) => column.name.as_str(),
        None => "",
    }
}

/// The fault of a line that a text names.
pub(crate) fn fault_named(columns: &[Column], text: &str) -> Option<LineFault>
    ensures { result ≡ fault_named (fields_of columns.now) text.now }
{
    match text {
        "too long" => Some(LineFault::TooLong),
        "not JSON" => Some(LineFault::NoJson),
        "not an object" => Some(LineFault::NoObject),
        _ => match bad_column(columns, text) {
            Some(place) => Some(LineFault::BadValue(place)),
            None => None,
        },
    }
}

/// The place of the column whose value a text says to be bad.
fn bad_column(columns: &[Column], text: &str) -> Option<usize>
    ensures { result ≡ bad_column (fields_of columns.now) text.now }
{
    match behind_front(BAD_VALUE, text) {
        Some(name) => place_of(columns, name),
        None => None,
    }
}

/// The place of the column of this name.
fn place_of(columns: &[Column], name: &str) -> Option<usize>
    ensures { result
        ≡ position (λ column. bytes_eq name.now (string_bytes column.name)) columns.now }
{
    columns
        .iter()
        .position(|column| name == column.name.as_str())
}
