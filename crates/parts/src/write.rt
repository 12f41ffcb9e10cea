//! The lines of a part, written one by one.

ghost use Rattle.std.specs.Prelude.{◌≡◌, [], ◌∷◌, ◌++◌, IfOk, OnOk, length, string_bytes};
ghost use Rattle.semantics.specs.Canonical.{canonical_text};
ghost use Rattle.semantics.specs.Values as semantics;
ghost use Rattle.values.specs.Schema.{fields_of};
ghost use Rattle.semantics.specs.Parts.{line_of, text_of, columns_text, front_of, header_of, number, refused_line_values, refused_values};

use crate::columns::columns_text;
use crate::header::MARK;
use crate::line_faults::fault_text;
use lines::LineFault;
use part_lines::push_value;
use query_plan::Plan;
use query_printer::print_tree;
use std::alloc::{AllocError, Global};
use values::{Column, Value};

/// Puts the line of a number of things behind a text.
fn push_number(alloc: Global, text: &mut Vec<u8>, count: u64) -> Result<(), AllocError>
    ensures { OnOk result (text.new.items ≡ text.old.items ++ line_of (number count)) }
{
    push_value(alloc, text, &Value::Int(i128::from(count)))
}

/// Puts the line of a text behind others.
pub(crate) fn push_text(alloc: Global, text: &mut Vec<u8>, string: &str) -> Result<(), AllocError>
    ensures { OnOk result (text.new.items ≡ text.old.items ++ line_of (semantics.text string.now)) }
{
    let value = Value::Text(String::from_str(alloc, string)?);
    push_value(alloc, text, &value)
}

/// Puts the lines of a refused line behind a text.
fn push_refused_line(
    alloc: Global,
    text: &mut Vec<u8>,
    columns: &[Column],
    number: u64,
    fault: LineFault,
) -> Result<(), AllocError>
    ensures { OnOk result (text.new.items ≡ text.old.items
        ++ text_of (refused_line_values (fields_of columns.now) (number, fault))) }
{
    push_number(alloc, text, number)?;
    push_value(
        alloc,
        text,
        &Value::Text(fault_text(alloc, columns, fault)?),
    )
}

/// Puts the lines of refused lines behind a text.
fn push_refused(
    alloc: Global,
    text: &mut Vec<u8>,
    columns: &[Column],
    refused: &[(u64, LineFault)],
) -> Result<(), AllocError>
    ensures { OnOk result (text.new.items ≡ text.old.items
        ++ text_of (refused_values (fields_of columns.now) refused.now)) }
{
    for (number, fault) in refused {
        push_refused_line(alloc, text, columns, *number, *fault)?;
    }
    Ok(())
}

/// What stands on the first lines of a part, behind its mark.
#[derive(Drop)]
pub(crate) struct Header {
    /// The columns, as `--columns` takes them.
    pub(crate) columns: String,
    /// The canonical text of the query.
    pub(crate) query: String,
}

/// That of the parts of a plan.
pub(crate) fn header_of(alloc: Global, plan: &Plan) -> Result<Header, AllocError>
    ensures columns { IfOk result (λ header.
        string_bytes header.columns ≡ columns_text plan.now.fields) }
    ensures query { IfOk result (λ header.
        string_bytes header.query ≡ canonical_text plan.now.query) }
{
    Ok(Header {
        columns: columns_text(alloc, plan.schema().columns())?,
        query: print_tree(alloc, plan.query().tree())?,
    })
}

/// Puts the first lines of a part behind a text.
fn push_header(alloc: Global, text: &mut Vec<u8>, header: &Header) -> Result<(), AllocError>
    ensures { OnOk result (text.new.items ≡ text.old.items
        ++ text_of (header_of (string_bytes header.now.columns) (string_bytes header.now.query))) }
{
    push_text(alloc, text, MARK)?;
    push_text(alloc, text, header.columns.as_str())?;
    push_text(alloc, text, header.query.as_str())
}

/// The lines of a part that stand before its groups, of which there are so many.
pub(crate) fn front_text(
    alloc: Global,
    header: &Header,
    columns: &[Column],
    lines: u64,
    refused: &[(u64, LineFault)],
    groups: u64,
) -> Result<Vec<u8>, AllocError>
    ensures { IfOk result (λ text. text.items
        ≡ text_of (front_of (string_bytes header.now.columns) (string_bytes header.now.query)
        (fields_of columns.now) lines refused.now groups)) }
{
    let mut text = Vec::new(alloc);
    push_header(alloc, &mut text, header)?;
    push_number(alloc, &mut text, lines)?;
    push_number(alloc, &mut text, refused.len() as u64)?;
    push_refused(alloc, &mut text, columns, refused)?;
    push_number(alloc, &mut text, groups)?;
    Ok(text)
}
