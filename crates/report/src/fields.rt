//! The fields of a row.

ghost use Rattle.std.specs.Prelude.{◌≡◌, [], ◌∷◌, ◌++◌, IfOk, OnOk, codes, decimal, map};
ghost use Rattle.std.specs.Fmt.{signed_decimal};
ghost use Rattle.values.specs.Datum.{data_of, datum_of};
ghost use Rattle.group_tables.specs.Cells.{summary_of};
ghost use Rattle.csv.specs.Records.{fields_of, partial_of};
ghost use Rattle.report.specs.Inside.Fields.{group_fields};
ghost use Rattle.report_rows.specs.Sources.{shown_at};
ghost use Rattle.semantics.specs.Texts.{cell_field, escaped_text, value_field};

use csv::ByteRecord;
use group_tables::{Cell, Group};
use itoa::Buffer;
use report_rows::ValueSource;
use std::alloc::{AllocError, Global};
use values::Value;

/// Writes the cells of a row as fields over those of another row, whose memory is used again.
pub(crate) fn write_cells(
    fields: &mut ByteRecord,
    alloc: Global,
    cells: &[Cell],
) -> Result<(), AllocError>
    ensures { OnOk result (fields_of fields.new ≡ map cell_field (map summary_of cells.now)) }
{
    fields.clear();
    for cell in cells {
        push_cell(fields, alloc, cell)?;
    }
    Ok(())
}

/// Writes what a group shows as fields over those of another row, whose memory is used again: what
/// it has at each of these sources.
pub(crate) fn write_group(
    fields: &mut ByteRecord,
    alloc: Global,
    sources: &[ValueSource],
    group: &Group,
) -> Result<(), AllocError>
    ensures { OnOk result (fields_of fields.new ≡ group_fields sources.now group.now) }
{
    fields.clear();
    for source in sources {
        push_from(fields, alloc, source, group)?;
    }
    Ok(())
}

/// Puts what a group has at a source behind the fields.
fn push_from(
    fields: &mut ByteRecord,
    alloc: Global,
    source: &ValueSource,
    group: &Group,
) -> Result<(), AllocError>
    requires { partial_of fields.old ≡ [] }
    ensures field { OnOk result (fields_of fields.new
        ≡ fields_of fields.old ++ cell_field (shown_at (data_of group.now.key.items)
        (map summary_of group.now.cells.items) source.now) ∷ []) }
    ensures whole { OnOk result (partial_of fields.new ≡ []) }
{
    match source {
        ValueSource::KeyAt(place) => match group.key.get(*place) {
            Some(value) => push_value(fields, alloc, value),
            None => push_value(fields, alloc, &Value::Null),
        },
        ValueSource::CellAt(place) => match group.cells.get(*place) {
            Some(cell) => push_cell(fields, alloc, cell),
            None => push_value(fields, alloc, &Value::Null),
        },
        ValueSource::Always(value) => push_value(fields, alloc, value),
    }
}

/// Puts a cell behind the fields.
fn push_cell(fields: &mut ByteRecord, alloc: Global, cell: &Cell) -> Result<(), AllocError>
    requires { partial_of fields.old ≡ [] }
    ensures field { OnOk result (fields_of fields.new
        ≡ fields_of fields.old ++ cell_field (summary_of cell.now) ∷ []) }
    ensures whole { OnOk result (partial_of fields.new ≡ []) }
{
    match cell {
        Cell::Plain(value) => push_value(fields, alloc, value),
        Cell::Ratio(sum, count) => {
            let average = average_field(alloc, *sum, *count)?;
            fields.push_field(average.as_slice())
        }
    }
}

/// Puts a value behind the fields.
fn push_value(fields: &mut ByteRecord, alloc: Global, value: &Value) -> Result<(), AllocError>
    requires { partial_of fields.old ≡ [] }
    ensures field { OnOk result (fields_of fields.new
        ≡ fields_of fields.old ++ value_field (datum_of value.now) ∷ []) }
    ensures whole { OnOk result (partial_of fields.new ≡ []) }
{
    match value {
        Value::Bool(true) => fields.push_field(b"true"),
        Value::Bool(false) => fields.push_field(b"false"),
        Value::Null => fields.push_field(b"\\N"),
        Value::Int(number) => {
            let mut buffer = Buffer::new();
            fields.push_field(buffer.format(*number).as_bytes())
        }
        Value::Text(text) => push_text(fields, alloc, text.as_bytes()),
    }
}

/// Puts a text behind the fields: with one more backslash where it begins with one.
fn push_text(fields: &mut ByteRecord, alloc: Global, text: &[u8]) -> Result<(), AllocError>
    requires { partial_of fields.old ≡ [] }
    ensures field { OnOk result (fields_of fields.new
        ≡ fields_of fields.old ++ escaped_text text.now ∷ []) }
    ensures whole { OnOk result (partial_of fields.new ≡ []) }
{
    if let [b'\\', ..] = text {
        let mut field = Vec::from_slice(alloc, b"\\")?;
        field.extend_from_slice(text)?;
        return fields.push_field(field.as_slice());
    }
    fields.push_field(text)
}

/// An average as a field.
fn average_field(alloc: Global, sum: i128, count: u64) -> Result<Vec<u8>, AllocError>
    ensures { IfOk result (λ field.
        field.items ≡ signed_decimal sum ++ codes "/" ++ decimal count) }
{
    let mut buffer = Buffer::new();
    let mut field = Vec::from_slice(alloc, buffer.format(sum).as_bytes())?;
    field.extend_from_slice(b"/")?;
    field.extend_from_slice(buffer.format(count).as_bytes())?;
    Ok(field)
}
