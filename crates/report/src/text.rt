//! The bytes of a report.

ghost use Rattle.std.specs.Prelude.{◌≡◌, ◌<◌, [], Some, All, IfOk, OnOk, length, map};
ghost use Rattle.csv.specs.Records.{fields_of};
ghost use Rattle.csv.specs.Writing.{row_text, default_writer};
ghost use Rattle.semantics.specs.Canonical.{header_text};
ghost use Rattle.group_tables.specs.GroupRows.{row_of};
ghost use Rattle.tables.specs.Planned.{AreFittingUnder};
ghost use Rattle.report.specs.Inside.Between.{HasWritten, IsBetweenRows, text_in};
ghost use Rattle.report.specs.Inside.Fields.{group_fields};
ghost use Rattle.report_rows.specs.Sources.{cells_at};
ghost use Rattle.report.specs.Report.{report_of};
ghost use Rattle.report_rows.specs.Shown.{cells_of};
ghost use Rattle.semantics.specs.Texts.{cell_field, report_bytes};
ghost use Rattle.report.specs.Inside.Text.{rows_bytes};

use crate::among::write_rows;
use crate::fields::{write_cells, write_group};
use csv::{ByteRecord, Writer, WriterBuilder};
use group_tables::{Cell, Executor, Group};
use query_plan::{Plan, header};
use report_rows::{PlanView, ReportRow, ValueSource, shown_groups, sources_at, sources_by_set};
use std::alloc::{AllocError, Global};
use tables::Groups;
use values::Value;

/// How many rows are written at a time.
const FEW: usize = 64;

/// The bytes of a report: CSV (RFC 4180, section 2) with commas, line feeds, and quotes where they
/// are needed. The first row holds the header of each item of SELECT. NULL is `\N`, and a text that
/// begins with `\` has one more in front; truth values are `true` and `false`, whole numbers plain
/// decimal, and an average is its sum and its count with `/` between. Each row ends with one line
/// feed, the last one too, where the RFC has CRLF.
///
/// Each row has one cell for each item of SELECT, as those that `arrange` gives have.
///
/// Example: for `SELECT d, AVG(q) FROM lines GROUP BY d` and the rows `'x'`, `Ratio(7, 2)` and
/// `'y'`, NULL, it has the lines `d,AVG(q)`, `x,7/2` and `y,\N`.
///
/// # Errors
///
/// `AllocError` where there is no memory for the text.
pub fn report_text(alloc: Global, rows: &[ReportRow], plan: &Plan) -> Result<Vec<u8>, AllocError>
    requires { All (λ row. length row.cells.items ≡ length plan.now.query.items) rows.now }
    ensures { IfOk result (λ text.
        text.items ≡ report_bytes plan.now.query.items (map cells_of rows.now)) }
{
    let mut writer = writer_with_headers(alloc, plan)?;
    let mut fields = ByteRecord::new(alloc);
    for row in rows {
        put_row(&mut writer, &mut fields, alloc, row)?;
    }
    text_of(writer)
}

/// The bytes of the report on groups: those that `report_text` gives for the rows of `arrange`, of
/// which it makes none. The executor puts the rows in order and writes them.
///
/// The groups fit the plan, as `arrange` asks for.
///
/// Example: for `SELECT d, COUNT(*) AS n FROM lines GROUP BY d`, and the groups of records whose
/// `d` are `'y'`, `'x'` and `'x'`, it has the lines `d,n`, `x,2` and `y,1`.
///
/// # Errors
///
/// `AllocError` where there is no memory for the text.
pub fn report_on<E: Executor>(
    executor: &E,
    alloc: Global,
    groups: &Groups,
    plan: &Plan,
) -> Result<Vec<u8>, AllocError>
    requires ready { E.ready executor.now }
    requires fit { AreFittingUnder plan.now groups.now.found }
    ensures { IfOk result (λ text.
        text.items ≡ report_of plan.now.fields plan.now.query groups.now.found) }
{
    let view = PlanView::new(alloc, plan)?;
    let shown = shown_groups(executor, alloc, groups.rows(), &view)?;
    let sources = sources_by_set(alloc, &view)?;
    write_rows(executor, alloc, plan, sources.as_slice(), shown.as_slice())
}

/// Writes the rows of groups, each of which stands beside the index of its grouping set.
pub(crate) fn put_groups(
    writer: &mut Writer<Vec<u8>>,
    alloc: Global,
    sources: &[Vec<ValueSource>],
    groups: &[&(usize, Group)],
) -> Result<(), AllocError>
    requires between { IsBetweenRows writer.old }
    requires within { All (λ r. (row_of r.now).0 < length sources.now) groups.now }
    ensures between { OnOk result (IsBetweenRows writer.new) }
    ensures appends { OnOk result (HasWritten writer.old writer.new
        (rows_bytes (map (λ r. cells_at sources.now (row_of r.now)) groups.now))) }
{
    let mut start = 0;
    while start < groups.len() {
        let stop = start + FEW.min(groups.len() - start);
        put_few(writer, alloc, sources, &groups[start..stop])?;
        start = stop;
    }
    Ok(())
}

/// Writes the rows of a few groups. Groups in order lie anywhere in memory: all are looked at
/// first, one right after the other, so that the processor fetches them side by side, and does not
/// wait for each before it is written.
fn put_few(
    writer: &mut Writer<Vec<u8>>,
    alloc: Global,
    sources: &[Vec<ValueSource>],
    groups: &[&(usize, Group)],
) -> Result<(), AllocError>
    requires between { IsBetweenRows writer.old }
    requires within { All (λ r. (row_of r.now).0 < length sources.now) groups.now }
    ensures between { OnOk result (IsBetweenRows writer.new) }
    ensures appends { OnOk result (HasWritten writer.old writer.new
        (rows_bytes (map (λ r. cells_at sources.now (row_of r.now)) groups.now))) }
{
    let mut fields = ByteRecord::with_capacity(alloc, longest_text(groups), 0)?;
    for found in groups {
        let (index, group) = found;
        put_group(
            writer,
            &mut fields,
            alloc,
            sources_at(sources, *index),
            group,
        )?;
    }
    Ok(())
}

/// How many bytes the longest text has that the groups have in their keys and cells.
fn longest_text(groups: &[&(usize, Group)]) -> usize {
    let mut longest = 0;
    for found in groups {
        let (_, group) = found;
        longest = longest.max(longest_in(group));
    }
    longest
}

/// How many bytes the longest text has that a group has in its key and cells.
fn longest_in(group: &Group) -> usize {
    let in_key = group.key.iter().map(text_len).max().unwrap_or(0);
    let in_cells = group.cells.iter().map(cell_len).max().unwrap_or(0);
    in_key.max(in_cells)
}

/// How many bytes a value has where it is a text, and 0 where it is none.
fn text_len(value: &Value) -> usize {
    match value {
        Value::Text(text) => text.len(),
        Value::Bool(_) | Value::Int(_) | Value::Null => 0,
    }
}

/// The same of the value of a cell; an average has no text.
fn cell_len(cell: &Cell) -> usize {
    match cell {
        Cell::Plain(value) => text_len(value),
        Cell::Ratio(_, _) => 0,
    }
}

/// What a writer has written.
pub(crate) fn text_of(writer: Writer<Vec<u8>>) -> Result<Vec<u8>, AllocError>
    ensures { IfOk result (λ text. text_in writer ≡ Some text.items) }
{
    match writer.into_inner() {
        Ok(text) => Ok(text),
        Err(_) => Err(AllocError),
    }
}

/// A writer of a report that has the row of the headers.
pub(crate) fn writer_with_headers(alloc: Global, plan: &Plan) -> Result<Writer<Vec<u8>>, AllocError>
    ensures between { IfOk result IsBetweenRows }
    ensures text { IfOk result (λ writer.
        text_in writer ≡ Some (report_bytes plan.now.query.items [])) }
{
    let mut writer = WriterBuilder::new().from_writer(Vec::new(alloc));
    put_headers(&mut writer, alloc, plan)?;
    Ok(writer)
}

/// The headers of the items of SELECT.
fn headers(alloc: Global, plan: &Plan) -> Result<ByteRecord, AllocError>
    ensures { IfOk result (λ fields. fields_of fields ≡ map header_text plan.now.query.items) }
{
    let count = plan.query().tree().items.len();
    let mut fields = ByteRecord::new(alloc);
    for item in 0..count {
        let text = header(alloc, plan, item)?;
        fields.push_field(text.as_bytes())?;
    }
    Ok(fields)
}

/// Writes the row of the headers.
fn put_headers(writer: &mut Writer<Vec<u8>>, alloc: Global, plan: &Plan) -> Result<(), AllocError>
    requires { IsBetweenRows writer.old }
    ensures between { OnOk result (IsBetweenRows writer.new) }
    ensures appends { OnOk result (HasWritten writer.old writer.new
        (row_text default_writer (map header_text plan.now.query.items))) }
{
    let fields = headers(alloc, plan)?;
    put_fields(writer, &fields)
}

/// Writes the row of some cells, by a record of fields whose memory is used again.
fn put_row(
    writer: &mut Writer<Vec<u8>>,
    fields: &mut ByteRecord,
    alloc: Global,
    row: &ReportRow,
) -> Result<(), AllocError>
    requires { IsBetweenRows writer.old }
    ensures between { OnOk result (IsBetweenRows writer.new) }
    ensures appends { OnOk result (HasWritten writer.old writer.new
        (row_text default_writer (map cell_field (cells_of row.now)))) }
{
    write_cells(fields, alloc, row.cells.as_slice())?;
    put_fields(writer, fields)
}

/// Writes the row of a group, by a record of fields whose memory is used again: what the group has
/// at each of these sources.
fn put_group(
    writer: &mut Writer<Vec<u8>>,
    fields: &mut ByteRecord,
    alloc: Global,
    sources: &[ValueSource],
    group: &Group,
) -> Result<(), AllocError>
    requires { IsBetweenRows writer.old }
    ensures between { OnOk result (IsBetweenRows writer.new) }
    ensures appends { OnOk result (HasWritten writer.old writer.new
        (row_text default_writer (group_fields sources.now group.now))) }
{
    write_group(fields, alloc, sources, group)?;
    put_fields(writer, fields)
}

/// Writes a row of fields. The writer goes into memory, so its errors are want of memory.
fn put_fields(writer: &mut Writer<Vec<u8>>, fields: &ByteRecord) -> Result<(), AllocError>
    requires { IsBetweenRows writer.old }
    ensures between { OnOk result (IsBetweenRows writer.new) }
    ensures appends { OnOk result (HasWritten writer.old writer.new
        (row_text default_writer (fields_of fields.now))) }
{
    match writer.write_byte_record(fields) {
        Ok(()) => Ok(()),
        Err(_) => Err(AllocError),
    }
}
