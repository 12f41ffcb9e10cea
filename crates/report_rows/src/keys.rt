//! The codes of rows, by which they are put in order.

ghost use Rattle.std.specs.Prelude.{◌≡◌, ◌++◌, [], IfOk, MatchOption, OnOk, map};
ghost use Rattle.values.specs.Datum.{datum_of};
ghost use Rattle.semantics.specs.Values.{null};
ghost use Rattle.semantics.specs.Aggregates.{plain};
ghost use Rattle.semantics.specs.Rows.{cell_value};
ghost use Rattle.query_ast.specs.Syntax.{key_form};
ghost use Rattle.sort_keys.specs.Codes.{IsCodable, key_code};
ghost use Rattle.sort_keys.specs.SortKeys.{key_parts};
ghost use Rattle.group_tables.specs.Cells.{summary_of};
ghost use Rattle.group_tables.specs.GroupRows.{row_of};
ghost use Rattle.report_rows.specs.declared.source.ValueSource.TheVariants.{CellAt};
ghost use Rattle.report_rows.specs.Sources.{shown_at};
ghost use Rattle.report_rows.specs.Inside.SortEntries.{AreCodable, IsCodableRow, coded_code, coded_form, coded_value, entry_at, keys_code, value_at_source};

use crate::coded_key::CodedKey;
use crate::source::ValueSource;
use group_tables::{Cell, Group};
use query_plan::Key;
use sort_keys::{SortKey, put_index, put_key_value, put_values};
use std::alloc::{AllocError, Global};
use values::Value;

/// The value of the cell at a place. There is `None` where the cell is an average, which is no
/// single value.
fn plain_value(cells: &[Cell], place: usize) -> Option<&Value>
    ensures { let shown = cell_value (shown_at [] (map summary_of cells.now) (CellAt place)) in
        MatchOption result (shown ≡ null) (λ value. shown ≡ datum_of value.now) }
{
    match cells.get(place) {
        Some(Cell::Plain(value)) => Some(value),
        Some(Cell::Ratio(..)) | None => None,
    }
}

/// The value of what a group has where the rows of its grouping set have what they show; `None` for
/// NULL.
fn value_at_source<'a>(source: &'a ValueSource, group: &'a Group) -> Option<&'a Value>
    ensures { let shown = value_at_source group.now source.now in
        MatchOption result (shown ≡ null) (λ value. shown ≡ datum_of value.now) }
{
    match source {
        ValueSource::KeyAt(place) => group.key.get(*place),
        ValueSource::CellAt(place) => plain_value(group.cells.as_slice(), *place),
        ValueSource::Always(value) => Some(value),
    }
}

/// Puts the code of what a group has at a source, under a key of ORDER BY, behind other bytes.
fn put_source(
    code: &mut Vec<u8>,
    key: &Key,
    source: &ValueSource,
    group: &Group,
) -> Result<(), AllocError>
    ensures code { OnOk result (code.new.items
        ≡ code.old.items ++ key_code (key_form key.now) (value_at_source group.now source.now)) }
    ensures codable { IsCodable (value_at_source group.now source.now) }
{
    match value_at_source(source, group) {
        Some(value) => put_key_value(code, key, value),
        None => put_key_value(code, key, &Value::Null),
    }
}

/// Puts the code of the value of a key of ORDER BY for the row of a group, which stands beside the
/// index of its grouping set, behind other bytes.
fn put_key(
    code: &mut Vec<u8>,
    coded: &CodedKey<'_>,
    found: &(usize, Group),
) -> Result<(), AllocError>
    ensures code { OnOk result (code.new.items
        ≡ code.old.items ++ coded_code (row_of found.now) (coded_form coded.now)) }
    ensures codable { IsCodable (coded_value (row_of found.now) (coded_form coded.now)) }
{
    let (index, group) = found;
    match coded.sources.get(*index) {
        Some(source) => put_source(code, coded.key, source, group),
        None => put_key_value(code, coded.key, &Value::Null),
    }
}

/// Puts the codes of the values of keys of ORDER BY for the row of a group behind other bytes.
fn put_keys(
    code: &mut Vec<u8>,
    keys: &[CodedKey<'_>],
    found: &(usize, Group),
) -> Result<(), AllocError>
    ensures code { OnOk result (code.new.items
        ≡ code.old.items ++ keys_code (row_of found.now) (map coded_form keys.now)) }
    ensures codable { OnOk result
        (AreCodable (row_of found.now) (map coded_form keys.now)) }
{
    for key in keys {
        put_key(code, key, found)?;
    }
    Ok(())
}

/// The sort key of the row of a group, which stands beside the index of its grouping set. The code
/// is written into `code`, in place of what is there.
pub(crate) fn row_key(
    alloc: Global,
    code: &mut Vec<u8>,
    keys: &[CodedKey<'_>],
    found: &(usize, Group),
) -> Result<SortKey, AllocError>
    ensures key { IfOk result (λ key. key_parts key
        ≡ (entry_at (map coded_form keys.now) (row_of found.now)).0) }
    ensures codable { OnOk result
        (IsCodableRow (map coded_form keys.now) (row_of found.now)) }
{
    let (index, group) = found;
    code.clear();
    put_keys(code, keys, found)?;
    put_index(code, *index)?;
    put_values(code, group.key.as_slice())?;
    SortKey::new(alloc, code.as_slice())
}
