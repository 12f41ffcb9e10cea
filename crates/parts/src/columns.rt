//! The columns of a part, as a text.

ghost use Rattle.std.specs.List.{flat_map};
ghost use Rattle.std.specs.Prelude.{◌≡◌, ◌++◌, IfOk, OnOk, codes, map, string_bytes};
ghost use Rattle.values.specs.Schema.{field_of, fields_of};
ghost use Rattle.semantics.specs.Parts.{column_text, columns_text, kind_text};

use semantics::Kind;
use std::alloc::{AllocError, Global};
use values::Column;

/// Columns as `--columns` takes them.
pub(crate) fn columns_text(alloc: Global, columns: &[Column]) -> Result<String, AllocError>
    ensures { IfOk result (λ text. string_bytes text ≡ columns_text (fields_of columns.now)) }
{
    let mut text = String::new(alloc);
    if let Some((first, others)) = columns.split_first() {
        push_column(&mut text, first)?;
        push_columns(&mut text, others)?;
    }
    Ok(text)
}

/// Puts columns behind others, a comma in front of each.
fn push_columns(text: &mut String, columns: &[Column]) -> Result<(), AllocError>
    ensures { OnOk result (string_bytes text.new ≡ string_bytes text.old
        ++ flat_map (λ column. codes "," ++ column) (map column_text (fields_of columns.now))) }
{
    for column in columns {
        text.push_str(",")?;
        push_column(text, column)?;
    }
    Ok(())
}

/// Puts a column behind a text: its name and its type.
fn push_column(text: &mut String, column: &Column) -> Result<(), AllocError>
    ensures { OnOk result (string_bytes text.new
        ≡ string_bytes text.old ++ column_text (field_of column.now)) }
{
    text.push_str(column.name.as_str())?;
    text.push_str(":")?;
    text.push_str(kind_text(column.kind))
}

/// The word of a type.
fn kind_text(kind: Kind) -> &'static str
    ensures { result.now ≡ kind_text kind }
{
    match kind {
        Kind::Int => "int",
        Kind::Text => "text",
        Kind::Bool => "bool",
    }
}
