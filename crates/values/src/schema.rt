//! The columns that lines are read under.

ghost use Rattle.std.specs.Prelude.{◌≡◌, ◌≢◌, ◌↔◌, IsTrue, IfErr, IfOk};
ghost use Rattle.values.specs.Datum.{data_of, datum_of};
ghost use Rattle.values.specs.Schema.{fields_of};
ghost use Rattle.semantics.specs.Records.{Fits, Holds};

use crate::part::next_column;
use crate::record::Record;
use crate::value::Value;
use semantics::{Kind, SchemaFault};
use std::alloc::Global;
use std::marker::Model;

/// A column of a schema: the member of its name is taken, as its type says.
///
/// Example: the part `cents:int` of a schema text is the column of the name `cents` and the type
/// `Int`.
#[derive(Debug, PartialEq, Eq, Drop)]
pub struct Column {
    /// In a schema, one or more ASCII letters, digits and `_`, not beginning with a digit.
    pub name: String,
    /// The type of the values that the column holds.
    pub kind: Kind,
}

/// The columns that a line is read under: 1 to 32, with different names.
///
/// Names are compared exactly: `Shop` and `shop` are two.
///
/// Example: `shop:text,cents:int` is the text of a schema with two columns, `shop` the first of
/// them.
#[derive(Debug, Drop)]
pub struct Schema {
    columns: Vec<Column>,
}

impl Model for Schema {
    ghost use Rattle.std.specs.Prelude.{List};
    ghost use Rattle.semantics.specs.Columns.{Field};
    ghost use Rattle.values.specs.Schema.{fields_of, IsSchema};

    ghost Value = { List Field };

    ghost view = { λ s. fields_of s.columns.items };

    ghost invariant = { λ s. IsSchema (fields_of s.columns.items) };
}

impl Schema {
    ghost use Rattle.values.specs.Schema.{fields_of, IsSchema};
    ghost use Rattle.semantics.specs.Columns.{schema_of};
    ghost use Rattle.semantics.specs.Records.{Fits};

    /// Reads a schema text: parts `name:type` joined by commas, without white space, the type
    /// `int`, `text` or `bool`, as in `day:text,cents:int`.
    ///
    /// Example: `Schema::parse(alloc, "shop:text,cents:int")` answers a schema of two columns; of
    /// `"shop"` it answers `UnknownType(1)`.
    ///
    /// # Errors
    ///
    /// `Empty` where the text is empty. Else the first part with a fault is the one named, by its
    /// number from 1, and of its faults the first of `TooManyColumns`, `BadName`, `UnknownType`,
    /// `RepeatedName`. `OutOfMemory` where memory was refused, which says nothing of the text.
    pub fn parse(alloc: Global, text: &str) -> Result<Schema, SchemaFault>
        ensures columns { IfOk result (λ schema. schema_of text.now ≡ Ok schema) }
        ensures fault { IfErr result (λ fault. fault ≢ SchemaFault.OutOfMemory
            → schema_of text.now ≡ Err fault) }
    {
        if text.is_empty() {
            return Err(SchemaFault::Empty);
        }
        let mut columns = Vec::new(alloc);
        for part in text.split(',') {
            let column = next_column(alloc, &columns, part)?;
            columns.push(column).map_err(|_| SchemaFault::OutOfMemory)?;
        }
        Ok(Schema { columns })
    }

    /// The columns, in order: 1 to 32, with different names.
    pub fn columns(&self) -> &[Column]
        ensures columns { fields_of result.now ≡ self.now }
        ensures schema { IsSchema self.now }
    {
        self.columns.as_slice()
    }

    /// Whether a record has one value for each column, each NULL or of the column's type, with
    /// whole numbers of 64 bits.
    ///
    /// Example: the records that fit the schema `cents:int` have one value, a whole number from
    /// -2^63 to 2^63-1 or NULL.
    pub fn fits(&self, record: &Record) -> bool
        ensures fits { IsTrue result ↔ Fits self.now «record».now }
    {
        all_hold(self.columns(), record.values())
    }
}

/// Whether a column of this type holds a value.
fn holds(kind: Kind, value: &Value) -> bool
    ensures holds { IsTrue result ↔ Holds kind (datum_of value.now) }
{
    match (kind, value) {
        (_, Value::Null) => true,
        (Kind::Int, Value::Int(number)) => i64::try_from(*number).is_ok(),
        (Kind::Text, Value::Text(_)) | (Kind::Bool, Value::Bool(_)) => true,
        (Kind::Int, Value::Text(_) | Value::Bool(_))
        | (Kind::Text, Value::Int(_) | Value::Bool(_))
        | (Kind::Bool, Value::Int(_) | Value::Text(_)) => false,
    }
}

/// Whether there is one value for each column, and each column holds its value.
fn all_hold(columns: &[Column], values: &[Value]) -> bool
    ensures fits { IsTrue result ↔ Fits (fields_of columns.now) (data_of values.now) }
{
    if columns.len() != values.len() {
        return false;
    }
    for (column, value) in columns.iter().zip(values) {
        if !holds(column.kind, value) {
            return false;
        }
    }
    true
}
