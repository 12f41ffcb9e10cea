//! The values of one line.

ghost use Rattle.std.specs.Prelude.{◌≡◌};
ghost use Rattle.values.specs.Datum.{data_of};

use crate::value::Value;
use std::marker::Model;

/// The values of one line, in the order of the columns of a schema.
///
/// A record may be made of any values. `Schema::fits` says whether they are those of a schema's
/// columns.
///
/// Example: under `shop:text,cents:int` the line `{"cents":250,"shop":"Quay"}` is the record of the
/// text `Quay` and the whole number 250, in this order.
#[derive(Debug, Drop)]
pub struct Record {
    values: Vec<Value>,
}

impl Model for Record {
    ghost use Rattle.std.specs.Prelude.{List};
    ghost use Rattle.semantics.specs.Values.{Datum};
    ghost use Rattle.values.specs.Datum.{data_of};

    ghost Value = { List Datum };

    ghost view = { λ r. data_of r.values.items };
}

impl Record {
    /// The record of these values, in their order. It takes no memory.
    ///
    /// Example: `Record::new(values).values()` has what `values` has, in the same order.
    pub fn new(values: Vec<Value>) -> Record
        ensures values { result ≡ data_of values.items }
    {
        Record { values }
    }

    /// The values, in order.
    pub fn values(&self) -> &[Value]
        ensures values { data_of result.now ≡ self.now }
    {
        self.values.as_slice()
    }

    /// Gives the values up, in order, in the memory that they have. It takes none.
    ///
    /// Example: `Record::new(values).into_values()` has what `values` had, in the same order.
    pub fn into_values(self) -> Vec<Value>
        ensures values { data_of result.items ≡ self }
    {
        self.values
    }
}
