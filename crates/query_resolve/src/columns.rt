//! The columns that names stand for.

ghost use Rattle.std.specs.Prelude.{◌≡◌};
ghost use Rattle.values.specs.Schema.{fields_of};
ghost use Rattle.semantics.specs.Names.{column_kind, kind_at, place_of};

use values::{Column, Kind};

/// The place of the column of a name, from 0; `None` where no column has it. Names are compared
/// exactly.
///
/// Example: among the columns of `shop:text,cents:int` `cents` has the place 1, and `Cents` has
/// none.
pub fn place_of(columns: &[Column], name: &str) -> Option<usize>
    ensures { result ≡ place_of (fields_of columns.now) name.now }
{
    columns
        .iter()
        .position(|column| name == column.name.as_str())
}

/// The type of the column at a place.
fn kind_at(columns: &[Column], place: usize) -> Option<Kind>
    ensures { result ≡ kind_at (fields_of columns.now) place }
{
    columns.get(place).map(|column| column.kind)
}

/// The type of the column of a name; `None` where no column has it. Names are compared exactly.
///
/// Example: among the columns of `shop:text,cents:int` `cents` has the type `Int`, and `Cents` has
/// none.
pub fn column_kind(columns: &[Column], name: &str) -> Option<Kind>
    ensures { result ≡ column_kind (fields_of columns.now) name.now }
{
    let place = place_of(columns, name)?;
    kind_at(columns, place)
}
