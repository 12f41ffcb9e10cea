//! The columns by their names, and the values that they take, put together member by member.

ghost use Rattle.std.specs.Prelude.{◌≡◌, ◌≢◌, ◌<◌, ◌≤◌, All, length, set, IfSome, MatchOption};
ghost use Rattle.serde_json.specs.Data.{no_members};
ghost use Rattle.values.specs.Schema.{IsSchema, fields_of};
ghost use Rattle.lines.specs.Inside.Members.{AreTaken};
ghost use Rattle.lines.specs.Inside.Naming.{IsPlaceOf, NoneHasName};

use crate::spare::Spare;
use values::{Column, Value};

/// How deep the members of an object may nest.
pub(crate) const MEMBER_DEPTH: usize = 126;

/// What the columns take where no member is: NULL for each. The values of the record before are
/// cleared from the last on, so the memory of its first text will be the first that is used again.
#[inline(always)]
pub(crate) fn missing_values(columns: &[Column], spare: &mut Spare) -> Option<Vec<Value>>
    requires { IsSchema (fields_of columns.now) }
    ensures { IfSome result (λ v. AreTaken columns.now v.items no_members) }
{
    let mut values = spare.list(columns.len())?;
    for place in (0..columns.len()).rev() {
        spare.clear_at(&mut values, place);
    }
    Some(values)
}

/// Puts a value at a place.
#[inline(always)]
pub(crate) fn put_at(values: &mut Vec<Value>, place: usize, value: Value)
    requires { place < length values.old.items }
    ensures { values.new.items ≡ set values.old.items place value }
{
    values[place] = value;
}

/// The place of the column of a name, which is looked for from `first` on, and then before `first`.
#[inline(always)]
pub(crate) fn place_found_from(columns: &[Column], name: &[u8], first: usize) -> Option<usize>
    requires { first ≤ length columns.now }
    ensures { MatchOption result (All (λ f. f.name ≢ name.now) (fields_of columns.now))
        (IsPlaceOf columns.now name.now) }
{
    match place_between(columns, name, first, columns.len()) {
        Some(place) => Some(place),
        None => place_between(columns, name, 0, first),
    }
}

/// The place of the column of a name among the places from `low` up to, but not at, `high`.
#[inline(always)]
fn place_between(columns: &[Column], name: &[u8], low: usize, high: usize) -> Option<usize>
    requires { high ≤ length columns.now }
    ensures { MatchOption result (NoneHasName columns.now name.now low high)
        (IsPlaceOf columns.now name.now) }
{
    for place in low..high {
        if columns[place].name.as_bytes() == name {
            return Some(place);
        }
    }
    None
}
