//! The comparisons by which MIN and MAX choose.

ghost use Rattle.std.specs.Prelude.{◌≡◌};
ghost use Rattle.std.specs.Ordering.{is_lt};
ghost use Rattle.values.specs.Datum.{datum_of};
ghost use Rattle.semantics.specs.Values.{value_order};
ghost use Rattle.group_tables.specs.Values.{falling_order};

use std::cmp::Ordering;
use values::Value;

/// Whether a value is less than another one, or than none, for which NULL stands.
pub(crate) fn is_less(value: &Value, other: &Value) -> bool
    ensures { result ≡ is_lt (value_order (datum_of value.now) (datum_of other.now)) }
{
    value.order(other).is_lt()
}

/// Whether a value is greater than another one, or than none, for which NULL stands.
pub(crate) fn is_greater(value: &Value, other: &Value) -> bool
    ensures { result ≡ is_lt (falling_order (datum_of value.now) (datum_of other.now)) }
{
    match (value, other) {
        (Value::Null, _) => false,
        (_, Value::Null) => true,
        (_, _) => value.order(other).is_gt(),
    }
}
