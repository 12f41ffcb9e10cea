//! Comparisons of two values.

ghost use Rattle.std.specs.Prelude.{◌≡◌};
ghost use Rattle.values.specs.Datum.{datum_of};
ghost use Rattle.semantics.specs.Values.{accepts, comparison};
ghost use Rattle.values.specs.Comparison.{AreComparable};

use crate::value::Value;
use semantics::{Op, Truth};
use std::cmp::Ordering;

/// Whether the operator holds of operands that stand to each other like this.
fn accepts(op: Op, order: Ordering) -> bool
    ensures table { result ≡ accepts op order }
{
    match op {
        Op::Eq => order.is_eq(),
        Op::Ne => order.is_ne(),
        Op::Lt => order.is_lt(),
        Op::Le => order.is_le(),
        Op::Gt => order.is_gt(),
        Op::Ge => order.is_ge(),
    }
}

/// The truth value of `left op right` (ISO/IEC 9075-2, `<comparison predicate>`): Unknown where an
/// operand is NULL.
///
/// It asks that both operands are of one type, or that one of them is NULL. Whole numbers compare
/// as numbers, texts by their UTF-8 bytes, and False is less than True. It takes no memory.
///
/// Example: `compare(Op::Lt, &Value::Int(2), &Value::Int(10))` answers `True`, and
/// `compare(Op::Eq, &Value::Null, &Value::Null)` answers `Unknown`.
pub fn compare(op: Op, left: &Value, right: &Value) -> Truth
    requires { AreComparable (datum_of left.now) (datum_of right.now) }
    ensures value { result ≡ comparison op (datum_of left.now) (datum_of right.now) }
{
    match (left, right) {
        (Value::Null, _) | (_, Value::Null) => Truth::Unknown,
        (left, right) => Truth::from(accepts(op, left.order(right))),
    }
}
