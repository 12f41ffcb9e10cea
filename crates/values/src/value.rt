//! Values, and their order.

ghost use Rattle.std.specs.Prelude.{◌≡◌, ◌↔◌, IsTrue};

use std::cmp::Ordering;

/// A value of a record, a key or a result.
///
/// Values are ordered by their type, truth values first, then whole numbers, then texts, then NULL;
/// within a type False is before True, whole numbers are ordered as numbers and texts by their
/// UTF-8 bytes. Equality is that of grouping: NULL equals NULL, and values of two types are never
/// equal.
///
/// Example: the whole number 2 is before 10, but the text `10` before the text `2`.
#[derive(Clone, Debug, PartialEq, Eq, PartialOrd, Ord, Hash, Drop)]
pub enum Value {
    /// A truth value that is known.
    Bool(bool),
    /// A whole number. A record holds 64 bits of it; the sums of such numbers need 128.
    Int(i128),
    /// A text, of any length.
    Text(String),
    /// The null value, which a truth value that is unknown is too.
    Null,
}

impl Value {
    ghost use Rattle.values.specs.Datum.{datum_of};
    ghost use Rattle.semantics.specs.Values.{value_order};

    /// Whether two values are not distinct, as rows of one group are (ISO/IEC 9075-2,
    /// `<distinct predicate>`): NULL is not distinct from NULL. It is what `==` answers.
    ///
    /// Example: `Value::Null.is_not_distinct_from(&Value::Null)` answers `true`, and
    /// `Value::Null.is_not_distinct_from(&Value::Int(0))` answers `false`.
    pub fn is_not_distinct_from(&self, other: &Value) -> bool
        ensures same { IsTrue result ↔ (datum_of self.now ≡ datum_of other.now) }
    {
        self == other
    }

    /// How two values stand in the order of all values, NULL last. It is what `cmp` answers.
    ///
    /// Example: `Value::Int(7).order(&Value::Null)` answers `Less`.
    pub fn order(&self, other: &Value) -> Ordering
        ensures place { result ≡ value_order (datum_of self.now) (datum_of other.now) }
    {
        self.cmp(other)
    }
}
