//! What is checked of values where they come.

ghost use Rattle.std.specs.Prelude.{◌≡◌, ◌≢◌, IsOk, IsTrue, OnOk, not};
ghost use Rattle.semantics.specs.Groups.{key_order};
ghost use Rattle.semantics.specs.Records.{Holds};
ghost use Rattle.semantics.specs.Values.{is_null, null, value_order};
ghost use Rattle.values.specs.Datum.{data_of, datum_of};
ghost use Rattle.part_lines.specs.Faults.{fault_at_line, kind_of};
ghost use Rattle.part_lines.specs.Known.{IsAbove, IsSumOf};
ghost use Rattle.part_lines.specs.Reading.{Gives, can_have_members, is_above, is_held, is_sum_of, last_key, passed};
ghost use Rattle.part_lines.specs.Inside.Reading.{last_value};

use crate::fault::{PartFault, PartRefusal};
use crate::source::ValueReader;
use semantics::{Kind, PartsFaultKind};
use values::Value;

/// The refusal by a fault of this kind at the line that was read last.
///
/// Example: where the second line was read last, `fault_at(&source, PartsFaultKind::OutOfRange)` is
/// the fault `OutOfRange` at the line 2.
pub fn fault_at<S: ValueReader>(source: &S, kind: PartsFaultKind) -> PartRefusal
    ensures { S.known source.now → result ≡ fault_at_line (S.stream source.now).place kind }
{
    PartRefusal::Fault(PartFault {
        line: source.line(),
        kind,
    })
}

/// Nothing where a test is passed, and else a fault of this kind at the line that was read last.
///
/// Example: where the second line was read last,
/// `check(&source, 3 <= 2, PartsFaultKind::OutOfRange)` answers the fault `OutOfRange` at the line
/// 2.
///
/// # Errors
///
/// The fault, where the test is not passed.
pub fn check<S: ValueReader>(
    source: &S,
    test: bool,
    kind: PartsFaultKind,
) -> Result<(), PartRefusal>
    ensures test { OnOk result (IsTrue test) }
    ensures ok { IsTrue test → IsOk result }
    ensures read { S.known source.now
        → Gives (λ _. tt) result (passed test (kind_of kind) (S.stream source.now)) }
{
    if test {
        Ok(())
    } else {
        Err(fault_at(source, kind))
    }
}

/// Whether a column of this type holds a value: NULL, or a value of the type, a whole number in 64
/// bits.
pub(crate) fn is_held(kind: Kind, value: &Value) -> bool
    ensures test { result ≡ is_held kind (datum_of value.now) }
    ensures held { IsTrue result → Holds kind (datum_of value.now) }
{
    match (kind, value) {
        (_, Value::Null) => true,
        (Kind::Int, Value::Int(number)) => i64::try_from(*number).is_ok(),
        (Kind::Text, Value::Text(_)) | (Kind::Bool, Value::Bool(_)) => true,
        (Kind::Int, Value::Text(_) | Value::Bool(_))
        | (Kind::Text, Value::Int(_) | Value::Bool(_))
        | (Kind::Bool, Value::Int(_) | Value::Text(_)) => false,
    }
}

/// Whether a value is not NULL.
pub(crate) fn is_known(value: &Value) -> bool
    ensures test { result ≡ not (is_null (datum_of value.now)) }
    ensures known { IsTrue result → datum_of value.now ≢ null }
{
    match value {
        Value::Bool(_) | Value::Int(_) | Value::Text(_) => true,
        Value::Null => false,
    }
}

/// Whether so many whole numbers of 64 bits can have this sum.
///
/// Example: -2^63 is the sum of one such number, and 2^63 is not.
pub(crate) fn is_sum_of(count: u64, sum: i128) -> bool
    ensures test { result ≡ is_sum_of count sum }
    ensures sum { IsTrue result → IsSumOf count sum }
{
    let count = i128::from(count);
    let least = count * i128::from(i64::MIN);
    let most = count * i128::from(i64::MAX);
    least <= sum && sum <= most
}

/// Whether a group of such a key can have so many members: one at least, where there are grouping
/// columns.
pub(crate) fn can_have_members(columns: &[Kind], members: u64) -> bool
    ensures { result ≡ can_have_members columns.now members }
{
    columns.is_empty() || members > 0
}

/// Whether a value is above the last one, where there is one.
pub(crate) fn is_value_above(last: Option<&Value>, value: &Value) -> bool
    ensures test { result ≡ is_above value_order (last_value last.entry)
        (datum_of value.now) }
    ensures above { IsTrue result
        → IsAbove value_order (last_value last.entry) (datum_of value.now) }
{
    match last {
        Some(last) => last.order(value).is_lt(),
        None => true,
    }
}

/// Whether a key is above the last one, where there is one.
pub(crate) fn is_key_above(last: Option<&[Value]>, key: &[Value]) -> bool
    ensures test { result ≡ is_above key_order (last_key last.entry)
        (data_of key.now) }
    ensures above { IsTrue result
        → IsAbove key_order (last_key last.entry) (data_of key.now) }
{
    match last {
        Some(last) => last.cmp(key).is_lt(),
        None => true,
    }
}
