//! Values of columns and numbers, read one by one.

ghost use Rattle.std.specs.Prelude.{◌≤◌, IfOk, OnOk};
ghost use Rattle.semantics.specs.Records.{Holds};
ghost use Rattle.values.specs.Datum.{datum_of};
ghost use Rattle.part_lines.specs.Reading.{Gives, count_at, count_within, held_at, number_at};

use crate::checks::{check, fault_at, is_held};
use crate::fault::PartRefusal;
use crate::source::ValueReader;
use semantics::{Kind, PartsFaultKind};
use values::Value;

/// The next value, which a column of this type holds.
#[tactic(auto, unfolding(crate::specs::Reading::held_at))]
pub(crate) fn next_held<S: ValueReader>(source: &mut S, kind: Kind) -> Result<Value, PartRefusal>
    ensures known { S.known source.old → OnOk result (S.known source.new) }
    ensures onward { OnOk result ((S.stream source.old).place ≤ (S.stream source.new).place) }
    ensures read { S.known source.old → Gives (λ value. (datum_of value, S.stream source.new))
        result (held_at kind (S.stream source.old)) }
    ensures held { IfOk result (λ value. Holds kind (datum_of value)) }
{
    let value = source.next()?;
    check(
        source,
        is_held(kind, &value),
        PartsFaultKind::UnexpectedValue,
    )?;
    Ok(value)
}

/// The next value, which is a whole number.
#[tactic(auto, unfolding(crate::specs::Reading::number_at))]
pub(crate) fn next_number<S: ValueReader>(source: &mut S) -> Result<i128, PartRefusal>
    ensures known { S.known source.old → OnOk result (S.known source.new) }
    ensures onward { OnOk result ((S.stream source.old).place ≤ (S.stream source.new).place) }
    ensures read { S.known source.old → Gives (λ n. (n, S.stream source.new)) result
        (number_at (S.stream source.old)) }
{
    match source.next()? {
        Value::Int(number) => Ok(number),
        Value::Bool(_) | Value::Text(_) | Value::Null => {
            Err(fault_at(source, PartsFaultKind::UnexpectedValue))
        }
    }
}

/// The next value, which is a count of 64 bits.
///
/// Example: of the lines `2` and `-1` the first call answers 2, and the second one that the value
/// is unexpected, at the line 2.
///
/// # Errors
///
/// The fault of the next line, a read that failed, or want of memory.
#[tactic(auto, unfolding(crate::specs::Reading::count_at))]
pub fn next_count<S: ValueReader>(source: &mut S) -> Result<u64, PartRefusal>
    ensures known { S.known source.old → OnOk result (S.known source.new) }
    ensures onward { OnOk result ((S.stream source.old).place ≤ (S.stream source.new).place) }
    ensures read { S.known source.old → Gives (λ n. (n, S.stream source.new)) result
        (count_at (S.stream source.old)) }
{
    let number = next_number(source)?;
    match u64::try_from(number) {
        Ok(count) => Ok(count),
        Err(_) => Err(fault_at(source, PartsFaultKind::UnexpectedValue)),
    }
}

/// The next value, which is a count that is not above `most`.
///
/// Example: where `most` is 2, the line `3` is out of range.
///
/// # Errors
///
/// The fault of the next line, a read that failed, or want of memory.
#[tactic(auto, unfolding(crate::specs::Reading::count_within))]
pub fn next_count_within<S: ValueReader>(source: &mut S, most: u64) -> Result<u64, PartRefusal>
    ensures known { S.known source.old → OnOk result (S.known source.new) }
    ensures onward { OnOk result ((S.stream source.old).place ≤ (S.stream source.new).place) }
    ensures read { S.known source.old → Gives (λ n. (n, S.stream source.new)) result
        (count_within most (S.stream source.old)) }
    ensures within { IfOk result (λ n. n ≤ most) }
{
    let count = next_count(source)?;
    check(source, count <= most, PartsFaultKind::OutOfRange)?;
    Ok(count)
}
