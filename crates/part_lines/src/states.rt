//! States of set functions, read value by value.

ghost use Rattle.std.specs.Prelude.{◌≡◌, ◌≤◌, IfOk, OnOk, None, vec_len};
ghost use Rattle.values.specs.Datum.{data_of, datum_of};
ghost use Rattle.values.specs.GroupStates.{state_of, states_of};
ghost use Rattle.part_lines.specs.Known.{AreDifferentOf, AreStatesFor, IsStateFor};
ghost use Rattle.part_lines.specs.Inside.Known.{IsDifferentOf};
ghost use Rattle.part_lines.specs.Reading.{Gives, ascending_at, collected_at, different_at, each_at, state_at, summed_at};
ghost use Rattle.part_lines.specs.Inside.Reading.{last_value};

use crate::checks::{check, is_known, is_sum_of, is_value_above};
use crate::fault::PartRefusal;
use crate::numbers::{next_count_within, next_held, next_number};
use crate::shape::StateKind;
use crate::source::ValueReader;
use semantics::{Kind, PartsFaultKind};
use std::alloc::Global;
use values::{State, Value};

/// The next sum, and how many numbers were added, of at most so many members.
#[tactic(auto, unfolding(crate::specs::Reading::summed_at))]
fn next_sum<S: ValueReader>(source: &mut S, members: u64) -> Result<State, PartRefusal>
    ensures known { S.known source.old → OnOk result (S.known source.new) }
    ensures onward { OnOk result ((S.stream source.old).place ≤ (S.stream source.new).place) }
    ensures read { S.known source.old → Gives (λ state. (state_of state, S.stream source.new))
        result (summed_at members (S.stream source.old)) }
    ensures state { IfOk result (λ state. IsStateFor members StateKind.Sum (state_of state)) }
{
    let sum = next_number(source)?;
    let count = next_count_within(source, members)?;
    check(source, is_sum_of(count, sum), PartsFaultKind::OutOfRange)?;
    Ok(State::Sum(sum, count))
}

/// The next one of some different values of a column of this type.
#[tactic(auto, unfolding(crate::specs::Reading::different_at))]
fn next_different<S: ValueReader>(
    source: &mut S,
    kind: Kind,
    last: Option<&Value>,
) -> Result<Value, PartRefusal>
    ensures known { S.known source.old → OnOk result (S.known source.new) }
    ensures onward { OnOk result ((S.stream source.old).place ≤ (S.stream source.new).place) }
    ensures read { S.known source.old → Gives (λ value. (datum_of value, S.stream source.new))
        result (different_at kind (last_value last.entry) (S.stream source.old)) }
    ensures value { IfOk result
        (λ value. IsDifferentOf kind (last_value last.entry) (datum_of value)) }
{
    let value = next_held(source, kind)?;
    check(source, is_known(&value), PartsFaultKind::UnexpectedValue)?;
    check(
        source,
        is_value_above(last, &value),
        PartsFaultKind::OutOfOrder,
    )?;
    Ok(value)
}

/// So many different values of a column of this type, ascending. No memory is taken for a count
/// before its values have come.
fn next_ascending<S: ValueReader>(
    alloc: Global,
    source: &mut S,
    kind: Kind,
    count: u64,
) -> Result<Vec<Value>, PartRefusal>
    ensures known { S.known source.old → OnOk result (S.known source.new) }
    ensures onward { OnOk result ((S.stream source.old).place ≤ (S.stream source.new).place) }
    ensures read { S.known source.old
        → Gives (λ values. (data_of values.items, S.stream source.new)) result
        (ascending_at kind count None (S.stream source.old)) }
    ensures count { IfOk result (λ values. vec_len values ≡ count) }
    ensures values { IfOk result (λ values. AreDifferentOf kind (data_of values.items)) }
{
    let mut values = Vec::new(alloc);
    for _ in 0..count {
        let value = next_different(source, kind, values.last())?;
        values.push(value)?;
    }
    Ok(values)
}

/// How many different values of a column of this type there are, of at most so many members, and
/// these.
#[tactic(auto, unfolding(crate::specs::Reading::collected_at))]
fn next_collected<S: ValueReader>(
    alloc: Global,
    source: &mut S,
    kind: Kind,
    members: u64,
) -> Result<State, PartRefusal>
    ensures known { S.known source.old → OnOk result (S.known source.new) }
    ensures onward { OnOk result ((S.stream source.old).place ≤ (S.stream source.new).place) }
    ensures read { S.known source.old → Gives (λ state. (state_of state, S.stream source.new))
        result (collected_at kind members (S.stream source.old)) }
    ensures state { IfOk result
        (λ state. IsStateFor members (StateKind.Distinct kind) (state_of state)) }
{
    let count = next_count_within(source, members)?;
    let values = next_ascending(alloc, source, kind, count)?;
    Ok(State::Distinct(values))
}

/// The next state, of this kind, of a group of so many members.
fn next_state<S: ValueReader>(
    alloc: Global,
    source: &mut S,
    kind: StateKind,
    members: u64,
) -> Result<State, PartRefusal>
    ensures known { S.known source.old → OnOk result (S.known source.new) }
    ensures onward { OnOk result ((S.stream source.old).place ≤ (S.stream source.new).place) }
    ensures read { S.known source.old → Gives (λ state. (state_of state, S.stream source.new))
        result (state_at members kind (S.stream source.old)) }
    ensures state { IfOk result (λ state. IsStateFor members kind (state_of state)) }
{
    match kind {
        StateKind::Rows => Ok(State::Rows),
        StateKind::Count => Ok(State::Count(next_count_within(source, members)?)),
        StateKind::Sum => next_sum(source, members),
        StateKind::Extreme(kind) => Ok(State::Extreme(next_held(source, kind)?)),
        StateKind::Distinct(kind) => next_collected(alloc, source, kind, members),
    }
}

/// The next states, one of each of these kinds, of a group of so many members.
pub(crate) fn next_states<S: ValueReader>(
    alloc: Global,
    source: &mut S,
    kinds: &[StateKind],
    members: u64,
) -> Result<Vec<State>, PartRefusal>
    ensures known { S.known source.old → OnOk result (S.known source.new) }
    ensures onward { OnOk result ((S.stream source.old).place ≤ (S.stream source.new).place) }
    ensures read { S.known source.old
        → Gives (λ states. (states_of states.items, S.stream source.new)) result
        (each_at (state_at members) kinds.now (S.stream source.old)) }
    ensures states { IfOk result
        (λ states. AreStatesFor members kinds.now (states_of states.items)) }
{
    let mut states = Vec::with_capacity(alloc, kinds.len())?;
    for kind in kinds {
        let state = next_state(alloc, source, *kind, members)?;
        states.push(state)?;
    }
    Ok(states)
}
