//! What is kept of the members of a group for all set functions.

ghost use Rattle.std.specs.Prelude.{◌≡◌, IfOk, map};
ghost use Rattle.group_tables.specs.Inside.Accumulator.{state_in, summary};
ghost use Rattle.group_tables.specs.Cells.{summary_of};
ghost use Rattle.group_tables.specs.Entries.{plain_state};
ghost use Rattle.values.specs.GroupStates.{states_of};
ghost use Rattle.semantics.specs.Limits.{input_limit};

use crate::accumulator::Accumulator;
use crate::cell::Cell;
use crate::memory::Memory;
use query_resolve::FilteredFunction;
use std::alloc::{AllocError, Global};
use std::marker::Model;
use values::{State, Value};

/// What is kept of the members of a group: their number, and for each set function an accumulator.
#[derive(Drop)]
pub(crate) struct Accumulators {
    lines: u64,
    parts: Vec<Accumulator>,
}

impl Model for Accumulators {
    ghost use Rattle.std.specs.Prelude.{map};
    ghost use Rattle.group_tables.specs.Inside.Accumulator.{state_in};
    ghost use Rattle.group_tables.specs.Group.{GroupState, coded_group};
    ghost use Rattle.group_tables.specs.Inside.Group.{IsSound};

    ghost Value = { GroupState };

    ghost coded = { coded_group };

    ghost view = { λ a. record { lines = a.lines; parts = map state_in a.parts.items } };

    ghost invariant = { λ a. IsSound a.lines (map state_in a.parts.items) };
}

impl Accumulators {
    ghost use Rattle.std.specs.Prelude.{◌≡◌, ◌+◌, ◌<◌, IfOk, OnOk, length, map};
    ghost use Rattle.values.specs.Datum.{data_of};
    ghost use Rattle.group_tables.specs.Inside.Accumulator.{summary};
    ghost use Rattle.group_tables.specs.Inside.Group.{no_group, with_row};
    ghost use Rattle.group_tables.specs.Group.{joint_group};
    ghost use Rattle.group_tables.specs.Rows.{IsNarrowRow};
    ghost use Rattle.values.specs.GroupStates.{states_of};
    ghost use Rattle.group_tables.specs.Entries.{AreStatesFor, plain_state};
    ghost use Rattle.group_tables.specs.Inside.Entries.{kept_states};
    ghost use Rattle.group_tables.specs.Cells.{summary_of};

    /// What is kept of a group without members.
    pub(crate) fn new(
        alloc: Global,
        functions: &[FilteredFunction],
    ) -> Result<Accumulators, AllocError>
        ensures { IfOk result (λ group. group ≡ no_group functions.now) }
    {
        let mut parts = Vec::with_capacity(alloc, functions.len())?;
        for function in functions {
            parts.push(Accumulator::new(*function))?;
        }
        Ok(Accumulators { lines: 0, parts })
    }

    /// What is kept of a group of so many members, by a state for each function.
    pub(crate) fn of_states(
        memory: Memory,
        functions: &[FilteredFunction],
        members: u64,
        states: Vec<State>,
    ) -> Result<Accumulators, AllocError>
        requires { AreStatesFor functions.now members (states_of states.items) }
        ensures lines { IfOk result (λ group. group.lines ≡ members) }
        ensures parts { IfOk result (λ group.
            group.parts ≡ kept_states functions.now (states_of states.items)) }
    {
        let mut parts = Vec::with_capacity(memory.alloc, functions.len())?;
        for (function, state) in functions.iter().zip(states) {
            parts.push(Accumulator::of_state(memory, function.function, state)?)?;
        }
        Ok(Accumulators {
            lines: members,
            parts,
        })
    }

    /// Takes one more member, by its values, of which the marks say which filters keep it. After an
    /// error the group is of no use.
    pub(crate) fn add(
        &mut self,
        memory: Memory,
        functions: &[FilteredFunction],
        marks: &[bool],
        row: &[Value],
    ) -> Result<(), AllocError>
        requires narrow { IsNarrowRow (data_of row.now) }
        requires room { self.old.lines + 1 < input_limit }
        requires one_each { length self.old.parts ≡ length functions.now }
        ensures { OnOk result (self.new
            ≡ with_row functions.now marks.now self.old (data_of row.now)) }
    {
        self.lines += 1;
        for (place, function) in functions.iter().enumerate() {
            self.parts[place].add(memory, *function, marks, row)?;
        }
        Ok(())
    }

    /// Takes what is kept of other members. After an error the group is of no use.
    pub(crate) fn absorb(&mut self, memory: Memory, other: Accumulators) -> Result<(), AllocError>
        requires room { self.old.lines + other.lines < input_limit }
        requires one_each { length other.parts ≡ length self.old.parts }
        ensures { OnOk result (self.new ≡ joint_group self.old other) }
    {
        let Accumulators { lines, parts } = other;
        self.lines += lines;
        for (place, part) in parts.into_iter().enumerate() {
            self.parts[place].absorb(memory, part)?;
        }
        Ok(())
    }

    /// Takes copies of what is kept of other members. After an error the group is of no use.
    pub(crate) fn absorb_copies(
        &mut self,
        memory: Memory,
        other: &Accumulators,
    ) -> Result<(), AllocError>
        requires room { self.old.lines + other.now.lines < input_limit }
        requires one_each { length other.now.parts ≡ length self.old.parts }
        ensures { OnOk result (self.new ≡ joint_group self.old other.now) }
    {
        self.lines += other.lines;
        for (place, part) in other.parts.iter().enumerate() {
            self.parts[place].absorb_copies(memory, part)?;
        }
        Ok(())
    }

    /// The number of members, and the states of the functions over them.
    pub(crate) fn into_states(self, alloc: Global) -> Result<(u64, Vec<State>), AllocError>
        ensures lines { IfOk result (λ r. r.0 ≡ self.lines) }
        ensures states { IfOk result (λ r. states_of r.1.items ≡ map plain_state self.parts) }
    {
        let Accumulators { lines, parts } = self;
        let states = plain_states(alloc, parts)?;
        Ok((lines, states))
    }

    /// The number of members, and the values of the functions over them.
    pub(crate) fn finish(self, alloc: Global) -> Result<(u64, Vec<Cell>), AllocError>
        ensures lines { IfOk result (λ r. r.0 ≡ self.lines) }
        ensures cells { IfOk result (λ r.
            map summary_of r.1.items ≡ map (summary self.lines) self.parts) }
    {
        let Accumulators { lines, parts } = self;
        let cells = cells_of(alloc, lines, parts)?;
        Ok((lines, cells))
    }
}

/// The values of set functions over a group of so many records.
fn cells_of(alloc: Global, lines: u64, parts: Vec<Accumulator>) -> Result<Vec<Cell>, AllocError>
    ensures { IfOk result (λ cells.
        map summary_of cells.items ≡ map (λ part. summary lines (state_in part)) parts.items) }
{
    let mut cells = Vec::with_capacity(alloc, parts.len())?;
    for part in parts {
        cells.push(part.finish(lines))?;
    }
    Ok(cells)
}

/// The states that accumulators keep.
fn plain_states(alloc: Global, parts: Vec<Accumulator>) -> Result<Vec<State>, AllocError>
    ensures { IfOk result (λ states.
        states_of states.items ≡ map (λ part. plain_state (state_in part)) parts.items) }
{
    let mut states = Vec::with_capacity(alloc, parts.len())?;
    for part in parts {
        states.push(part.into_state(alloc)?)?;
    }
    Ok(states)
}
