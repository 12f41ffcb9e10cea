//! The different values that `COUNT(DISTINCT x)` counts.

use crate::accumulator::is_non_null;
use crate::memory::Memory;
use crate::value_set::ValueSet;
use std::alloc::{AllocError, Global};
use std::marker::Model;
use values::Value;

/// The different values of those that were taken, NULL excepted.
#[derive(Drop)]
pub(crate) struct DistinctValues {
    values: ValueSet,
}

impl Model for DistinctValues {
    ghost use Rattle.std.specs.FinSet as set;
    ghost use Rattle.group_tables.specs.Coding.{coded_datum};
    ghost use Rattle.group_tables.specs.Values.{Values};
    ghost use Rattle.group_tables.specs.Inside.ValueSets.{shown};

    ghost Value = { Values };

    ghost coded = { set.code coded_datum };

    ghost view = { λ d. shown d.values };
}

impl DistinctValues {
    ghost use Rattle.std.specs.Prelude.{◌≡◌, [], ◌∷◌, IfOk, OnOk};
    ghost use Rattle.std.specs.FinSet as set;
    ghost use Rattle.values.specs.Datum.{data_of, datum_of};
    ghost use Rattle.semantics.specs.Aggregates.{non_null};
    ghost use Rattle.group_tables.specs.Entries.{ascending_values};
    ghost use Rattle.group_tables.specs.Values.{set_of};

    /// No value.
    pub(crate) fn new() -> DistinctValues
        ensures { result ≡ set.empty }
    {
        DistinctValues {
            values: ValueSet::Empty,
        }
    }

    /// These values.
    pub(crate) fn of_values(
        memory: Memory,
        values: Vec<Value>,
    ) -> Result<DistinctValues, AllocError>
        ensures { IfOk result (λ set. set ≡ set_of (data_of values.items)) }
    {
        let mut set = ValueSet::Empty;
        for value in values {
            set.insert(memory, value)?;
        }
        Ok(DistinctValues { values: set })
    }

    /// Takes one more value, of which a copy is kept where it is a new one.
    pub(crate) fn add(&mut self, memory: Memory, value: &Value) -> Result<(), AllocError>
        ensures { OnOk result (self.new
            ≡ set.union self.old (set_of (non_null (datum_of value.now ∷ [])))) }
    {
        if !is_non_null(value) {
            return Ok(());
        }
        self.values.insert_copy(memory, value)
    }

    /// Takes the values of another set: those of the smaller one move into the larger one.
    pub(crate) fn absorb(&mut self, memory: Memory, other: DistinctValues) -> Result<(), AllocError>
        ensures { OnOk result (self.new ≡ set.union self.old other) }
    {
        let DistinctValues { values } = other;
        self.values.absorb(memory, values)
    }

    /// Takes copies of the values of another set, of those that are new ones.
    pub(crate) fn absorb_copies(
        &mut self,
        memory: Memory,
        other: &DistinctValues,
    ) -> Result<(), AllocError>
        ensures { OnOk result (self.new ≡ set.union self.old other.now) }
    {
        self.values.absorb_copies(memory, &other.values)
    }

    /// The values, ascending.
    pub(crate) fn into_values(self, alloc: Global) -> Result<Vec<Value>, AllocError>
        ensures { IfOk result (λ values. data_of values.items ≡ ascending_values self) }
    {
        let DistinctValues { values } = self;
        values.into_values(alloc)
    }

    /// How many they are.
    pub(crate) fn count(self) -> u64
        ensures { result ≡ set.len self }
    {
        self.values.len() as u64
    }
}
