//! Sets of values that take no more memory than their values need.

ghost use Rattle.std.specs.Prelude.{◌≡◌, ◌∷◌, [], IfOk, OnOk, map};
ghost use Rattle.std.specs.FinSet as set;
ghost use Rattle.std.specs.List.{AllByRecursion, IsDistinct};
ghost use Rattle.semantics.specs.Aggregates.{same_value};
ghost use Rattle.sort_keys.specs.Codes.{IsCodable};
ghost use Rattle.values.specs.Datum.{data_of, datum_of};
ghost use Rattle.group_tables.specs.Entries.{ascending_values};
ghost use Rattle.group_tables.specs.Inside.Keyed.{keyed_datum, keyed_value};
ghost use Rattle.group_tables.specs.Values.{set_of};
ghost use Rattle.group_tables.specs.Inside.Values.{values_in};
ghost use Rattle.group_tables.specs.Inside.ValueSets.{shown};

use crate::copy::copy_of;
use crate::hash::HashSeed;
use crate::key_order::{Keyed, sort_keyed, things_of};
use crate::memory::Memory;
use sort_keys::{SortKey, put_value};
use std::alloc::{AllocError, Global};
use std::collections::HashSet;
use std::mem;
use values::Value;

/// A set of values: no value takes no memory, and one value none but that of its copy.
///
/// What it has stands in a box: with a value in it, each accumulator would be larger, those of
/// other set functions too.
#[derive(Drop)]
pub(crate) enum ValueSet {
    /// No value.
    Empty,
    /// One value.
    One(Box<Value>),
    /// Two values or more.
    Many(Box<HashSet<Value, HashSeed>>),
}

impl ValueSet {
    ghost use Rattle.std.specs.Prelude.{◌≡◌, IfOk, OnOk};
    ghost use Rattle.std.specs.FinSet as set;
    ghost use Rattle.values.specs.Datum.{data_of, datum_of};
    ghost use Rattle.group_tables.specs.Entries.{ascending_values};
    ghost use Rattle.group_tables.specs.Inside.Values.{values_in};
    ghost use Rattle.group_tables.specs.Inside.ValueSets.{shown};

    /// How many values it has.
    pub(crate) fn len(&self) -> usize
        ensures { result ≡ set.len (shown self.now) }
    {
        match self {
            ValueSet::Empty => 0,
            ValueSet::One(_) => 1,
            ValueSet::Many(values) => values.len(),
        }
    }

    /// Whether it has a value.
    fn contains(&self, value: &Value) -> bool
        ensures { result ≡ set.contains (shown self.now) (datum_of value.now) }
    {
        match self {
            ValueSet::Empty => false,
            ValueSet::One(only) => value == &**only,
            ValueSet::Many(values) => values.contains(value),
        }
    }

    /// Takes a value. After an error the set is of no use.
    pub(crate) fn insert(&mut self, memory: Memory, value: Value) -> Result<(), AllocError>
        ensures { OnOk result (shown self.new ≡ set.insert (shown self.old) (datum_of value)) }
    {
        match self {
            ValueSet::Empty => {
                *self = ValueSet::One(Box::new(memory.alloc, value)?);
                Ok(())
            }
            ValueSet::One(only) => {
                if value == **only {
                    return Ok(());
                }
                let first = mem::replace(&mut **only, Value::Null);
                *self = ValueSet::Many(set_of_two(memory, first, value)?);
                Ok(())
            }
            ValueSet::Many(values) => {
                values.insert(value)?;
                Ok(())
            }
        }
    }

    /// Takes a value, of which a copy is kept where it is a new one. After an error the set is of
    /// no use.
    pub(crate) fn insert_copy(&mut self, memory: Memory, value: &Value) -> Result<(), AllocError>
        ensures { OnOk result
            (shown self.new ≡ set.insert (shown self.old) (datum_of value.now)) }
    {
        if self.contains(value) {
            return Ok(());
        }
        let copy = copy_of(value)?;
        self.insert(memory, copy)
    }

    /// Takes the values of another set: those of the smaller one move into the larger one. After an
    /// error the set is of no use.
    pub(crate) fn absorb(&mut self, memory: Memory, other: ValueSet) -> Result<(), AllocError>
        ensures { OnOk result (shown self.new ≡ set.union (shown self.old) (shown other)) }
    {
        if self.len() < other.len() {
            let smaller = mem::replace(self, other);
            return self.insert_all(memory, smaller);
        }
        self.insert_all(memory, other)
    }

    /// Takes the values of another set, which move into this one.
    fn insert_all(&mut self, memory: Memory, other: ValueSet) -> Result<(), AllocError>
        ensures { OnOk result (shown self.new ≡ set.union (shown self.old) (shown other)) }
    {
        match other {
            ValueSet::Empty => Ok(()),
            ValueSet::One(value) => self.insert(memory, Box::into_inner(value)),
            ValueSet::Many(values) => self.insert_each(memory, Box::into_inner(values)),
        }
    }

    /// Takes the values of a hashed set, which move into this one.
    fn insert_each(
        &mut self,
        memory: Memory,
        values: HashSet<Value, HashSeed>,
    ) -> Result<(), AllocError>
        ensures { OnOk result
            (shown self.new ≡ set.union (shown self.old) (values_in values.keys)) }
    {
        for value in values {
            self.insert(memory, value)?;
        }
        Ok(())
    }

    /// Takes copies of the values of another set, of those that are new ones. After an error the
    /// set is of no use.
    pub(crate) fn absorb_copies(
        &mut self,
        memory: Memory,
        other: &ValueSet,
    ) -> Result<(), AllocError>
        ensures { OnOk result (shown self.new ≡ set.union (shown self.old) (shown other.now)) }
    {
        match other {
            ValueSet::Empty => Ok(()),
            ValueSet::One(value) => self.insert_copy(memory, value),
            ValueSet::Many(values) => self.insert_copies(memory, values),
        }
    }

    /// Takes copies of the values of a hashed set, of those that are new ones.
    fn insert_copies(
        &mut self,
        memory: Memory,
        values: &HashSet<Value, HashSeed>,
    ) -> Result<(), AllocError>
        ensures { OnOk result
            (shown self.new ≡ set.union (shown self.old) (values_in values.now.keys)) }
    {
        for value in values {
            self.insert_copy(memory, value)?;
        }
        Ok(())
    }

    /// The values, ascending.
    pub(crate) fn into_values(self, alloc: Global) -> Result<Vec<Value>, AllocError>
        ensures { IfOk result (λ values. data_of values.items ≡ ascending_values (shown self)) }
    {
        match self {
            ValueSet::Empty => Ok(Vec::new(alloc)),
            ValueSet::One(value) => list_of_one(alloc, Box::into_inner(value)),
            ValueSet::Many(values) => sorted_values(alloc, Box::into_inner(values)),
        }
    }
}

/// The hashed set of a first value and a second one.
fn set_of_two(
    memory: Memory,
    first: Value,
    second: Value,
) -> Result<Box<HashSet<Value, HashSeed>>, AllocError>
    ensures { IfOk result (λ both. values_in both.value.keys
        ≡ set.insert (set_of (datum_of first ∷ [])) (datum_of second)) }
{
    let mut values = HashSet::with_hasher(memory.alloc, memory.seed);
    values.insert(first)?;
    values.insert(second)?;
    let both = Box::new(memory.alloc, values)?;
    Ok(both)
}

/// The list of a value.
fn list_of_one(alloc: Global, value: Value) -> Result<Vec<Value>, AllocError>
    ensures { IfOk result (λ values. values.items ≡ value ∷ []) }
{
    let mut values = Vec::with_capacity(alloc, 1)?;
    values.push(value)?;
    Ok(values)
}

/// The values of a hashed set, ascending.
fn sorted_values(alloc: Global, values: HashSet<Value, HashSeed>) -> Result<Vec<Value>, AllocError>
    ensures { IfOk result (λ sorted.
        data_of sorted.items ≡ ascending_values (values_in values.keys)) }
{
    let keyed = keyed_values(alloc, values)?;
    things_of(alloc, sort_keyed(keyed))
}

/// The values of a hashed set, each beside its sort key.
fn keyed_values(
    alloc: Global,
    values: HashSet<Value, HashSeed>,
) -> Result<Vec<Keyed<Value>>, AllocError>
    ensures values { IfOk result (λ keyed.
        map keyed_value keyed.items ≡ map keyed_datum (data_of values.keys)) }
    ensures codable { OnOk result (AllByRecursion IsCodable (data_of values.keys)) }
    ensures distinct { OnOk result (IsDistinct same_value (data_of values.keys)) }
{
    let mut code = Vec::new(alloc);
    let mut keyed = Vec::with_capacity(alloc, values.len())?;
    for thing in values {
        code.clear();
        put_value(&mut code, &thing)?;
        let key = SortKey::new(alloc, code.as_slice())?;
        keyed.push(Keyed { key, thing })?;
    }
    Ok(keyed)
}
