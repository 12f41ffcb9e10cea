//! A hashed table of groups.

ghost use Rattle.std.specs.Prelude.{◌<◌, ◌≤◌, vec_len};
ghost use Rattle.std.proofs.Props.{props};
ghost use Rattle.group_tables.specs.Shards.{AreApart};

use crate::accumulators::Accumulators;
use crate::executor::Executor;
use crate::finish::finish_shards;
use crate::group::Group;
use crate::hash::HashSeed;
use crate::key::indices_in;
use crate::memory::Memory;
use crate::packed_key::PackedKey;
use crate::pairs::join_shards;
use crate::part::Part;
use crate::place::{SHARDS, place_of};
use crate::plain_entries::entries_of;
use crate::shard::Shard;
use query_resolve::FilteredFunction;
use std::alloc::{AllocError, Global};
use std::marker::Model;
use std::mem;
use values::{GroupEntry, Value};

/// The groups of one grouping set over the records that were taken so far, each by its key.
///
/// It keeps the seed by which it hashes, and hands it to all tables that are made of it; where two
/// are put together, the one that takes keeps its own.
///
/// It keeps neither its grouping set nor its set functions: each call that needs them is given the
/// same ones. Of a group it keeps the number of its members, and for each set function what its
/// value comes of: COUNT DISTINCT keeps each different value.
///
/// Example: the table that has taken the records `'x'`, `'y'` and `'x'`, grouped by their one
/// column with `COUNT(*)`, has two groups: that of `'x'` with 2 members, and that of `'y'` with 1.
pub struct Table {
    memory: Memory,
    /// The groups, each in the shard of its key's place. Either there are several shards, so that
    /// tables can be put together shard by shard, by several threads; or there is one, in which the
    /// groups lie in the order in which they came.
    shards: Vec<Shard>,
    /// The key by which a group was last searched. It is written over the one before, so that no
    /// memory is taken for a record whose group is there. A new group gets a key of its own, with
    /// room for its own code and no more; this one keeps room for the longest code so far.
    scratch: PackedKey,
    ghost some: { 0 < vec_len shards },
    ghost few: { vec_len shards ≤ 4 },
    ghost apart: { AreApart shards.items } by { Prim.hlevel props },
}

// A function of its own: a derived one is written out, and proved, wherever a table is given up.
impl Drop for Table {
    fn drop(self) {
        let Table {
            memory: _,
            shards,
            scratch,
        } = self;
        drop(shards);
        drop(scratch);
    }
}

impl Model for Table {
    ghost use Rattle.group_tables.specs.Table.{Contents, coded_contents};
    ghost use Rattle.group_tables.specs.Shards.{contents_of_shards};

    ghost Value = { Contents };

    ghost coded = { coded_contents };

    ghost view = { λ t. contents_of_shards t.shards.items };
}

impl Table {
    ghost use Rattle.std.specs.Prelude.{◌≡◌, ◌<◌, ◌≤◌, ◌∷◌, ◌++◌, ℕ, [], OnOk, IfOk, IsSome, List};
    ghost use Rattle.semantics.specs.Groups.{Key, project};
    ghost use Rattle.group_tables.specs.Rows.{IsNarrowRow};
    ghost use Rattle.std.specs.FinMap as fin;
    ghost use Rattle.values.specs.Datum.{data_of};
    ghost use Rattle.group_tables.specs.Inside.Group.{no_group};
    ghost use Rattle.group_tables.specs.Keys.{key_in};
    ghost use Rattle.group_tables.specs.Shards.{contents_in};
    ghost use Rattle.group_tables.specs.Table.{AreGroupsOfTable, CanJoin, HasEmptyKey, HasFewRecords, HasGroupsOfBoth, HasOneMore, IsFitting, IsOfNone, IsRollOf, KeepsCount, TakesOne, both_tables};
    ghost use Rattle.group_tables.specs.Inside.Table.{IsPut, IsTaken, IsWithPart};
    ghost use Rattle.values.specs.GroupStates.{entries_of, entry_of};
    ghost use Rattle.group_tables.specs.Entries.{CountsEntry, IsBehind, IsEntryFor, TypesEntry, table_entries};
    ghost use Rattle.group_tables.specs.Typed.{HaveTypesOfTable, KeepsTypes};
    ghost use Rattle.group_tables.specs.Rolled.{AreAmong};

    /// The table of no records under a grouping set, for these set functions, whatever their
    /// filters keep. The set has the places of its columns, from 0. The empty set has its one group
    /// from the start, with the empty key. The seed is that of all hashes of the table. It is kept
    /// in such a way that as many hands put it to another one soonest (`absorb`), where that one is
    /// kept so too. What is taken and given does not depend on the hands.
    ///
    /// Example: `Table::new(alloc, seed, 4, &[], functions)` answers a table whose `len()` is 1;
    /// with `&[0]` it is 0.
    ///
    /// # Errors
    ///
    /// `AllocError` where there is no memory for it.
    pub fn new(
        alloc: Global,
        seed: HashSeed,
        hands: usize,
        set: &[usize],
        functions: &[FilteredFunction],
    ) -> Result<Table, AllocError>
        ensures empty { IfOk result (IsOfNone set.now functions.now) }
    {
        let memory = Memory { alloc, seed };
        let count = hands.clamp(1, SHARDS);
        if set.is_empty() {
            return Table::with_empty_key(memory, count, functions);
        }
        Table::without_groups(memory, count)
    }

    /// The table of so many shards that has no group.
    fn without_groups(memory: Memory, count: usize) -> Result<Table, AllocError>
        requires some { 0 < count }
        requires few { count ≤ 4 }
        ensures { IfOk result (λ table. table ≡ fin.empty) }
    {
        let mut shards = Vec::with_capacity(memory.alloc, count)?;
        for _ in 0..count {
            shards.push(Shard::new(memory))?;
        }
        Ok(Table {
            memory,
            shards,
            scratch: PackedKey::empty(memory.alloc),
        })
    }

    /// The table of so many shards of no records under the empty set, whose one key is there from
    /// the start.
    fn with_empty_key(
        memory: Memory,
        count: usize,
        functions: &[FilteredFunction],
    ) -> Result<Table, AllocError>
        requires some { 0 < count }
        requires few { count ≤ 4 }
        ensures { IfOk result (λ table. (k : Key)
            → IsPut fin.empty table [] (no_group functions.now) k) }
    {
        let mut table = Table::without_groups(memory, count)?;
        let group = Accumulators::new(memory.alloc, functions)?;
        table.put_to_group(PackedKey::empty(memory.alloc), group)?;
        Ok(table)
    }

    /// The table without any group, kept as `new` keeps it. Groups may be put into it
    /// (`put_entry`).
    ///
    /// Example: `Table::for_entries(alloc, seed, 4)` answers a table whose `len()` is 0.
    ///
    /// # Errors
    ///
    /// `AllocError` where there is no memory for it.
    pub fn for_entries(alloc: Global, seed: HashSeed, hands: usize) -> Result<Table, AllocError>
        ensures { IfOk result (λ table. table ≡ fin.empty) }
    {
        Table::without_groups(Memory { alloc, seed }, hands.clamp(1, SHARDS))
    }

    /// Takes one more record into the group of its key. `row` has the values of the record, and
    /// `marks` says of each filter, by its index from 0, whether it keeps the record: the mark of a
    /// set function is that with the index of its FILTER. A value in a column that the record does
    /// not have counts as NULL.
    ///
    /// This is a table under this set for these functions, of fewer than 2^63 - 1 records, and no
    /// whole number of the record is below -2^63 or above 2^63.
    ///
    /// Example: a record whose key has no group yet makes `len()` one more; the next one with that
    /// key leaves it so.
    ///
    /// # Errors
    ///
    /// `AllocError` where there is no memory for it; the table is of no use then.
    pub fn add(
        &mut self,
        set: &[usize],
        functions: &[FilteredFunction],
        row: &[Value],
        marks: &[bool],
    ) -> Result<(), AllocError>
        requires narrow { IsNarrowRow (data_of row.now) }
        requires room { ∥ TakesOne set.now functions.now self.old ∥₁ }
        ensures added { OnOk result (HasOneMore set.now functions.now self.old
            (data_of row.now) marks.now self.new) }
    {
        self.put(set, functions, row, Part::Record(row, marks))
    }

    /// Takes the records of another table under the same set for the same functions, whose groups
    /// move into this one. The executor moves them: by several threads where they are many and both
    /// tables are kept for several hands (`new`).
    ///
    /// Where both have a group of one key, the two have fewer than 2^63 members together, and are
    /// for as many functions.
    ///
    /// Example: a table with 2 members of the key `'x'` that takes one with 1 of `'x'` and 1 of
    /// `'y'` has 3 of `'x'` and 1 of `'y'`.
    ///
    /// # Errors
    ///
    /// `AllocError` where there is no memory for it; the table is of no use then. Where a thread
    /// cannot be started, the one that wanted to start it does its part.
    pub fn absorb<E: Executor>(&mut self, executor: &E, other: Table) -> Result<(), AllocError>
        requires ready { E.ready executor.now }
        requires join { CanJoin self.old other }
        ensures { OnOk result (self.new ≡ both_tables self.old other) }
    {
        let fresh = Table::without_groups(self.memory, 1)?;
        let table = mem::replace(self, fresh);
        *self = table.join(executor, other)?;
        Ok(())
    }

    /// The table of the same records under another set, made of the groups of this one, which stays
    /// as it is. So it may be made of a table that was rolled before.
    ///
    /// The groups of this one have fewer than 2^63 records together, whichever these are, and are
    /// kept for these functions; each column of `set` is one of `finer`, the set of this table, in
    /// whatever order.
    ///
    /// Example: a table with 2 members of the key `('Quay', 'sale')` and 1 of `('Quay', 'refund')`
    /// gives, rolled to its first column, one with 3 members of `'Quay'`.
    ///
    /// # Errors
    ///
    /// `AllocError` where there is no memory for it.
    pub fn roll(
        &self,
        finer: &[usize],
        set: &[usize],
        functions: &[FilteredFunction],
    ) -> Result<Table, AllocError>
        requires among { AreAmong set.now finer.now }
        requires few { HasFewRecords functions.now self.now }
        ensures rolled { IfOk result (IsRollOf finer.now functions.now self.now set.now) }
        ensures counted { IfOk result (KeepsCount functions.now self.now) }
        ensures typed { IfOk result (KeepsTypes finer.now functions.now self.now set.now) }
        ensures whole { IfOk result (HasEmptyKey set.now) }
    {
        if set.is_empty() {
            return self.roll_to_one(functions);
        }
        let Memory { alloc, seed } = self.memory;
        let indices = indices_in(alloc, finer, set)?;
        let indices = indices.as_slice();
        let mut pieces = Vec::with_capacity(alloc, finer.len())?;
        let mut rolled = Table::new(alloc, seed, 1, set, functions)?;
        for shard in &self.shards {
            for (key, part) in &shard.groups {
                let scratch = rolled.take_scratch();
                let coarser = scratch.rewrite_from(indices, key, &mut pieces)?;
                rolled.put_by_key(coarser, functions, Part::Copies(part))?;
            }
        }
        Ok(rolled)
    }

    /// The table under the empty set. Its one group takes what is kept of each group, and no key is
    /// searched.
    fn roll_to_one(&self, functions: &[FilteredFunction]) -> Result<Table, AllocError>
        requires few { HasFewRecords functions.now self.now }
        ensures rolled { IfOk result (λ table.
            (finer : List ℕ) → IsRollOf finer functions.now self.now [] table) }
        ensures counted { IfOk result (KeepsCount functions.now self.now) }
        ensures typed { IfOk result (λ table.
            (finer : List ℕ) → KeepsTypes finer functions.now self.now [] table) }
        ensures whole { IfOk result (λ table. IsSome (fin.get table [])) }
    {
        let mut group = Accumulators::new(self.memory.alloc, functions)?;
        for shard in &self.shards {
            shard.put_copies_to(self.memory, &mut group)?;
        }
        let mut one = Table::without_groups(self.memory, 1)?;
        one.put_to_group(PackedKey::empty(self.memory.alloc), group)?;
        Ok(one)
    }

    /// The number of its groups: of the different keys of its records, and 1 under the empty set.
    pub fn len(&self) -> usize
        ensures { result ≡ fin.len self.now }
    {
        let mut count = 0;
        for shard in &self.shards {
            count += shard.len();
        }
        count
    }

    /// One group for each key of the records, in no order that is said: with the number of its
    /// members, and the value of each set function over those that its FILTER keeps, or over all
    /// where it has none. The executor finishes them.
    ///
    /// Example: under the empty set over no records it gives one group, with the empty key and 0
    /// members, where each COUNT is 0 and each other set function NULL.
    ///
    /// # Errors
    ///
    /// `AllocError` where there is no memory for the groups; the table is given up then.
    pub fn finish<E: Executor>(self, executor: &E) -> Result<Vec<Group>, AllocError>
        requires ready { E.ready executor.now }
        ensures groups { IfOk result (λ groups. AreGroupsOfTable self groups.items) }
        ensures typed { IfOk result (λ groups. HaveTypesOfTable self groups.items) }
    {
        let count = self.len();
        let Table {
            memory,
            shards,
            scratch,
        } = self;
        drop(scratch);
        finish_shards(executor, memory.alloc, count, shards)
    }

    /// Its groups as plain values, by ascending keys: of each the key, the number of its members,
    /// and the state of each set function over them.
    ///
    /// Example: of the records `'y', 3`, `'x', 5` and `'x', 2`, grouped by their first column with
    /// SUM of the second one, it gives the group of `'x'` with 2 members and the state `Sum(7, 2)`,
    /// and then that of `'y'`.
    ///
    /// # Errors
    ///
    /// `AllocError` where there is no memory for the groups; the table is given up then.
    pub fn into_entries(self) -> Result<Vec<GroupEntry>, AllocError>
        ensures { IfOk result (λ entries. entries_of entries.items ≡ table_entries self) }
    {
        let count = self.len();
        let Table {
            memory,
            shards,
            scratch,
        } = self;
        drop(scratch);
        entries_of(memory.alloc, count, shards)
    }

    /// Puts a group behind all that are there. These are for the same functions.
    ///
    /// Its key is above all that are there (`key_order`: values as ORDER BY has them, NULL last),
    /// and it has a state of its form for each set function, over its members.
    ///
    /// Example: a table that has the group of `'x'` and takes that of `'y'` gives these two with
    /// `into_entries`.
    ///
    /// # Errors
    ///
    /// `AllocError` where there is no memory for it; the table is of no use then.
    pub fn put_entry(
        &mut self,
        functions: &[FilteredFunction],
        entry: GroupEntry,
    ) -> Result<(), AllocError>
        requires behind { IsBehind (data_of entry.key.items) (table_entries self.old) }
        requires states { IsEntryFor functions.now (entry_of entry) }
        ensures entries { OnOk result
            (table_entries self.new ≡ table_entries self.old ++ entry_of entry ∷ []) }
        ensures counted { OnOk result
            (CountsEntry functions.now (entry_of entry) self.old self.new) }
        ensures typed { OnOk result (TypesEntry functions.now (entry_of entry) self.old self.new) }
    {
        let GroupEntry {
            key,
            members,
            states,
        } = entry;
        let group = Accumulators::of_states(self.memory, functions, members, states)?;
        let key = PackedKey::of_values(self.memory.alloc, key.as_slice())?;
        self.put_to_group(key, group)
    }

    /// Puts one more part to the group of a record's key.
    fn put(
        &mut self,
        set: &[usize],
        functions: &[FilteredFunction],
        row: &[Value],
        part: Part<'_>,
    ) -> Result<(), AllocError>
        requires { IsTaken functions.now
            (fin.get self.old (project set.now (data_of row.now))) part }
        ensures { OnOk result ((k : Key) → IsWithPart functions.now self.old self.new
            (project set.now (data_of row.now)) part.entry k) }
    {
        let key = self.take_scratch().rewrite(set, row)?;
        self.put_by_key(key, functions, part)
    }

    /// Takes the key by which a group was last searched out of the table, for its memory.
    fn take_scratch(&mut self) -> PackedKey
        ensures { self.new ≡ self.old }
    {
        mem::replace(&mut self.scratch, PackedKey::empty(self.memory.alloc))
    }

    /// Puts one more part to the group of a key, and keeps the key as the one by which a group was
    /// last searched.
    fn put_by_key(
        &mut self,
        key: PackedKey,
        functions: &[FilteredFunction],
        part: Part<'_>,
    ) -> Result<(), AllocError>
        requires { IsTaken functions.now (fin.get self.old (key_in key)) part }
        ensures { OnOk result ((k : Key) → IsWithPart functions.now self.old self.new
            (key_in key) part.entry k) }
    {
        self.scratch = key;
        let place = place_of(&self.scratch, self.shards.len());
        self.shards[place].put(self.memory, &self.scratch, functions, part)
    }

    /// Moves one more part to the group of a key.
    fn put_to_group(&mut self, key: PackedKey, part: Accumulators) -> Result<(), AllocError>
        requires { IsFitting part (fin.get self.old (key_in key)) }
        ensures { OnOk result ((k : Key) → IsPut self.old self.new (key_in key) part k) }
    {
        let place = place_of(&key, self.shards.len());
        self.shards[place].put_group(self.memory, key, part)
    }

    /// Puts the groups of a shard of another table to these, each to the group of its key.
    fn absorb_shard(&mut self, shard: Shard) -> Result<(), AllocError>
        requires { CanJoin self.old (contents_in shard) }
        ensures { OnOk result (HasGroupsOfBoth self.old (contents_in shard) self.new) }
    {
        let Shard { groups } = shard;
        for (key, part) in groups {
            self.put_to_group(key, part)?;
        }
        Ok(())
    }

    /// The table of the groups of both, group by group, however many shards each has.
    fn join_by_key(self, other: Table) -> Result<Table, AllocError>
        requires { CanJoin self other }
        ensures { IfOk result (HasGroupsOfBoth self other) }
    {
        let Table {
            memory: _,
            shards,
            scratch,
        } = other;
        drop(scratch);
        let mut joined = self;
        for shard in shards {
            joined.absorb_shard(shard)?;
        }
        Ok(joined)
    }

    /// The table of the groups of both: shard by shard, where one has as many as the other.
    fn join<E: Executor>(self, executor: &E, other: Table) -> Result<Table, AllocError>
        requires ready { E.ready executor.now }
        requires join { CanJoin self other }
        ensures { IfOk result (HasGroupsOfBoth self other) }
    {
        if self.shards.len() != other.shards.len() {
            return self.join_by_key(other);
        }
        let moving = other.len();
        let Table {
            memory,
            shards,
            scratch,
        } = self;
        let Table {
            memory: _,
            shards: other_shards,
            scratch: other_scratch,
        } = other;
        drop(other_scratch);
        let shards = join_shards(executor, memory, shards, other_shards, moving)?;
        Ok(Table {
            memory,
            shards,
            scratch,
        })
    }
}
