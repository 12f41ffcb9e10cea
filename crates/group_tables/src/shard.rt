//! A shard of a table: a hashed map of groups.

ghost use Rattle.std.specs.Prelude.{◌≤◌};
ghost use Rattle.std.specs.HashMap.{hash_map_len};
ghost use Rattle.std.specs.List.{IsDistinct};
ghost use Rattle.std.proofs.Props.{props};
ghost use Rattle.std.specs.Map.{keys_of};
ghost use Rattle.group_tables.specs.Inside.Keys.{key_eq};
ghost use Rattle.group_tables.specs.declared.shard.TheConstants.{MOST};

use crate::accumulators::Accumulators;
use crate::hash::HashSeed;
use crate::memory::Memory;
use crate::packed_key::PackedKey;
use crate::part::Part;
use query_resolve::FilteredFunction;
use std::alloc::AllocError;
use std::collections::HashMap;

/// The most groups of a shard. No memory has room for as many, so that their number is always one
/// of 64 bits.
const MOST: usize = 576_460_752_303_423_488;

/// Some groups of a table, each by its key.
#[derive(Drop)]
pub(crate) struct Shard {
    pub(crate) groups: HashMap<PackedKey, Accumulators, HashSeed>,
    ghost few: { hash_map_len groups ≤ MOST },
    ghost distinct: { IsDistinct key_eq (keys_of groups.entries) } by { Prim.hlevel props },
}

impl Shard {
    ghost use Rattle.std.specs.Prelude.{◌≡◌, ◌≤◌, Bool, false, [], OnOk, length};
    ghost use Rattle.std.specs.FinMap as fin;
    ghost use Rattle.semantics.specs.Groups.{Key, same_key};
    ghost use Rattle.group_tables.specs.Keys.{key_in};
    ghost use Rattle.group_tables.specs.Shards.{contents_in, entries_in};
    ghost use Rattle.group_tables.specs.Table.{CanJoin, IsFitting, IsJoined};
    ghost use Rattle.group_tables.specs.Inside.Table.{IsPut, IsTaken, IsWithPart, TakesEach, group_with_entries};

    /// The shard that has no group.
    pub(crate) fn new(memory: Memory) -> Shard
        ensures { entries_in result ≡ [] }
    {
        Shard {
            groups: HashMap::with_hasher(memory.alloc, memory.seed),
        }
    }

    /// The number of its groups.
    pub(crate) fn len(&self) -> usize
        ensures len { result ≡ length (entries_in self.now) }
        ensures few { result ≤ MOST }
    {
        self.groups.len()
    }

    /// Puts one more part to the group of a key. At each other key there is afterwards what was
    /// there, also after an error.
    pub(crate) fn put(
        &mut self,
        memory: Memory,
        key: &PackedKey,
        functions: &[FilteredFunction],
        part: Part<'_>,
    ) -> Result<(), AllocError>
        requires { IsTaken functions.now
            (fin.get (contents_in self.old) (key_in key.now)) part }
        ensures put { OnOk result ((k : Key) → IsWithPart functions.now (contents_in self.old)
            (contents_in self.new) (key_in key.now) part.entry k) }
        ensures others { (k : Key) → same_key k (key_in key.now) ≡ false
            → fin.get (contents_in self.new) k ≡ fin.get (contents_in self.old) k }
    {
        if let Some(group) = self.groups.get_mut(key) {
            return part.put_to(memory, group, functions);
        }
        if self.groups.len() >= MOST {
            return Err(AllocError);
        }
        let mut group = Accumulators::new(memory.alloc, functions)?;
        part.put_to(memory, &mut group, functions)?;
        let key = key.copy(memory.alloc)?;
        self.groups.insert(key, group)?;
        Ok(())
    }

    /// Moves one more part to the group of a key. At each other key there is afterwards what was
    /// there, also after an error.
    pub(crate) fn put_group(
        &mut self,
        memory: Memory,
        key: PackedKey,
        part: Accumulators,
    ) -> Result<(), AllocError>
        requires { IsFitting part (fin.get (contents_in self.old) (key_in key)) }
        ensures put { OnOk result ((k : Key)
            → IsPut (contents_in self.old) (contents_in self.new) (key_in key) part k) }
        ensures others { (k : Key) → same_key k (key_in key) ≡ false
            → fin.get (contents_in self.new) k ≡ fin.get (contents_in self.old) k }
    {
        if let Some(group) = self.groups.get_mut(&key) {
            return group.absorb(memory, part);
        }
        if self.groups.len() >= MOST {
            return Err(AllocError);
        }
        self.groups.insert(key, part)?;
        Ok(())
    }

    /// Puts the groups of another shard to these.
    pub(crate) fn absorb(&mut self, memory: Memory, other: Shard) -> Result<(), AllocError>
        requires { CanJoin (contents_in self.old) (contents_in other) }
        ensures { OnOk result ((k : Key)
            → IsJoined (contents_in self.old) (contents_in other) (contents_in self.new) k) }
    {
        let Shard { groups } = other;
        for (key, part) in groups {
            self.put_group(memory, key, part)?;
        }
        Ok(())
    }

    /// Puts copies of what is kept of all groups to a group, whatever their keys. After an error
    /// the group is of no use.
    pub(crate) fn put_copies_to(
        &self,
        memory: Memory,
        group: &mut Accumulators,
    ) -> Result<(), AllocError>
        requires { TakesEach group.old (entries_in self.now) }
        ensures { OnOk result (group.new ≡ group_with_entries group.old (entries_in self.now)) }
    {
        for (_key, part) in &self.groups {
            group.absorb_copies(memory, part)?;
        }
        Ok(())
    }
}
