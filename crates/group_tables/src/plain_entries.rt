//! Tables as lists of groups.

ghost use Rattle.std.specs.Prelude.{◌≡◌, ◌++◌, IfOk, OnOk, map};
ghost use Rattle.values.specs.GroupStates.{entries_of};
ghost use Rattle.sort_keys.specs.SortKeys.{key_parts, parts_of};
ghost use Rattle.group_tables.specs.Entries.{table_entries};
ghost use Rattle.group_tables.specs.Inside.Keyed.{keyed_at, keyed_entry, sort_code};
ghost use Rattle.group_tables.specs.Keys.{key_in};
ghost use Rattle.group_tables.specs.Shards.{AreApart, all_entries, contents_of_shards, entries_in};

use crate::accumulators::Accumulators;
use crate::key_order::{Keyed, sort_keyed, things_of};
use crate::packed_key::PackedKey;
use crate::shard::Shard;
use sort_keys::SortKey;
use std::alloc::{AllocError, Global};
use values::GroupEntry;

/// The groups of all shards, so many, by ascending keys.
pub(crate) fn entries_of(
    alloc: Global,
    count: usize,
    shards: Vec<Shard>,
) -> Result<Vec<GroupEntry>, AllocError>
    requires { AreApart shards.items }
    ensures { IfOk result (λ entries.
        entries_of entries.items ≡ table_entries (contents_of_shards shards.items)) }
{
    let keyed = keyed_entries(alloc, count, shards)?;
    things_of(alloc, sort_keyed(keyed))
}

/// The groups of all shards, so many, each beside its sort key.
fn keyed_entries(
    alloc: Global,
    count: usize,
    shards: Vec<Shard>,
) -> Result<Vec<Keyed<GroupEntry>>, AllocError>
    ensures { IfOk result (λ keyed.
        map keyed_entry keyed.items ≡ map keyed_at (all_entries shards.items)) }
{
    let mut code = Vec::new(alloc);
    let mut keyed = Vec::with_capacity(alloc, count)?;
    for shard in shards {
        put_entries(alloc, &mut code, &mut keyed, shard)?;
    }
    Ok(keyed)
}

/// Puts the groups of a shard behind others, each beside its sort key. The codes are written into
/// `code`, in place of what is there.
fn put_entries(
    alloc: Global,
    code: &mut Vec<u8>,
    keyed: &mut Vec<Keyed<GroupEntry>>,
    shard: Shard,
) -> Result<(), AllocError>
    ensures { OnOk result (map keyed_entry keyed.new.items
        ≡ map keyed_entry keyed.old.items ++ map keyed_at (entries_in shard)) }
{
    let Shard { groups } = shard;
    let mut width = 0;
    for (key, group) in groups {
        let entry = keyed_entry(alloc, code, width, key, group)?;
        width = entry.thing.key.len();
        keyed.push(entry)?;
    }
    Ok(())
}

/// A group beside its sort key, where its key may have so many values.
fn keyed_entry(
    alloc: Global,
    code: &mut Vec<u8>,
    width: usize,
    key: PackedKey,
    group: Accumulators,
) -> Result<Keyed<GroupEntry>, AllocError>
    ensures { IfOk result (λ keyed. keyed_entry keyed ≡ keyed_at (key, group)) }
{
    let sort_key = sort_key_of(alloc, code, &key)?;
    let key = key.values(alloc, width)?;
    let (members, states) = group.into_states(alloc)?;
    Ok(Keyed {
        key: sort_key,
        thing: GroupEntry {
            key,
            members,
            states,
        },
    })
}

/// The sort key of a key's code with a 0 behind it, so that no code is the beginning of another
/// one.
fn sort_key_of(alloc: Global, code: &mut Vec<u8>, key: &PackedKey) -> Result<SortKey, AllocError>
    ensures { IfOk result (λ sort_key. key_parts sort_key ≡ parts_of (sort_code (key_in key.now))) }
{
    code.clear();
    code.extend_from_slice(key.code())?;
    code.push(0)?;
    SortKey::new(alloc, code.as_slice())
}
