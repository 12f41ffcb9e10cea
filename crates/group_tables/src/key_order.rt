//! Things in the order of their sort keys.

ghost use Rattle.std.specs.Prelude.{◌≡◌, IfOk, map};
ghost use Rattle.std.specs.List.Sorted.{IsPermutation, IsSortedBy};
ghost use Rattle.group_tables.specs.Inside.Keyed.{is_before};

use sort_keys::SortKey;
use std::alloc::{AllocError, Global};

/// A thing, and the sort key by which it is put in order.
#[derive(Drop)]
pub(crate) struct Keyed<T> {
    pub(crate) key: SortKey,
    pub(crate) thing: T,
}

/// The things in the order of their keys, of which no two are equal.
pub(crate) fn sort_keyed<T: Drop>(keyed: Vec<Keyed<T>>) -> Vec<Keyed<T>>
    ensures permutation { IsPermutation keyed.items result.items }
    ensures sorted { IsSortedBy is_before result.items }
{
    let mut keyed = keyed;
    keyed.sort_unstable_by(|a, b| a.key.compare(&b.key));
    keyed
}

/// The things alone, in the order in which they stand.
pub(crate) fn things_of<T: Drop>(alloc: Global, keyed: Vec<Keyed<T>>) -> Result<Vec<T>, AllocError>
    ensures { IfOk result (λ things. things.items ≡ map (λ k. k.thing) keyed.items) }
{
    let mut things = Vec::with_capacity(alloc, keyed.len())?;
    for Keyed { key: _, thing } in keyed {
        things.push(thing)?;
    }
    Ok(things)
}
