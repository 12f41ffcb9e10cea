//! The columns of a grouping set among those of a finer one.

ghost use Rattle.std.specs.Prelude.{◌≡◌, map, IfOk};
ghost use Rattle.group_tables.specs.Rolled.{index_in};

use std::alloc::{AllocError, Global};

/// Where each place of a set first stands in a finer set: by these places the values of a key of
/// the finer set are a record, which has the key of the set.
pub(crate) fn indices_in(
    alloc: Global,
    finer: &[usize],
    set: &[usize],
) -> Result<Vec<usize>, AllocError>
    ensures { IfOk result (λ indices. indices.items ≡ map (index_in finer.now) set.now) }
{
    let mut indices = Vec::with_capacity(alloc, set.len())?;
    for place in set {
        indices.push(index_in(finer, *place))?;
    }
    Ok(indices)
}

/// Where a place first stands in a set, and the set's length where it does not.
fn index_in(set: &[usize], place: usize) -> usize
    ensures { result ≡ index_in set.now place }
{
    for (index, other) in set.iter().enumerate() {
        if *other == place {
            return index;
        }
    }
    set.len()
}
