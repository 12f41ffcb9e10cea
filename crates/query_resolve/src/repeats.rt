//! Sets of places of columns, without repeats.

ghost use Rattle.std.specs.Prelude.{◌≡◌, if◌then◌else◌, IfOk};
ghost use Rattle.std.specs.List.{list_any};
ghost use Rattle.std.specs.Str.{bytes_eq};
ghost use Rattle.semantics.specs.Lists.{distinct};
ghost use Rattle.query_resolve.specs.Resolution.{contents};

use std::alloc::{AllocError, Global};

/// Whether a set is among others.
fn has_set(sets: &[Vec<usize>], set: &[usize]) -> bool
    ensures { result ≡ list_any (λ other. bytes_eq other.items set.now) sets.now }
{
    sets.iter().any(|other| other.as_slice() == set)
}

/// A set once more.
fn copy_set(alloc: Global, set: &[usize]) -> Result<Vec<usize>, AllocError>
    ensures { IfOk result (λ v. v.items ≡ set.now) }
{
    set.to_vec(alloc)
}

/// The sets without repeats, each where it first stands. Sets whose columns stand in another order
/// are different.
fn without_repeats(alloc: Global, sets: &[Vec<usize>]) -> Result<Vec<Vec<usize>>, AllocError>
    ensures { IfOk result (λ v. contents v.items ≡ distinct bytes_eq (contents sets.now)) }
{
    let mut found: Vec<Vec<usize>> = Vec::new(alloc);
    for set in sets {
        if !has_set(&found, set) {
            found.push(copy_set(alloc, set)?)?;
        }
    }
    Ok(found)
}

/// The sets, without repeats where they are to be distinct.
pub(crate) fn apply_distinct(
    alloc: Global,
    distinct_sets: bool,
    sets: Vec<Vec<usize>>,
) -> Result<Vec<Vec<usize>>, AllocError>
    ensures { IfOk result (λ v. contents v.items ≡ (if distinct_sets
        then distinct bytes_eq (contents sets.items) else contents sets.items)) }
{
    if distinct_sets {
        return without_repeats(alloc, &sets);
    }
    Ok(sets)
}
