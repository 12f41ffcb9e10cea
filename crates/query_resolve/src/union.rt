//! Sets of places of columns, joined.

ghost use Rattle.std.specs.Prelude.{◌≡◌, ◌++◌, ◌∷◌, [], filter, map, IfOk};
ghost use Rattle.semantics.specs.Sets.{cross_product, cube_sets, ordered_set, rollup_sets};
ghost use Rattle.query_resolve.specs.Resolution.{contents};

use std::alloc::{AllocError, Global};

/// One list behind another.
fn both(alloc: Global, first: &[usize], second: &[usize]) -> Result<Vec<usize>, AllocError>
    ensures { IfOk result (λ v. v.items ≡ first.now ++ second.now) }
{
    let mut all = first.to_vec(alloc)?;
    all.extend_from_slice(second)?;
    Ok(all)
}

/// The unit in front of each set.
fn prefix_sets(
    alloc: Global,
    unit: &[usize],
    sets: &[Vec<usize>],
) -> Result<Vec<Vec<usize>>, AllocError>
    ensures { IfOk result (λ v. contents v.items ≡ map (λ s. unit.now ++ s) (contents sets.now)) }
{
    let mut all = Vec::new(alloc);
    for set in sets {
        all.push(both(alloc, unit, set)?)?;
    }
    Ok(all)
}

/// Each set of the first list joined with each of the second, the first varying slowest.
pub(crate) fn cross_product(
    alloc: Global,
    firsts: &[Vec<usize>],
    seconds: &[Vec<usize>],
) -> Result<Vec<Vec<usize>>, AllocError>
    ensures { IfOk result (λ v.
        contents v.items ≡ cross_product (contents firsts.now) (contents seconds.now)) }
{
    let mut sets = Vec::new(alloc);
    for first in firsts {
        let mut joined = prefix_sets(alloc, first, seconds)?;
        sets.append(&mut joined)?;
    }
    Ok(sets)
}

/// The list of one set.
pub(crate) fn one_set(alloc: Global, set: Vec<usize>) -> Result<Vec<Vec<usize>>, AllocError>
    ensures { IfOk result (λ v. contents v.items ≡ set.items ∷ []) }
{
    let mut sets = Vec::new(alloc);
    sets.push(set)?;
    Ok(sets)
}

/// The sets, and the empty one behind them.
#[tactic(auto, using(std::proofs::lemmas::List::map_push))]
fn with_empty(alloc: Global, mut sets: Vec<Vec<usize>>) -> Result<Vec<Vec<usize>>, AllocError>
    ensures { IfOk result (λ v. contents v.items ≡ contents sets.items ++ ([] ∷ [])) }
{
    sets.push(Vec::new(alloc))?;
    Ok(sets)
}

/// The sets of the first n units, of the first n-1, and so on to the empty set.
pub(crate) fn rollup(alloc: Global, units: &[Vec<usize>]) -> Result<Vec<Vec<usize>>, AllocError>
    ensures { IfOk result (λ v. contents v.items ≡ rollup_sets (contents units.now)) }
{
    match units {
        [] => one_set(alloc, Vec::new(alloc)),
        [first, others @ ..] => {
            let below = rollup(alloc, others)?;
            with_empty(alloc, prefix_sets(alloc, first, &below)?)
        }
    }
}

/// The sets of all subsets of the units: those with the first unit, then those without it.
pub(crate) fn cube(alloc: Global, units: &[Vec<usize>]) -> Result<Vec<Vec<usize>>, AllocError>
    ensures { IfOk result (λ v. contents v.items ≡ cube_sets (contents units.now)) }
{
    match units {
        [] => one_set(alloc, Vec::new(alloc)),
        [first, others @ ..] => {
            let mut below = cube(alloc, others)?;
            let mut sets = prefix_sets(alloc, first, &below)?;
            sets.append(&mut below)?;
            Ok(sets)
        }
    }
}

/// A set in the order of the grouping columns, each column once.
pub(crate) fn ordered_set(
    alloc: Global,
    grouping: &[usize],
    places: &[usize],
) -> Result<Vec<usize>, AllocError>
    ensures { IfOk result (λ v. v.items ≡ ordered_set grouping.now places.now) }
{
    grouping
        .iter()
        .copied()
        .filter(|place| places.contains(place))
        .collect(alloc)
}

/// Sets in the order of the grouping columns, each column once in each.
pub(crate) fn ordered_sets(
    alloc: Global,
    grouping: &[usize],
    sets: &[Vec<usize>],
) -> Result<Vec<Vec<usize>>, AllocError>
    ensures { IfOk result (λ v.
        contents v.items ≡ map (ordered_set grouping.now) (contents sets.now)) }
{
    let mut all = Vec::new(alloc);
    for set in sets {
        all.push(ordered_set(alloc, grouping, set)?)?;
    }
    Ok(all)
}
