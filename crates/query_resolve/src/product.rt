//! A cross product of grouping sets that is being made.

ghost use Rattle.std.specs.Prelude.{◌≡◌, ◌∷◌, [], map, IfOk, OnOk};
ghost use Rattle.semantics.specs.Sets.{cross_product, ordered_set};
ghost use Rattle.query_resolve.specs.Resolution.{contents};

use crate::union::{cross_product, one_set, ordered_set, ordered_sets};
use std::alloc::{AllocError, Global};
use std::marker::Model;

/// Sets that stand for a cross product: each of `sets` joined with the columns in `common`. An
/// element of GROUP BY that is one set adds its columns to all of them, so it costs no more than to
/// write these down once.
#[derive(Drop)]
pub(crate) struct Product {
    sets: Vec<Vec<usize>>,
    common: Vec<usize>,
}

impl Model for Product {
    ghost use Rattle.std.specs.Prelude.{ℕ, List, ◌∷◌, []};
    ghost use Rattle.semantics.specs.Sets.{cross_product};
    ghost use Rattle.query_resolve.specs.Resolution.{contents};

    ghost Value = { List (List ℕ) };

    ghost view = { λ p. cross_product (contents p.sets.items) (p.common.items ∷ []) };
}

impl Product {
    ghost use Rattle.std.specs.Prelude.{◌≡◌, ◌∷◌, ℕ, List, [], map, IfOk, OnOk};
    ghost use Rattle.semantics.specs.Sets.{cross_product, ordered_set};
    ghost use Rattle.query_resolve.specs.Resolution.{contents};

    /// The product of nothing: the one empty set.
    pub(crate) fn new(alloc: Global) -> Result<Product, AllocError>
        ensures { IfOk result (λ product. product ≡ [] ∷ []) }
    {
        Ok(Product {
            sets: one_set(alloc, Vec::new(alloc))?,
            common: Vec::new(alloc),
        })
    }

    /// Crosses the product with more sets, the product varying slowest. In the order of any
    /// columns, the sets are then those of the cross product.
    pub(crate) fn cross(&mut self, alloc: Global, sets: &[Vec<usize>]) -> Result<(), AllocError>
        ensures { OnOk result ((grouping : List ℕ) → map (ordered_set grouping) self.new
            ≡ map (ordered_set grouping) (cross_product self.old (contents sets.now))) }
    {
        if let [set] = sets {
            self.common.extend_from_slice(set)?;
        } else {
            self.sets = cross_product(alloc, &self.sets, sets)?;
        }
        Ok(())
    }

    /// The sets in the order of the grouping columns, each column once in each.
    pub(crate) fn sets_in_order(
        &self,
        alloc: Global,
        grouping: &[usize],
    ) -> Result<Vec<Vec<usize>>, AllocError>
        ensures { IfOk result (λ v. contents v.items ≡ map (ordered_set grouping.now) self.now) }
    {
        let common = ordered_set(alloc, grouping, &self.common)?;
        let sets = cross_product(alloc, &self.sets, &one_set(alloc, common)?)?;
        ordered_sets(alloc, grouping, &sets)
    }
}
