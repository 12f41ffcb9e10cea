//! What two partial results have the same that can be merged.

ghost use Rattle.std.specs.Prelude.{◌≡◌, IfOk, IsTrue, ◌↔◌, map, string_bytes};
ghost use Rattle.query_resolve.specs.Resolution.{contents};

use query_plan::{FilteredFunction, Plan, filter_texts};
use std::alloc::{AllocError, Global};

/// The grouping sets of a query, its different set functions, and the canonical texts of their
/// different filters.
pub(crate) struct Shape {
    pub(crate) sets: Vec<Vec<usize>>,
    pub(crate) functions: Vec<FilteredFunction>,
    pub(crate) filters: Vec<String>,
}

// A function of its own: a derived one is written out, and proved, wherever a shape is given up.
impl Drop for Shape {
    fn drop(self) {
        let Shape {
            sets,
            functions,
            filters,
        } = self;
        drop(sets);
        drop(functions);
        drop(filters);
    }
}

impl Shape {
    ghost use Rattle.semantics.specs.Sets.{sets_of};
    ghost use Rattle.query_resolve.specs.Functions.{indexed_functions};
    ghost use Rattle.tables.specs.Functions.{filter_texts};
    ghost use Rattle.tables.specs.Inside.Shapes.{AreSameShapes};

    /// The shape of a plan.
    pub(crate) fn of(alloc: Global, plan: &Plan) -> Result<Shape, AllocError>
        ensures sets { IfOk result (λ shape.
            contents shape.sets.items ≡ sets_of plan.now.fields plan.now.query) }
        ensures functions { IfOk result (λ shape.
            shape.functions.items ≡ indexed_functions plan.now.fields plan.now.query) }
        ensures filters { IfOk result (λ shape.
            map string_bytes shape.filters.items ≡ filter_texts plan.now) }
    {
        let sets = copy_sets(alloc, plan.sets())?;
        let functions = copy_functions(alloc, plan.set_functions())?;
        let filters = filter_texts(alloc, plan)?;
        Ok(Shape {
            sets,
            functions,
            filters,
        })
    }

    /// Whether two shapes are the same.
    pub(crate) fn is_same(&self, other: &Shape) -> bool
        ensures { IsTrue result ↔ AreSameShapes self.now other.now }
    {
        same_sets(self.sets.as_slice(), other.sets.as_slice())
            && same_functions(self.functions.as_slice(), other.functions.as_slice())
            && same_texts(self.filters.as_slice(), other.filters.as_slice())
    }
}

/// A copy of grouping sets.
pub(crate) fn copy_sets(alloc: Global, sets: &[Vec<usize>]) -> Result<Vec<Vec<usize>>, AllocError>
    ensures { IfOk result (λ copies. contents copies.items ≡ contents sets.now) }
{
    let mut copies = Vec::with_capacity(alloc, sets.len())?;
    for set in sets {
        copies.push(Vec::from_slice(alloc, set.as_slice())?)?;
    }
    Ok(copies)
}

/// A copy of set functions.
fn copy_functions(
    alloc: Global,
    functions: &[FilteredFunction],
) -> Result<Vec<FilteredFunction>, AllocError>
    ensures { IfOk result (λ copies. copies.items ≡ functions.now) }
{
    Vec::from_slice(alloc, functions)
}

/// Whether two lists of grouping sets have the same columns in the same order.
fn same_sets(sets: &[Vec<usize>], others: &[Vec<usize>]) -> bool
    ensures { IsTrue result ↔ (contents sets.now ≡ contents others.now) }
{
    sets == others
}

/// Whether two lists of set functions are the same.
fn same_functions(functions: &[FilteredFunction], others: &[FilteredFunction]) -> bool
    ensures { IsTrue result ↔ (functions.now ≡ others.now) }
{
    functions == others
}

/// Whether two lists of texts are the same.
fn same_texts(texts: &[String], others: &[String]) -> bool
    ensures { IsTrue result ↔ (map string_bytes texts.now ≡ map string_bytes others.now) }
{
    texts == others
}
