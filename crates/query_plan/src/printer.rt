//! The texts of a plan.

ghost use Rattle.std.specs.Prelude.{◌≡◌, ◌<◌, IfOk, Some, length, map, option_map, slice_get, string_bytes};
ghost use Rattle.semantics.specs.Sets.{sets_of};
ghost use Rattle.query_resolve.specs.Functions.{filters_of};
ghost use Rattle.query_resolve.specs.Planning.{filter_forms};
ghost use Rattle.semantics.specs.Canonical.{header_text, predicate_text, set_text};

use crate::plan::Plan;
use query_ast::Predicate;
use query_printer::predicate_text;
use query_resolve::filters;
use std::alloc::{AllocError, Global};

/// The header of an item of SELECT, counted from 0: its alias, or its canonical text where it has
/// none. It asks that there is such an item.
///
/// Example: of `SELECT shop, count(*) AS n, sum(cents) FROM lines GROUP BY shop` the headers are
/// `shop`, `n` and `SUM(cents)`.
///
/// # Errors
///
/// `AllocError` where there is no memory for the text.
pub fn header(alloc: Global, plan: &Plan, item: usize) -> Result<String, AllocError>
    requires { item < length plan.now.query.items }
    ensures text { IfOk result (λ text.
        Some (string_bytes text) ≡ option_map header_text (slice_get plan.now.query.items item)) }
{
    let items = plan.query().tree().items.as_slice();
    query_printer::header(alloc, &items[item])
}

/// The text `(c1, c2)` of a grouping set, counted from 0 among those of the plan: its columns in
/// the order in which GROUP BY first names them. It asks that there is such a set.
///
/// Example: of `GROUP BY CUBE (d, r)` the texts of the sets are `(d, r)`, `(d)`, `(r)` and `()`.
///
/// # Errors
///
/// `AllocError` where there is no memory for the text.
pub fn set_text(alloc: Global, plan: &Plan, set: usize) -> Result<String, AllocError>
    requires { set < length (sets_of plan.now.fields plan.now.query) }
    ensures text { IfOk result (λ text. Some (string_bytes text)
        ≡ option_map (set_text plan.now.fields)
        (slice_get (sets_of plan.now.fields plan.now.query) set)) }
{
    query_printer::set_text(alloc, plan.schema(), &plan.sets()[set])
}

/// The canonical texts of predicates.
fn predicate_texts(alloc: Global, predicates: &[&Predicate]) -> Result<Vec<String>, AllocError>
    ensures { IfOk result (λ texts.
        map string_bytes texts.items ≡ map predicate_text (filter_forms predicates.now)) }
{
    let mut texts = Vec::with_capacity(alloc, predicates.len())?;
    for predicate in predicates {
        texts.push(predicate_text(alloc, predicate)?)?;
    }
    Ok(texts)
}

/// The canonical texts of the different filters, in the order in which they first stand in SELECT,
/// HAVING and ORDER BY.
///
/// Example: of `SELECT COUNT(*), COUNT(*) FILTER (where (q > 2)) FROM lines` it answers the one
/// text `q > 2`.
///
/// # Errors
///
/// `AllocError` where there is no memory for the texts.
pub fn filter_texts(alloc: Global, plan: &Plan) -> Result<Vec<String>, AllocError>
    ensures texts { IfOk result (λ texts. map string_bytes texts.items
        ≡ map predicate_text (filters_of plan.now.fields plan.now.query)) }
{
    let filters = filters(alloc, plan.schema().columns(), plan.query().tree())?;
    predicate_texts(alloc, &filters)
}
