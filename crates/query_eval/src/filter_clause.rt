//! The predicates of FILTERs.

ghost use Rattle.std.specs.Prelude.{◌≡◌, ◌<◌, length, map, slice_get, true, IfOk, OnOk, Some};
ghost use Rattle.std.specs.List.{list_all};
ghost use Rattle.semantics.specs.declared.truth.Truth.TheVariants.{True};
ghost use Rattle.values.specs.Datum.{data_of};
ghost use Rattle.values.specs.Schema.{fields_of};
ghost use Rattle.query_resolve.specs.Planning.{filter_forms};
ghost use Rattle.query_eval.specs.Binding.{AreConditionsOf};
ghost use Rattle.query_eval.specs.Meaning.{condition_truth, is_safe};
ghost use Rattle.semantics.specs.Conditions.{same_truth};

use crate::binder::bind;
use crate::condition::Condition;
use crate::scope::RecordScope;
use query_ast::Predicate;
use std::alloc::{AllocError, Global};
use values::{Column, Truth, Value};

/// The conditions of the predicates of FILTERs, in their order, under these columns. Where a
/// predicate is typed as WHERE is, its condition can be evaluated for each record that fits the
/// columns.
///
/// Example: under the columns `a:bool,q:int` the predicate `a` gives
/// `Holds(OperandSource::Value(0))`.
///
/// # Errors
///
/// `AllocError` where there is no memory for them.
pub fn bind_filters(
    alloc: Global,
    columns: &[Column],
    filters: &[&Predicate],
) -> Result<Vec<Condition>, AllocError>
    ensures { IfOk result (λ conditions.
        AreConditionsOf (fields_of columns.now) (filter_forms filters.now) conditions.items) }
{
    let scope = RecordScope { columns };
    let mut conditions = Vec::with_capacity(alloc, filters.len())?;
    for filter in filters {
        conditions.push(bind(alloc, &scope, filter)?)?;
    }
    Ok(conditions)
}

/// Marks which conditions are True for a record of these values, in place of what the marks were.
/// The memory of the marks is used again. It asks of each condition what `Condition::truth` asks.
///
/// Example: of the conditions of `q > 2` and `NOT q > 2` the marks are `true` and `false` where q
/// is 5, and both are `false` where q is NULL.
///
/// # Errors
///
/// `AllocError` where there is no memory for them.
pub fn mark_conditions(
    conditions: &[Condition],
    values: &[Value],
    marks: &mut Vec<bool>,
) -> Result<(), AllocError>
    requires { list_all (λ is_safe. is_safe (data_of values.now)) (map is_safe conditions.now)
        ≡ true }
    ensures { OnOk result (marks.new.items
        ≡ map (λ c. same_truth (condition_truth c (data_of values.now)) True) conditions.now) }
{
    marks.clear();
    for condition in conditions {
        marks.push(is_true(condition.truth(values)))?;
    }
    Ok(())
}

/// What the condition at a place, from 0, is worth for a record of these values. It takes no
/// memory. It asks that the place is below the number of the conditions, and of each condition what
/// `Condition::truth` asks.
///
/// Example: of the conditions of `q > 2` and `NOT q > 2` the one at the place 1 is False where q is
/// 5.
pub fn condition_truth_at(conditions: &[Condition], place: usize, values: &[Value]) -> Truth
    requires place { place < length conditions.now }
    requires safe { list_all (λ is_safe. is_safe (data_of values.now)) (map is_safe conditions.now)
        ≡ true }
    ensures { Some result
        ≡ slice_get (map (λ c. condition_truth c (data_of values.now)) conditions.now) place }
{
    conditions[place].truth(values)
}

/// Whether a truth value is True.
fn is_true(truth: Truth) -> bool
    ensures { result ≡ same_truth truth True }
{
    match truth {
        Truth::True => true,
        Truth::Unknown | Truth::False => false,
    }
}
