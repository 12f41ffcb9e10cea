//! The predicate of WHERE, which may not be written.

ghost use Rattle.std.specs.Prelude.{◌≡◌, IfOk, true};
ghost use Rattle.std.specs.Option.{option_map};
ghost use Rattle.values.specs.Datum.{data_of};
ghost use Rattle.values.specs.Schema.{fields_of};
ghost use Rattle.query_ast.specs.Syntax.{predicate_form};
ghost use Rattle.query_eval.specs.Binding.{IsConditionOf, bound_safe, bound_truth};

use crate::binder::bind;
use crate::condition::Condition;
use crate::scope::RecordScope;
use query_ast::Predicate;
use std::alloc::{AllocError, Global};
use values::{Column, Truth, Value};

/// The condition of the predicate of WHERE under these columns, where it is written. Where the
/// predicate is typed, the condition can be evaluated for each record that fits the columns.
///
/// Example: without WHERE it answers `None`; of `WHERE a` under the columns `a:bool,q:int` it
/// answers `Some` of `Holds(OperandSource::Value(0))`.
///
/// # Errors
///
/// `AllocError` where there is no memory for it.
pub fn bind_where(
    alloc: Global,
    columns: &[Column],
    where_condition: &Option<Predicate>,
) -> Result<Option<Condition>, AllocError>
    ensures { IfOk result
        (IsConditionOf (fields_of columns.now) (option_map predicate_form where_condition.now)) }
{
    match where_condition {
        Some(predicate) => Ok(Some(bind(alloc, &RecordScope { columns }, predicate)?)),
        None => Ok(None),
    }
}

/// What the condition of WHERE is worth for a record of these values; without it, True. It takes no
/// memory. It asks of the condition what `Condition::truth` asks.
///
/// Example: the condition of `WHERE q > 2` is True where q is 5, and Unknown where q is NULL.
pub fn bound_truth(condition: &Option<Condition>, values: &[Value]) -> Truth
    requires { bound_safe condition.now (data_of values.now) ≡ true }
    ensures { result ≡ bound_truth condition.now (data_of values.now) }
{
    match condition {
        Some(condition) => condition.truth(values),
        None => Truth::True,
    }
}
