//! The truth value of a predicate, the records that WHERE keeps, and those that pass a FILTER.
#![tactic(auto)]

mod binder;
mod condition;
mod filter_clause;
mod scope;
mod where_clause;

pub use binder::bind;
pub use condition::{Condition, OperandSource};
pub use filter_clause::{bind_filters, condition_truth_at, mark_conditions};
pub use scope::Scope;
pub use where_clause::{bind_where, bound_truth};
