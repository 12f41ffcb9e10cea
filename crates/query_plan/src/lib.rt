//! A query that some text derives, and its plan under a schema: checking it, what it holds of a
//! record, its headers and the texts of its grouping sets.
#![tactic(auto)]

mod checker;
mod plan;
mod printer;
mod query;
mod truths;

pub use checker::check;
pub use plan::Plan;
pub use printer::{filter_texts, header, set_text};
pub use query::Query;
pub use query_ast::{
    Aggregate, Expression, GroupingElement, Item, Key, Literal, Operand, Predicate, SetFunction,
    Text, Tree,
};
pub use query_resolve::{ColumnFunction, FilteredFunction};
pub use query_typecheck::typed_law;
pub use semantics::QueryFault;
pub use truths::{filter_holds, holds};
