//! The syntax tree of a query.
#![tactic(auto)]

mod expression;
mod group;
mod tree;

pub use expression::{Expression, Operand, Predicate, SetFunction};
pub use group::GroupingElement;
pub use semantics::{Aggregate, Literal, Text};
pub use tree::{Item, Key, Tree};
