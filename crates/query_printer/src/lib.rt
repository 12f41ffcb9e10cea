//! The canonical text of a query, the headers of its items, and the texts of grouping sets.
#![tactic(auto)]

mod clauses;
mod groups;
mod leaves;
mod lists;
mod predicates;

pub use clauses::{header, print_tree, set_text};
pub use predicates::predicate_text;
