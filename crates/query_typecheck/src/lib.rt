//! Whether a query is typed under a schema, and which fault is its first; what a typed query is
//! resolved to.
#![tactic(auto)]

mod laws;
mod names;
mod resolution;
mod scope;
mod types;

pub use laws::{filters_law, first_fault_law, typed_law};
pub use resolution::{Resolved, check_tree, key_expression};
pub use scope::Clause;
