//! Truth values, values and how they compare, types, schemas and records; and what is kept of a
//! group.
//!
//! A value is what a column of a line holds: a truth value, a whole number, a text, or NULL. This
//! crate says how two values stand to each other (ISO/IEC 9075-2), what a schema text means, and
//! which records fit a schema. The definitions that its contracts cite are in `specs/`.
//!
//! What is kept of a group is here as plain values, apart from how a table keeps it: a partial
//! aggregate that can leave the table that made it, so that it can be written, read again, and put
//! into another table.
#![tactic(auto)]

mod comparison;
mod group_entry;
mod part;
mod record;
mod schema;
mod value;

pub use comparison::compare;
pub use group_entry::{GroupEntry, State};
pub use record::Record;
pub use schema::{Column, Schema};
pub use semantics::{Kind, Op, SchemaFault, Truth};
pub use value::Value;
