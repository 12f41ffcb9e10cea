//! The lines of a part: values as lines of JSON (RFC 8259), groups as the values of a part, and
//! both back.
//!
//! A value is one of JSON's primitive types: a string, a whole number, `true`, `false` or `null`.
//! Each has one spelling, and no line feed or other control character is in it, so the texts of
//! several values stand one behind the other, each on a line of its own.
//!
//! A part has its values on lines, each as a JSON text. What reads groups knows no byte of it: a
//! [`ValueReader`] gives one value after the other, and each reader answers what is read of the
//! lines, a thing or the first fault. What is read may be from anyone, so its types, its order and
//! its ranges are checked where the values come.
#![tactic(auto)]

mod checks;
mod fault;
mod laws;
mod line_values;
mod numbers;
mod reader;
mod shape;
mod source;
mod states;
mod strings;
mod writer;

pub use checks::{check, fault_at};
pub use fault::{PartFault, PartRefusal};
pub use json::Scratch;
pub use laws::{groups_law, text_law};
pub use line_values::read_value;
pub use numbers::{next_count, next_count_within};
pub use reader::next_group;
pub use shape::{GroupShape, StateKind};
pub use source::ValueReader;
pub use writer::{push_group, push_groups, push_value};
