//! Parts: partial results as texts, and back.
//!
//! A part is the partial result of a query over an input, as a text that can be kept in a file, or
//! sent to another machine. The parts of several inputs, one behind the other, are read as the
//! partial result of all of them.
#![tactic(auto)]

mod checksum;
mod columns;
mod contents;
mod fault;
mod gather;
mod groups;
mod header;
mod join;
mod laws;
mod line_faults;
mod part;
mod put_group;
mod reader;
mod refused_lines;
mod shape;
mod shown;
mod texts;
mod whole;
mod write;

pub use fault::PartsRefusal;
pub use join::read_parts;
pub use laws::parts_law;
pub use semantics::{PartsFault, PartsFaultKind};
pub use whole::write_part;
