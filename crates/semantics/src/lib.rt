//! What the program means: the definitions that its promises cite, in `specs/`, and the plain types
//! that they speak of.
//!
//! The definitions are mathematics over bytes, lists and numbers; nothing here runs but the small
//! tables of truth values. Each file of `specs/` has one subject; `specs/Lib.antt` lists them in
//! the order in which they are to be read.
#![tactic(auto)]

mod aggregate;
mod comparison;
mod ending;
mod function;
mod join_fault;
mod kind;
mod line_fault;
mod literal;
mod options;
mod parts_fault;
mod query_fault;
mod run_done;
mod run_fault;
mod schema_fault;
mod text;
mod token;
mod truth;
mod words_fault;

pub use aggregate::Aggregate;
pub use comparison::Op;
pub use ending::Ending;
pub use function::ColumnFunction;
pub use join_fault::JoinFault;
pub use kind::Kind;
pub use line_fault::{LineFault, LineRefusal};
pub use literal::Literal;
pub use options::Options;
pub use parts_fault::{PartsFault, PartsFaultKind};
pub use query_fault::QueryFault;
pub use run_done::Done;
pub use run_fault::RunFault;
pub use schema_fault::SchemaFault;
pub use text::Text;
pub use token::{Sign, Token, Word};
pub use truth::Truth;
pub use words_fault::WordsFault;
