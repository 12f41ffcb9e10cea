//! The result of a query over an input that is read in rounds, by one thread or by several.
#![tactic(auto)]

mod fault;
mod pieces;
mod round;
mod rounds;

pub use fault::GatherFault;
pub use rounds::{gather, gather_alone};
