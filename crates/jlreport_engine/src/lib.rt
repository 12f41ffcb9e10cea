//! What the program does, over any reader and writers.
#![tactic(auto)]

mod explanation;
mod joins;
mod partial;
mod program;
mod runs;
mod seeds;
mod writer;

pub use joins::{join_partial, run_join};
pub use partial::run_partial;
pub use program::serve;
pub use runs::{run, run_alone};
pub use semantics::{Done, JoinFault, RunFault};
pub use writer::put;
