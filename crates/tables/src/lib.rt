//! Partial results over pieces of an input, and the groups of the whole.
//!
//! A result is made of each piece apart, in any order and on any thread; results are merged in any
//! order, and finished.
#![tactic(auto)]

mod contents;
mod fold;
mod groups;
mod job;
mod laws;
mod merge;
mod numbers;
mod partial;
mod piece_refusals;
mod refusals;
mod roll;
mod rows;
mod shape;

pub use contents::PartialContents;
pub use group_tables::{Cell, Executor, Group, HashSeed, Parallel, Serial};
pub use groups::Groups;
pub use job::{Job, JobBy};
pub use laws::{
    contents_law, job_law, members_law, monoid_law, one_piece_law, order_law, pieces_law,
    records_law, sound_law,
};
pub use partial::Partial;
