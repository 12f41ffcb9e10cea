//! What tables are made in.

use crate::hash::HashSeed;
use std::alloc::Global;

/// Where a table's memory comes from, and the seed by which its maps and sets are hashed.
#[derive(Clone, Copy)]
pub(crate) struct Memory {
    pub(crate) alloc: Global,
    pub(crate) seed: HashSeed,
}
