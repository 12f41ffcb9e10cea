//! What the groups of a list of records are, and tables from which they are computed.
//!
//! The meaning is in `specs/`: the keys of a grouping set, the members of a key, and the value of
//! each set function over a list of records (ISO/IEC 9075-2, `<group by clause>` and
//! `<set function specification>`). A table keeps for each key an accumulator of each set function,
//! and can be merged with another one.
#![tactic(auto)]

mod accumulator;
mod accumulators;
mod cell;
mod copy;
mod distinct_values;
mod executor;
mod extreme;
mod finish;
mod group;
mod hash;
mod key;
mod key_order;
mod laws;
mod memory;
mod packed_key;
mod pairs;
mod part;
mod place;
mod plain_entries;
mod shard;
mod table;
mod total;
mod value_set;
mod walk;

pub use cell::Cell;
pub use executor::{Executor, Operation, Parallel, Serial};
pub use group::Group;
pub use hash::HashSeed;
pub use laws::{
    both_law, counted_law, entries_law, members_law, order_law, records_law, roll_law, typed_law,
};
pub use table::Table;
