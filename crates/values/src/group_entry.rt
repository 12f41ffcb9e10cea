//! A group, and the states of its set functions.

use crate::value::Value;

/// The state of a set function over the members of a group that its FILTER keeps, or over all where
/// it has none.
///
/// Example: of the numbers 5 and 2 `SUM` has the state `Sum(7, 2)`, and `MAX` the state `Extreme`
/// of 5.
#[derive(Drop)]
pub enum State {
    /// Of `COUNT(*)` without FILTER: the number of members says it.
    Rows,
    /// Of `COUNT(x)`, and of `COUNT(*)` with FILTER: the count.
    Count(u64),
    /// Of `SUM` and `AVG`: the sum, and how many numbers were added.
    Sum(i128, u64),
    /// Of `MIN` and `MAX`: the value, and NULL of none.
    Extreme(Value),
    /// Of `COUNT(DISTINCT x)`: the different values, ascending, without NULL.
    Distinct(Vec<Value>),
}

/// A group of the finest grouping set: what is kept of the records of one key.
///
/// Example: of the records `'Harbour', 5` and `'Harbour', 2`, grouped by the first column and with
/// SUM of the second one, the key is `'Harbour'`, there are 2 members, and the state is
/// `Sum(7, 2)`.
#[derive(Drop)]
pub struct GroupEntry {
    /// A value for each grouping column.
    pub key: Vec<Value>,
    /// How many records are in it.
    pub members: u64,
    /// The state of each set function.
    pub states: Vec<State>,
}
