//! What a partial result contains, as plain values.

use lines::LineFault;
use values::GroupEntry;

/// What a partial result contains, apart from the query that it is of.
///
/// Example: under `SELECT shop, SUM(cents) FROM lines GROUP BY shop`, over the lines
/// `{"shop":"Quay","cents":250}` and `[]`, there are 2 lines, the refused line 2, and one group:
/// the key `'Quay'` with 1 member and the state `Sum(250, 1)`.
#[derive(Drop)]
pub struct PartialContents {
    /// The number of all lines, refused ones among them.
    pub lines: u64,
    /// The refused lines, each by its number in the input, from 1, with its fault.
    pub refused: Vec<(u64, LineFault)>,
    /// The groups under all grouping columns, by ascending keys.
    pub groups: Vec<GroupEntry>,
}
