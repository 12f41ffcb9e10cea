//! Keys of ORDER BY beside where rows have their values.

use crate::source::ValueSource;
use query_plan::Key;

/// A key of ORDER BY, and where rows have its value.
#[derive(Drop)]
pub(crate) struct CodedKey<'p> {
    /// The key.
    pub(crate) key: &'p Key,
    /// Where the rows of each grouping set of the plan, in their order, have its value.
    pub(crate) sources: Vec<ValueSource>,
}
