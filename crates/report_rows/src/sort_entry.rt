//! Groups beside the sort keys of their rows.

use group_tables::Group;
use sort_keys::SortKey;

/// A group beside the index of its grouping set, and the sort key of its row.
#[derive(Drop)]
pub(crate) struct SortEntry<'a> {
    /// The sort key of its row.
    pub(crate) key: SortKey,
    /// The group, beside the index.
    pub(crate) found: &'a (usize, Group),
}
