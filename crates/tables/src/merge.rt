//! Two tables, put together.

ghost use Rattle.std.specs.Prelude.{◌≡◌, ◌⊎◌, IfOk};
ghost use Rattle.group_tables.specs.Table.{CanJoin, both_tables};

use group_tables::{Executor, Table};
use std::alloc::AllocError;

/// The table of the records of two, which are under one grouping set and for the same set
/// functions. The executor moves the groups of the one that has fewer.
///
/// Where both have a group of one key, the two have fewer than 2^63 members together, and are for
/// as many functions.
pub(crate) fn merge_tables<E: Executor>(
    executor: &E,
    first: Table,
    second: Table,
) -> Result<Table, AllocError>
    requires ready { E.ready executor.now }
    requires mergeable { CanJoin first second }
    ensures merged { IfOk result (λ table. table ≡ both_tables first second) }
{
    let (mut larger, smaller) = put_larger_first(first, second);
    larger.absorb(executor, smaller)?;
    Ok(larger)
}

/// Both tables, the one that has more groups first. The other one's groups are to move into it.
fn put_larger_first(first: Table, second: Table) -> (Table, Table)
    ensures { (result ≡ (first, second)) ⊎ (result ≡ (second, first)) }
{
    if first.len() < second.len() {
        (second, first)
    } else {
        (first, second)
    }
}
