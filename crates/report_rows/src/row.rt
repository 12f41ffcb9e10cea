//! A row of a report.

use group_tables::Cell;

/// A row of a report: what it shows for each item of SELECT.
///
/// Example: for `SELECT shop, COUNT(*) FROM lines GROUP BY shop` the row of the shop `'Quay'` with
/// 2 records has the cells `'Quay'` and 2.
#[derive(Drop)]
pub struct ReportRow {
    /// One cell for each item of SELECT, in their order.
    pub cells: Vec<Cell>,
}
