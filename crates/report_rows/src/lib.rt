//! The rows of a report on groups: those of which HAVING is True, what each shows, and the order in
//! which they stand.
//!
//! The definitions are in `specs/`: HAVING (`Having`), what a row shows for each item of SELECT
//! (`Shown`), and the order of the rows (`Order`). It knows nothing of where groups come from, nor
//! of the bytes of a report.
#![tactic(auto)]

mod arrange;
mod cells;
mod coded_key;
mod having;
mod keys;
mod laws;
mod order;
mod parts;
mod row;
mod row_scope;
mod sort_entry;
mod source;
mod telling_keys;
mod view;

pub use arrange::{arranged_rows, shown_groups};
pub use laws::{arranged_law, order_law};
pub use parts::part_len;
pub use row::ReportRow;
pub use source::{ValueSource, sources_at, sources_by_set};
pub use view::PlanView;
