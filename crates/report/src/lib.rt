//! The bytes of a report, and those of the list of refused lines.
//!
//! The definitions are in `specs/`: the two texts (CSV as the crate `csv` writes it). Which rows a
//! report has, what they show and how they stand is defined in the crate `report_rows`.
#![tactic(auto)]

mod among;
mod arrangement;
mod fields;
mod parts;
mod refused_lines;
mod text;

pub use arrangement::arrange;
pub use refused_lines::{push_refused_line, refused_line_room, refused_text};
pub use report_rows::{ReportRow, arranged_law, order_law};
pub use text::{report_on, report_text};
