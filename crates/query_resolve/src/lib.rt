//! What the parts of a query are resolved to under a schema: names to the places of their columns,
//! GROUP BY to grouping columns and grouping sets, and the set functions of its clauses to the
//! different ones and their different filters. Whether a query is typed is not asked here.
#![tactic(auto)]

mod columns;
mod count;
mod expansion;
mod function;
mod grouping_columns;
mod laws;
mod plan;
mod product;
mod repeats;
mod union;

pub use columns::{column_kind, place_of};
pub use count::set_count;
pub use expansion::grouping_sets;
pub use function::{FilteredFunction, column_function};
pub use grouping_columns::grouping_places;
pub use laws::{
    cross_product_law, cube_law, distinct_law, kept_law, rollup_law, same_function_law,
    same_predicate_law, shown_law,
};
pub use plan::{Planned, filters, indexed_functions, planned_functions, planned_place};
pub use semantics::ColumnFunction;
