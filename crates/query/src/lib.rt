//! The query language: reading a query, its canonical text, and its plan under a schema.
//!
//! This crate is the whole public surface of the language. The crates below it have its parts: the
//! syntax tree (`query_ast`), the tokens (`query_lexer`), the grammar (`semantics` defines it;
//! `query_parser` reads it), the canonical text (`query_printer`), what its parts are resolved to
//! (`query_resolve`), typing (`query_typecheck`), the truth of predicates (`query_eval`), and
//! queries with their plans (`query_plan`).
#![tactic(auto)]

mod laws;
mod parser;
mod printer;

pub use laws::{derives_one, derives_or_refused, reads_again};
pub use parser::parse;
pub use printer::print;
pub use query_ast::{
    Aggregate, Expression, GroupingElement, Item, Key, Literal, Operand, Predicate, SetFunction,
    Text, Tree,
};
pub use query_plan::{
    Plan, Query, check, filter_holds, filter_texts, header, holds, set_text, typed_law,
};
pub use query_resolve::{ColumnFunction, FilteredFunction};
pub use semantics::QueryFault;
