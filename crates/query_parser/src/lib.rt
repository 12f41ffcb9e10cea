//! The parser of queries: it reads the tree that tokens derive.
//!
//! A reader answers what stands in front of tokens, and the tokens behind it. There are readers of
//! single tokens and of the leaves of the grammar, which hold no expression and no predicate; of
//! expressions and predicates, which hold one another; and of the clauses of whole queries.
#![tactic(auto)]

mod arguments;
mod atoms;
mod expressions;
mod fault;
mod fronts;
mod functions;
mod groups;
mod items;
mod keep;
mod keys;
mod laws;
mod lists;
mod literals;
mod operators;
mod predicates;
mod query;
mod units;

pub use fault::GrammarFault;
pub use laws::derives_one;
pub use query::read_query;
