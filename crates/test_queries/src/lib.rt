//! Tests of the query language across its crates: texts that are read, printed and planned.
#![tactic(auto)]

#[cfg(test)]
mod tests;
