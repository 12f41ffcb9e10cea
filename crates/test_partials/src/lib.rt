//! Tests of partial results: merged in several orders, and held to a plain reference.
#![tactic(auto)]

#[cfg(test)]
mod tests;
