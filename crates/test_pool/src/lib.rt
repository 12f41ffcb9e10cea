//! Tests of the pool.
#![tactic(auto)]

#[cfg(test)]
mod tests;
