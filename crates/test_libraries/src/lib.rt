//! The calls of the libraries above `lines` at work: worked examples to the byte, each call at a
//! concrete type, with memory and with memory refused. They stand in a crate of their own, so that
//! no library is proved once more for its tests.
#![tactic(auto)]

#[cfg(test)]
mod tests;
