//! Tests of whole runs, over readers and writers of their own, and of the words that ask for them.
#![tactic(auto)]

#[cfg(test)]
mod tests;
