//! A module for each subject.

mod joins;
mod memory;
mod outputs;
mod results;
mod rounds;
mod runs;
mod serve;
mod streams;
mod words;
