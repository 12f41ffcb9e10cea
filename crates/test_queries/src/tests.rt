//! A module for each subject.

mod counts;
mod plans;
mod queries;
