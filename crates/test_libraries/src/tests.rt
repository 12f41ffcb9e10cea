//! A module for each library.

mod groups;
mod reports;
mod resolution;
