//! A module for each subject.

mod contents;
mod follow;
mod merge;
mod partials;
mod reference;
mod roll;
