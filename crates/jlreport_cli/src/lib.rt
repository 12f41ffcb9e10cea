//! The words of the command line of `jlreport`, read by `clap`.
#![tactic(auto)]

mod arguments;
mod command;
mod words;

pub use command::settings;
pub use semantics::{Options, WordsFault};
pub use words::Settings;
