//! The tokens of the query language: how a text spells them, and a reader of them.
#![tactic(auto)]

mod fault;
mod laws;
mod names;
mod numbers;
mod quotes;
mod read;
mod signs;
mod words;

pub use fault::TokenFault;
pub use laws::{spells_one, spells_or_stops};
pub use names::{is_plain_name, push_name, push_quoted};
pub use read::{Tokens, read_tokens};
pub use semantics::{Sign, Token, Word};
pub use words::reserved_word;
