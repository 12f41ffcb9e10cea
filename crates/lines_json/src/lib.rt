//! JSON by its bytes (RFC 8259), without tokens: where a value ends that begins at a place of a
//! text, and what a string means.
//!
//! `None` says nothing of the text: whoever asks goes on by other means. But where `bool_at` or
//! `null_end` answers it, no such name stands there.
#![tactic(auto)]

mod bytes;
mod escapes;
mod numbers;
mod numerals;
mod plain;
mod strings;
mod value;
mod words;

pub use bytes::{byte_at, space_end};
pub use numbers::whole_number_at;
pub use numerals::{has_value, whole_number};
pub use plain::is_plain;
pub use strings::{plain_string_end, push_content};
pub use value::value_end;
pub use words::{bool_at, null_end};
