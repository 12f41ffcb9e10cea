//! Sort keys: strings of bytes that stand to each other as rows do, so that a sort compares bytes
//! and no values.
//!
//! The *code* of a value is a string of bytes, and the order of codes, byte by byte, is the order
//! of values. Under a key of ORDER BY the code says too whether it descends and where NULL stands.
//! No code is the beginning of another one, so codes one after the other stand as the values do one
//! after the other. A `SortKey` is such a string as a sort has it at hand. What the codes are is in
//! `specs/`, `Codes`.
#![tactic(auto)]

mod code;
mod decode;
mod laws;
mod sort_key;
mod split;

pub use code::{put_index, put_key_value, put_value, put_values};
pub use decode::values_of;
pub use laws::{codes_law, parts_law};
pub use sort_key::SortKey;
pub use split::split_code;
