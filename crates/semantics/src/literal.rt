//! Literals.

use crate::text::Text;

/// A value that is written in the query, ISO/IEC 9075-2 `<literal>`.
///
/// Example: `'it''s'` is the text `it's`.
#[derive(PartialEq, Drop)]
pub enum Literal {
    /// A whole number of 64 bits, from -2^63 to 2^63-1.
    Integer(i64),
    /// A text, without its quotes, a doubled quote being one.
    Text(Text),
    /// `TRUE` or `FALSE`.
    Truth(bool),
}
