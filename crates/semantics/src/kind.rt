//! The types of columns.

/// The type of a column. A column of each type may also hold NULL.
///
/// Example: the schema text `shop:text,cents:int` has a column of the type `Text` and one of `Int`.
#[derive(Clone, Copy, Debug, PartialEq, Eq, Hash)]
pub enum Kind {
    /// `int`: whole numbers from -2^63 to 2^63-1.
    Int,
    /// `text`: texts, of any length.
    Text,
    /// `bool`: truth values.
    Bool,
}
