//! Operators of comparisons.

/// An operator of a comparison: `=`, `<>`, `<`, `<=`, `>`, `>=` (ISO/IEC 9075-2,
/// `<comparison predicate>`).
///
/// Example: of 2 on the left and 2 on the right `Le` holds, and `Lt` does not.
#[derive(Clone, Copy, Debug, PartialEq, Eq, Hash)]
pub enum Op {
    /// `=`: both are equal.
    Eq,
    /// `<>`: they are not equal.
    Ne,
    /// `<`: the left one is less.
    Lt,
    /// `<=`: the left one is less, or both are equal.
    Le,
    /// `>`: the left one is greater.
    Gt,
    /// `>=`: the left one is greater, or both are equal.
    Ge,
}
