//! The values of set functions.

use values::Value;

/// The value of a set function over a group (ISO/IEC 9075-2, `<aggregate function>`).
///
/// Example: over the numbers 5 and 2, SUM is `Plain` of 7 and AVG is `Ratio(7, 2)`; over no number,
/// both are `Plain` of NULL.
#[derive(Debug, PartialEq, Eq, Drop)]
pub enum Cell {
    /// A value, NULL among them. An average is one where no number was added: NULL.
    Plain(Value),
    /// An average that is not NULL: a sum, and how many numbers were added, 1 or more. It is not
    /// reduced.
    Ratio(i128, u64),
}
