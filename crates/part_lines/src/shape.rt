//! The shape of the groups of a part.

use semantics::Kind;

/// Which state a set function has, and of which type its column is where the state has values of
/// it.
///
/// Example: for a column of texts `MIN` has the kind `Extreme(Kind::Text)`, and `SUM` of whole
/// numbers the kind `Sum`.
#[derive(Clone, Copy, PartialEq, Eq)]
pub enum StateKind {
    /// Nothing, which no line stands for: `values::State::Rows`.
    Rows,
    /// A count: `values::State::Count`.
    Count,
    /// A sum, and how many numbers were added: `values::State::Sum`.
    Sum,
    /// The least or the greatest value of a column of this type: `values::State::Extreme`.
    Extreme(Kind),
    /// The different values of a column of this type: `values::State::Distinct`.
    Distinct(Kind),
}

/// What a query asks of the groups of a part.
///
/// Example: of `SELECT shop, SUM(cents) AS s FROM lines GROUP BY shop`, `shop` being a column of
/// texts, there is one column, of the type `Text`, and one state, of the kind `Sum`.
#[derive(Drop)]
pub struct GroupShape {
    /// The type of each grouping column, in the order of the values of a key.
    pub columns: Vec<Kind>,
    /// The kind of the state of each set function, in the order of the states of a group.
    pub states: Vec<StateKind>,
}
