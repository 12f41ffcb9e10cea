//! A whole query.

use crate::expression::{Expression, Predicate};
use crate::group::GroupingElement;
use semantics::Text;

/// An item of SELECT, ISO/IEC 9075-2 `<derived column>`.
///
/// Example: `COUNT(*) AS events` is a set function with the alias `events`.
#[derive(Drop)]
pub struct Item {
    /// What the item computes.
    pub expression: Expression,
    /// The name after AS, where there is one, ISO/IEC 9075-2 `<as clause>`.
    pub alias: Option<Text>,
}

/// A key of ORDER BY, ISO/IEC 9075-2 `<sort specification>`, with the defaults resolved.
///
/// Example: `cents DESC` descends, with NULL first; `cents` alone ascends, with NULL last.
#[derive(Drop)]
pub struct Key {
    /// What the key computes.
    pub expression: Expression,
    /// Whether it is DESC, ISO/IEC 9075-2 `<ordering specification>`.
    pub descending: bool,
    /// Whether NULL comes first, under DESC too, ISO/IEC 9075-2 `<null ordering>`.
    pub nulls_first: bool,
}

/// The tree of a query, ISO/IEC 9075-2 `<query specification>` with its `<order by clause>`.
///
/// Example: `SELECT COUNT(*) FROM lines WHERE member` has one item and a WHERE; it has no element
/// of GROUP BY, no HAVING and no key.
#[derive(Drop)]
pub struct Tree {
    /// The items of SELECT, one or more, ISO/IEC 9075-2 `<select list>`.
    pub items: Vec<Item>,
    /// The predicate of WHERE, where there is one, ISO/IEC 9075-2 `<where clause>`.
    pub where_condition: Option<Predicate>,
    /// Whether GROUP BY DISTINCT is written, ISO/IEC 9075-2 `<group by clause>` with its
    /// `<set quantifier>`: of grouping sets with the same columns only the first counts.
    pub distinct_sets: bool,
    /// The elements of GROUP BY, none where it is not written.
    pub groups: Vec<GroupingElement>,
    /// The predicate of HAVING, where there is one, ISO/IEC 9075-2 `<having clause>`.
    pub having_condition: Option<Predicate>,
    /// The keys of ORDER BY, none where it is not written, ISO/IEC 9075-2
    /// `<sort specification list>`.
    pub keys: Vec<Key>,
}
