//! Expressions, set functions and predicates, which hold one another: a FILTER is a predicate.

use semantics::{Aggregate, Literal, Op, Text, Truth};

/// A set function over all records of a group, or over those that its FILTER keeps,
/// ISO/IEC 9075-2 `<aggregate function>`.
///
/// Example: `COUNT(*) FILTER (WHERE cents > 5)` is `CountRows` with the filter `cents > 5`.
#[cycle(expression)]
#[derive(PartialEq, Drop)]
pub struct SetFunction {
    /// The function and its argument.
    pub aggregate: Aggregate,
    /// The predicate of FILTER, where there is one, ISO/IEC 9075-2 `<filter clause>`.
    pub filter: Option<Box<Predicate>>,
}

/// What an item, a key or an operand computes.
///
/// Example: in `SELECT shop, COUNT(*) FROM lines GROUP BY shop` the items compute a `Name` and a
/// `Function`.
#[cycle(expression)]
#[derive(PartialEq, Drop)]
pub enum Expression {
    /// A column, or in ORDER BY an alias.
    Name(Text),
    /// `GROUPING(x, y)`, by its columns, ISO/IEC 9075-2 `<grouping operation>`: a number with a
    /// binary digit for each, the last one's lowest, 0 where the row's grouping set has the column,
    /// else 1.
    Grouping(Vec<Text>),
    /// A set function, in a box, since it is several times as long as a name.
    Function(Box<SetFunction>),
}

/// An operand of a predicate.
///
/// Example: in `cents > 5` they are the expression `cents` and the literal 5.
#[cycle(expression)]
#[derive(PartialEq, Drop)]
pub enum Operand {
    /// An expression.
    Expression(Expression),
    /// A value that is written in the query.
    Literal(Literal),
}

/// A predicate, ISO/IEC 9075-2 `<search condition>`. A mark `not` says that NOT stands before
/// BETWEEN or IN, or after IS.
///
/// Example: `a AND b OR c` is `Or` of two parts: `And` of the columns `a` and `b`, and the column
/// `c`.
#[cycle(expression)]
#[derive(PartialEq, Drop)]
pub enum Predicate {
    /// `p OR q OR ..`, two parts or more.
    Or(Vec<Predicate>),
    /// `p AND q AND ..`, two parts or more.
    And(Vec<Predicate>),
    /// `NOT p`
    Not(Box<Predicate>),
    /// `p IS TRUE` and its like, which are never unknown, ISO/IEC 9075-2 `<boolean test>`.
    Is {
        /// What is tested.
        part: Box<Predicate>,
        /// Whether it is `IS NOT`.
        not: bool,
        /// The truth value that is asked for.
        truth: Truth,
    },
    /// `x = y` and its like, unknown where x or y is NULL, ISO/IEC 9075-2 `<comparison predicate>`.
    Compare {
        /// The operand on the left.
        left: Operand,
        /// The operator.
        op: Op,
        /// The operand on the right.
        right: Operand,
    },
    /// `x BETWEEN y AND z`, which is `x >= y AND x <= z`, ISO/IEC 9075-2 `<between predicate>`.
    Between {
        /// What is tested.
        operand: Operand,
        /// Whether it is `NOT BETWEEN`.
        not: bool,
        /// The lower end, included.
        low: Operand,
        /// The upper end, included.
        high: Operand,
    },
    /// `x IN (1, 2)`, which is `x = 1 OR x = 2`, ISO/IEC 9075-2 `<in predicate>`.
    In {
        /// What is tested.
        operand: Operand,
        /// Whether it is `NOT IN`.
        not: bool,
        /// The values, one or more.
        literals: Vec<Literal>,
    },
    /// `x IS NULL`, which is never unknown, ISO/IEC 9075-2 `<null predicate>`.
    IsNull {
        /// What is tested.
        operand: Operand,
        /// Whether it is `IS NOT NULL`.
        not: bool,
    },
    /// A bare name: the column of truth values itself, unknown where it is NULL.
    Column(Text),
}
