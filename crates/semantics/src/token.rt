//! Tokens.

use crate::text::Text;

/// A reserved word, which is never a name unless it stands in double quotes. It may be spelled in
/// any ASCII case.
///
/// Example: `select`, `Select` and `SELECT` are one word, `Select`.
#[derive(Clone, Copy, PartialEq, Eq)]
pub enum Word {
    /// `AND`, between predicates and between the ends of BETWEEN.
    And,
    /// `AS`, before the alias of an item.
    As,
    /// `ASC`, behind a key of ORDER BY that ascends.
    Asc,
    /// `AVG`, a set function.
    Avg,
    /// `BETWEEN`, before the two ends of a range.
    Between,
    /// `BY`, behind GROUP and ORDER.
    By,
    /// `COUNT`, a set function.
    Count,
    /// `CUBE`, before the units of an element of GROUP BY.
    Cube,
    /// `DESC`, behind a key of ORDER BY that descends.
    Desc,
    /// `DISTINCT`, in COUNT and behind GROUP BY.
    Distinct,
    /// `FALSE`, a truth value.
    False,
    /// `FILTER`, behind a set function.
    Filter,
    /// `FIRST`, behind NULLS.
    First,
    /// `FROM`, before the name of the table.
    From,
    /// `GROUP`, before BY.
    Group,
    /// `GROUPING`, before columns in brackets, and before SETS.
    Grouping,
    /// `HAVING`, before the predicate of rows.
    Having,
    /// `IN`, before literals in brackets.
    In,
    /// `IS`, before NULL and before a truth value that is asked for.
    Is,
    /// `LAST`, behind NULLS.
    Last,
    /// `MAX`, a set function.
    Max,
    /// `MIN`, a set function.
    Min,
    /// `NOT`, before a predicate, BETWEEN and IN, and behind IS.
    Not,
    /// `NULL`, behind IS and IS NOT.
    Null,
    /// `NULLS`, before FIRST and LAST.
    Nulls,
    /// `OR`, between predicates.
    Or,
    /// `ORDER`, before BY.
    Order,
    /// `ROLLUP`, before the units of an element of GROUP BY.
    Rollup,
    /// `SELECT`, before the items.
    Select,
    /// `SETS`, behind GROUPING.
    Sets,
    /// `SUM`, a set function.
    Sum,
    /// `TRUE`, a truth value.
    True,
    /// `UNKNOWN`, a truth value, behind IS and IS NOT.
    Unknown,
    /// `WHERE`, before the predicate of records, that of FILTER too.
    Where,
}

/// A sign, of one character or two.
///
/// Example: `<=` is the one sign `LessOrEqual`, and `< =` is two, `Less` and `Equal`.
#[derive(Clone, Copy, PartialEq, Eq)]
pub enum Sign {
    /// `(`
    Open,
    /// `)`
    Close,
    /// `,`
    Comma,
    /// `*`
    Star,
    /// `=`
    Equal,
    /// `<>`
    NotEqual,
    /// `<`
    Less,
    /// `<=`
    LessOrEqual,
    /// `>`
    Greater,
    /// `>=`
    GreaterOrEqual,
}

/// A token: what a query is made of, but for the white space between them.
///
/// Example: `cents >= 5` is a name, a sign and a whole number.
#[derive(Drop)]
pub enum Token {
    /// A reserved word, in any ASCII case.
    Word(Word),
    /// A sign.
    Sign(Sign),
    /// A name: a word that is not reserved, or a quoted name without its double quotes, a doubled
    /// one being one.
    Name(Text),
    /// A whole number of 64 bits, from -2^63 to 2^63-1.
    Integer(i64),
    /// A text without its single quotes, a doubled one being one.
    Text(Text),
}
