//! Why a text is no query, or a query cannot be answered under a schema.

ghost use Rattle.std.specs.Prelude.{◌≡◌};
ghost use Rattle.semantics.specs.declared.query_fault.QueryFault.TheVariants.{OutOfMemory};

use crate::text::Text;
use std::alloc::{AllocError, AllocFailed};
use thiserror::Error;

/// Why a text is no query, or a query cannot be answered under a schema. A fault is shown as the
/// text that the program writes behind its name; `docs/FAULTS.md` says of each when it comes and
/// what to do.
///
/// Example: of `SELECT COUNT(*) FROM table1` the fault is `Unexpected(21)`, which is shown as
/// `query: byte 21: unexpected`.
#[derive(Debug, Drop, Error)]
pub enum QueryFault {
    /// At this byte, from 0, no token begins.
    #[error("query: byte {0}: no token")]
    NoToken(usize),
    /// The token at this byte, from 0, does not continue a query, or the end does not: then the
    /// byte is the length of the text.
    #[error("query: byte {0}: unexpected")]
    Unexpected(usize),
    /// No column has this name, compared exactly.
    #[error("query: unknown column {}", .0.as_str())]
    UnknownColumn(Text),
    /// The types of operands, or of a function and its argument, do not agree, or a bare name in a
    /// predicate is no column of truth values.
    #[error("query: types do not agree")]
    TypesDisagree,
    /// The column of this name stands where only a grouping column may, and is none.
    #[error("query: column {} is not grouped", .0.as_str())]
    NotGrouped(Text),
    /// The query is longer, deeper or wider than a query may be: it has more than 65,536 bytes, 64
    /// items, 64 different set functions, 256 grouping sets before DISTINCT drops any, 8 columns in
    /// a GROUPING, 64 literals in an IN, 16 levels of GROUPING SETS, or 64 levels of brackets round
    /// a predicate.
    #[error("query: over a limit")]
    OverLimit,
    /// A set function or GROUPING stands where it may not: in WHERE or in a FILTER. AVG may stand
    /// in SELECT alone.
    #[error("query: function not allowed here")]
    FunctionNotAllowed,
    /// Two items have this header: the alias, or the canonical text of an item without one.
    #[error("query: header {} stands twice", .0.as_str())]
    RepeatedHeader(Text),
    /// Memory was refused. This says nothing of the query.
    #[error("out of memory")]
    OutOfMemory,
}

impl From<AllocError> for QueryFault {
    ghost from_gives = { λ _ fault. fault ≡ OutOfMemory };

    fn from(_error: AllocError) -> QueryFault {
        QueryFault::OutOfMemory
    }
}

impl<T: Drop> From<AllocFailed<T>> for QueryFault {
    ghost from_gives = { λ _ fault. fault ≡ OutOfMemory };

    fn from(_error: AllocFailed<T>) -> QueryFault {
        QueryFault::OutOfMemory
    }
}
