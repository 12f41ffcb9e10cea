//! Why tokens derive no query.

ghost use Rattle.std.specs.Prelude.{◌≡◌};
ghost use Rattle.query_parser.specs.declared.fault.GrammarFault.TheVariants.{OutOfMemory};

use std::alloc::{AllocError, AllocFailed};

/// Why tokens derive no query.
///
/// Example: of the tokens of `SELECT COUNT(*) FROM table1` the fault is `Unexpected(1)`: the last
/// token is not the name `lines`.
#[derive(Drop)]
pub enum GrammarFault {
    /// A token does not continue a query: the first of the last so many tokens, or the end where it
    /// is 0.
    Unexpected(usize),
    /// There are more than 64 items, 8 arguments of GROUPING, 64 literals behind IN, 16 levels of
    /// GROUPING SETS, or 64 levels of brackets round a predicate, those of FILTER among them.
    OverLimit,
    /// There was no memory. This says nothing of the tokens.
    OutOfMemory,
}

impl From<AllocError> for GrammarFault {
    ghost from_gives = { λ _ fault. fault ≡ OutOfMemory };

    fn from(_error: AllocError) -> GrammarFault {
        GrammarFault::OutOfMemory
    }
}

impl<T: Drop> From<AllocFailed<T>> for GrammarFault {
    ghost from_gives = { λ _ fault. fault ≡ OutOfMemory };

    fn from(_error: AllocFailed<T>) -> GrammarFault {
        GrammarFault::OutOfMemory
    }
}
