//! The canonical text of a query.

ghost use Rattle.std.specs.Prelude.{◌≡◌, ◌≤◌, IfOk, length, string_bytes};
ghost use Rattle.semantics.specs.Canonical.{canonical_text};
ghost use Rattle.semantics.specs.Reading.{Derives};
ghost use Rattle.semantics.specs.Limits.{max_query_len};

use query_plan::Query;
use query_printer::print_tree;
use std::alloc::{AllocError, Global};

/// The canonical text of a query: keywords in capitals, one space where there is any, double quotes
/// round the names that need them, brackets only where they are needed, no ASC, and NULLS FIRST or
/// NULLS LAST only where it is not the default of its key. Where the text has at most 65,536 bytes,
/// `parse` reads it as this query again, memory aside.
///
/// Example: of `select "select", count(*) from "lines" group by "select"` it answers
/// `SELECT "select", COUNT(*) FROM lines GROUP BY "select"`.
///
/// # Errors
///
/// `AllocError` where there is no memory for the text.
pub fn print(alloc: Global, query: &Query) -> Result<String, AllocError>
    ensures text { IfOk result (λ text. string_bytes text ≡ canonical_text query.now) }
    // Where it is not too long, it derives the query again, so that `parse` gives it back.
    ensures again { IfOk result (λ text. length (string_bytes text) ≤ max_query_len
        → Derives (string_bytes text) query.now) }
{
    print_tree(alloc, query.tree())
}
