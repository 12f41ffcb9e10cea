//! The explanation of a query.

ghost use Rattle.std.specs.Prelude.{◌≡◌, IfOk, string_bytes};
ghost use Rattle.semantics.specs.Explanation.{explanation};

use query::{Plan, print, set_text};
use std::alloc::{AllocError, Global};

/// The text that explains a query: its canonical text on a line, and then a line for each of its
/// grouping sets, with the set's index and its columns.
pub(crate) fn explanation(alloc: Global, plan: &Plan) -> Result<String, AllocError>
    ensures { IfOk result (λ text. string_bytes text ≡ explanation plan.now.fields plan.now.query) }
{
    let count = plan.sets().len();
    let mut text = print(alloc, plan.query())?;
    text.push('\n')?;
    for index in 0..count {
        let set = set_text(alloc, plan, index)?;
        writeln!(text, "{index}: {set}")?;
    }
    Ok(text)
}
