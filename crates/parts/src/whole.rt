//! A partial result as the text of a part.

ghost use Rattle.std.specs.Prelude.{◌≡◌, ℕ, IfOk, List};
ghost use Rattle.tables.specs.Partials.{StandsForInput};
ghost use Rattle.semantics.specs.Parts.{part_text};

use crate::checksum::with_checksum;
use crate::write::{front_text, header_of};
use part_lines::push_groups;
use query_plan::Plan;
use std::alloc::{AllocError, Global};
use tables::Partial;

/// The text of the part of an input, of which this is the result under a plan. It is given up.
///
/// Example: of the result over one line that is no JSON, under the columns `cents:int` and the
/// query `SELECT SUM(cents) AS s FROM lines`, the text has the lines `"jlreport part 1"`,
/// `"cents:int"`, `"SELECT SUM(cents) AS s FROM lines"`, `1`, `1`, `1`, `"not JSON"`, `1`, `0`,
/// `0`, `0`, and the checksum of these in quotes.
///
/// # Errors
///
/// `AllocError` where there is no memory for the text.
pub fn write_part(alloc: Global, plan: &Plan, partial: Partial) -> Result<Vec<u8>, AllocError>
    ensures { IfOk result (λ text. (input : List ℕ)
        → StandsForInput plan.now partial input
        → text.items ≡ part_text plan.now.fields plan.now.query input) }
{
    let columns = plan.schema().columns();
    let header = header_of(alloc, plan)?;
    let contents = partial.into_contents()?;
    let refused = contents.refused.as_slice();
    let groups = contents.groups.as_slice();
    let count = groups.len() as u64;
    let mut text = front_text(alloc, &header, columns, contents.lines, refused, count)?;
    push_groups(alloc, &mut text, groups)?;
    with_checksum(alloc, text)
}
