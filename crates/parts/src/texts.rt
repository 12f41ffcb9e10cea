//! Texts of a part, read one by one.

ghost use Rattle.std.specs.Prelude.{◌≡◌, ◌≤◌, IfOk, OnOk, option_map, string_bytes};
ghost use Rattle.part_lines.specs.Reading.{Gives};
ghost use Rattle.parts.specs.ReadingParts.{other_at, other_text, text_at};

use crate::shown::shown;
use part_lines::{PartRefusal, ValueReader, fault_at};
use semantics::PartsFaultKind;
use std::alloc::{AllocError, Global};
use values::Value;

/// The next value, which is a text.
#[tactic(auto, unfolding(crate::specs::ReadingParts::text_at))]
pub(crate) fn next_text<S: ValueReader>(source: &mut S) -> Result<String, PartRefusal>
    ensures known { S.known source.old → OnOk result (S.known source.new) }
    ensures onward { OnOk result ((S.stream source.old).place ≤ (S.stream source.new).place) }
    ensures read { S.known source.old
        → Gives (λ text. (string_bytes text, S.stream source.new)) result
        (text_at (S.stream source.old)) }
{
    match source.next()? {
        Value::Text(text) => Ok(text),
        Value::Bool(_) | Value::Int(_) | Value::Null => {
            Err(fault_at(source, PartsFaultKind::UnexpectedValue))
        }
    }
}

/// The next value, which is a text: nothing where it is this one, and else how a message shows it.
#[tactic(auto, unfolding(crate::specs::ReadingParts::other_at))]
pub(crate) fn next_other<S: ValueReader>(
    alloc: Global,
    source: &mut S,
    wanted: &str,
) -> Result<Option<String>, PartRefusal>
    ensures known { S.known source.old → OnOk result (S.known source.new) }
    ensures onward { OnOk result ((S.stream source.old).place ≤ (S.stream source.new).place) }
    ensures read { S.known source.old
        → Gives (λ other. (option_map string_bytes other, S.stream source.new)) result
        (other_at wanted.now (S.stream source.old)) }
{
    let text = next_text(source)?;
    let other = other_text(alloc, text.as_str(), wanted)?;
    Ok(other)
}

/// Nothing where a text is this one, and else how a message shows it.
fn other_text(alloc: Global, text: &str, wanted: &str) -> Result<Option<String>, AllocError>
    ensures { IfOk result (λ other. option_map string_bytes other
        ≡ other_text wanted.now text.now) }
{
    if text == wanted {
        return Ok(None);
    }
    Ok(Some(shown(alloc, text)?))
}
