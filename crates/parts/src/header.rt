//! The first lines of a part.

ghost use Rattle.std.specs.Prelude.{◌≡◌, ◌<◌, ◌≤◌, IfOk, OnOk};
ghost use Rattle.std.specs.Char.{is_ascii_digit};
ghost use Rattle.std.specs.List.{list_all};
ghost use Rattle.semantics.specs.Values as semantics;
ghost use Rattle.part_lines.specs.Faults.{kind_of, other_columns, other_query};
ghost use Rattle.part_lines.specs.Reading.{Gives};
ghost use Rattle.parts.specs.Inside.Faults.{refusal_of_mark};
ghost use Rattle.parts.specs.ReadingParts.{behind_front, has_leading_zero, header_of, is_version, kind_of_mark, mark_at, mark_in, said_at};
ghost use Rattle.parts.specs.Inside.Texts.{IsBehind};

use crate::shown::shortened;
use crate::texts::next_other;
use part_lines::{PartFault, PartRefusal, ValueReader, fault_at};
use semantics::PartsFaultKind;
use std::alloc::{AllocError, Global};
use values::Value;

/// The mark of a part, with its version.
pub(crate) const MARK: &str = "jlreport part 1";

/// What stands in a mark before its version.
const MARK_FRONT: &str = "jlreport part ";

/// What is left of a text behind a front, where it has that.
pub(crate) fn behind_front<'a>(front: &str, text: &'a str) -> Option<&'a str>
    ensures { IsBehind (behind_front front.now text.entry.now) result }
{
    text.strip_prefix(front)
}

/// Whether a text is a whole number: of one digit or more, and without a leading zero.
fn is_version(text: &str) -> bool
    ensures { result ≡ is_version text.now }
{
    !text.is_empty() && are_digits(text.as_bytes()) && !has_leading_zero(text.as_bytes())
}

/// Whether bytes begin with a 0 that has more behind it.
fn has_leading_zero(bytes: &[u8]) -> bool
    ensures { result ≡ has_leading_zero bytes.now }
{
    bytes.starts_with(b"0") && bytes.len() > 1
}

/// Whether all bytes are digits.
fn are_digits(bytes: &[u8]) -> bool
    ensures { result ≡ list_all is_ascii_digit bytes.now }
{
    bytes.iter().all(|byte| byte.is_ascii_digit())
}

/// What is wrong with another text than the mark: it is the mark of another version, or of no part.
fn kind_of_mark(alloc: Global, text: &str) -> Result<PartsFaultKind, AllocError>
    ensures { IfOk result (λ kind. kind_of kind ≡ kind_of_mark text.now) }
{
    let Some(version) = behind_front(MARK_FRONT, text) else {
        return Ok(PartsFaultKind::NotAPart);
    };
    if !is_version(version) {
        return Ok(PartsFaultKind::NotAPart);
    }
    Ok(PartsFaultKind::OtherVersion(shortened(alloc, version)?))
}

/// Nothing where a text is the mark, and else what is wrong with it.
fn check_mark<S: ValueReader>(alloc: Global, source: &S, text: &str) -> Result<(), PartRefusal>
    ensures { S.known source.now
        → Gives (λ _. tt) result (mark_in (semantics.text text.now) (S.stream source.now)) }
{
    if text == MARK {
        return Ok(());
    }
    Err(fault_at(source, kind_of_mark(alloc, text)?))
}

/// A refusal at the mark: where its line is no value, it is the line of no part.
fn refusal_of_mark(refusal: PartRefusal) -> PartRefusal
    ensures { result ≡ refusal_of_mark refusal }
{
    match refusal {
        PartRefusal::Fault(fault) => PartRefusal::Fault(PartFault {
            line: fault.line,
            kind: PartsFaultKind::NotAPart,
        }),
        PartRefusal::Reading => PartRefusal::Reading,
        PartRefusal::OutOfMemory => PartRefusal::OutOfMemory,
    }
}

/// The mark.
#[tactic(auto, unfolding(crate::specs::ReadingParts::mark_at))]
fn next_mark<S: ValueReader>(alloc: Global, source: &mut S) -> Result<(), PartRefusal>
    ensures known { S.known source.old → OnOk result (S.known source.new) }
    ensures onward { OnOk result ((S.stream source.old).place < (S.stream source.new).place) }
    ensures read { S.known source.old → Gives (λ _. (tt, S.stream source.new)) result
        (mark_at (S.stream source.old)) }
{
    match source.next() {
        Ok(Value::Text(text)) => check_mark(alloc, source, text.as_str()),
        Ok(Value::Bool(_) | Value::Int(_) | Value::Null) => {
            Err(fault_at(source, PartsFaultKind::NotAPart))
        }
        Err(refusal) => Err(refusal_of_mark(refusal)),
    }
}

/// The columns, whose text has to be this one.
#[tactic(auto, unfolding(crate::specs::ReadingParts::said_at))]
fn next_columns<S: ValueReader>(
    alloc: Global,
    source: &mut S,
    columns: &str,
) -> Result<(), PartRefusal>
    ensures known { S.known source.old → OnOk result (S.known source.new) }
    ensures onward { OnOk result ((S.stream source.old).place ≤ (S.stream source.new).place) }
    ensures read { S.known source.old → Gives (λ _. (tt, S.stream source.new)) result
        (said_at columns.now other_columns (S.stream source.old)) }
{
    match next_other(alloc, source, columns)? {
        None => Ok(()),
        Some(line) => Err(fault_at(source, PartsFaultKind::OtherColumns(line))),
    }
}

/// The query, whose text has to be this one.
#[tactic(auto, unfolding(crate::specs::ReadingParts::said_at))]
fn next_query<S: ValueReader>(alloc: Global, source: &mut S, query: &str) -> Result<(), PartRefusal>
    ensures known { S.known source.old → OnOk result (S.known source.new) }
    ensures onward { OnOk result ((S.stream source.old).place ≤ (S.stream source.new).place) }
    ensures read { S.known source.old → Gives (λ _. (tt, S.stream source.new)) result
        (said_at query.now other_query (S.stream source.old)) }
{
    match next_other(alloc, source, query)? {
        None => Ok(()),
        Some(line) => Err(fault_at(source, PartsFaultKind::OtherQuery(line))),
    }
}

/// The first lines of a part: its mark, and its columns and its query, whose texts have to be
/// these.
#[tactic(auto, unfolding(crate::specs::ReadingParts::header_of))]
pub(crate) fn next_header<S: ValueReader>(
    alloc: Global,
    source: &mut S,
    columns: &str,
    query: &str,
) -> Result<(), PartRefusal>
    ensures known { S.known source.old → OnOk result (S.known source.new) }
    ensures onward { OnOk result ((S.stream source.old).place < (S.stream source.new).place) }
    ensures read { S.known source.old → Gives (λ _. (tt, S.stream source.new)) result
        (header_of columns.now query.now (S.stream source.old)) }
{
    next_mark(alloc, source)?;
    next_columns(alloc, source, columns)?;
    next_query(alloc, source, query)
}
