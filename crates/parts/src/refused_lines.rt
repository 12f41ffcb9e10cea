//! The refused lines of a part.

ghost use Rattle.std.specs.Prelude.{◌≡◌, ◌≤◌, All, IfOk, OnOk, length};
ghost use Rattle.values.specs.Schema.{fields_of};
ghost use Rattle.part_lines.specs.Reading.{Gives};
ghost use Rattle.parts.specs.ReadingParts.{all_refused_at, refused_at, refused_line_at};

use crate::line_faults::fault_named;
use crate::texts::next_text;
use lines::LineFault;
use part_lines::{PartRefusal, ValueReader, check, fault_at, next_count_within};
use semantics::PartsFaultKind;
use std::alloc::Global;
use values::Column;

/// The next refused line: its number, above the last one and not above that of the lines, and its
/// fault.
#[tactic(auto, unfolding(crate::specs::ReadingParts::refused_line_at))]
fn next_refused_line<S: ValueReader>(
    source: &mut S,
    columns: &[Column],
    lines: u64,
    last: u64,
) -> Result<(u64, LineFault), PartRefusal>
    ensures known { S.known source.old → OnOk result (S.known source.new) }
    ensures onward { OnOk result ((S.stream source.old).place ≤ (S.stream source.new).place) }
    ensures read { S.known source.old → Gives (λ line. (line, S.stream source.new)) result
        (refused_line_at (fields_of columns.now) lines last (S.stream source.old)) }
    ensures within { IfOk result (λ line. line.0 ≤ lines) }
{
    let number = next_count_within(source, lines)?;
    check(source, last < number, PartsFaultKind::OutOfOrder)?;
    let text = next_text(source)?;
    match fault_named(columns, text.as_str()) {
        Some(fault) => Ok((number, fault)),
        None => Err(fault_at(source, PartsFaultKind::UnexpectedValue)),
    }
}

/// The next refused lines, as many as are asked for. No memory is taken for a count before its
/// lines have come.
fn next_refused_lines<S: ValueReader>(
    alloc: Global,
    source: &mut S,
    columns: &[Column],
    lines: u64,
    count: u64,
) -> Result<Vec<(u64, LineFault)>, PartRefusal>
    ensures known { S.known source.old → OnOk result (S.known source.new) }
    ensures onward { OnOk result ((S.stream source.old).place ≤ (S.stream source.new).place) }
    ensures read { S.known source.old → Gives (λ refused. (refused.items, S.stream source.new))
        result (refused_at (fields_of columns.now) lines count 0 (S.stream source.old)) }
    ensures count { IfOk result (λ refused. length refused.items ≡ count) }
    ensures within { IfOk result (λ refused. All (λ line. line.0 ≤ lines) refused.items) }
{
    let mut refused = Vec::new(alloc);
    let mut last = 0;
    for _ in 0..count {
        let line = next_refused_line(source, columns, lines, last)?;
        last = line.0;
        refused.push(line)?;
    }
    Ok(refused)
}

/// The refused lines behind their number, which is not above that of the lines.
#[tactic(auto, unfolding(crate::specs::ReadingParts::all_refused_at))]
pub(crate) fn next_refused<S: ValueReader>(
    alloc: Global,
    source: &mut S,
    columns: &[Column],
    lines: u64,
) -> Result<Vec<(u64, LineFault)>, PartRefusal>
    ensures known { S.known source.old → OnOk result (S.known source.new) }
    ensures onward { OnOk result ((S.stream source.old).place ≤ (S.stream source.new).place) }
    ensures read { S.known source.old → Gives (λ refused. (refused.items, S.stream source.new))
        result (all_refused_at (fields_of columns.now) lines (S.stream source.old)) }
    ensures fewer { IfOk result (λ refused. length refused.items ≤ lines) }
    ensures within { IfOk result (λ refused. All (λ line. line.0 ≤ lines) refused.items) }
{
    let count = next_count_within(source, lines)?;
    next_refused_lines(alloc, source, columns, lines, count)
}
