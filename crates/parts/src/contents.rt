//! The contents of a part: its lines, the refused ones of them, and its groups.

ghost use Rattle.std.specs.Prelude.{◌≡◌, ◌+◌, ◌-◌, ◌<◌, ◌≤◌, All, IfOk, None, OnOk, [], length, string_bytes};
ghost use Rattle.part_lines.specs.Groups.{shape_of};
ghost use Rattle.semantics.specs.Parts.{text_of, columns_text, values_with};
ghost use Rattle.semantics.specs.Canonical.{canonical_text};
ghost use Rattle.tables.specs.Contents.{HasRefusals, groups_in};
ghost use Rattle.part_lines.specs.Reading.{Gives};
ghost use Rattle.parts.specs.Inside.Hashing.{HoldsText};
ghost use Rattle.parts.specs.Inside.Gathering.{IsGathering, IsOfOnePiece, contents_of};
ghost use Rattle.parts.specs.ReadingParts.{can_have, contents_at, group_count_at, lines_at, shape_under};
ghost use Rattle.semantics.specs.Limits.{input_limit};

use crate::checksum::TextHasher;
use crate::gather::Gathering;
use crate::groups::next_groups;
use crate::refused_lines::next_refused;
use crate::write::{Header, front_text};
use lines::LineFault;
use part_lines::{GroupShape, PartRefusal, ValueReader, check, next_count};
use query_plan::Plan;
use semantics::{Kind, PartsFaultKind};
use std::alloc::{AllocError, Global};
use tables::{Executor, Partial};

/// The number that all lines together stay below.
const LINES_LIMIT: u128 = 0x8000_0000_0000_0000;

/// How many lines there are: with those before fewer than 2^63.
#[tactic(auto, unfolding(crate::specs::ReadingParts::lines_at))]
fn next_lines<S: ValueReader>(source: &mut S, before: u64) -> Result<u64, PartRefusal>
    ensures known { S.known source.old → OnOk result (S.known source.new) }
    ensures onward { OnOk result ((S.stream source.old).place ≤ (S.stream source.new).place) }
    ensures read { S.known source.old → Gives (λ n. (n, S.stream source.new)) result
        (lines_at before (S.stream source.old)) }
    ensures few { IfOk result (λ n. before + n < input_limit) }
{
    let lines = next_count(source)?;
    check(
        source,
        u128::from(before) + u128::from(lines) < LINES_LIMIT,
        PartsFaultKind::TooManyLines,
    )?;
    Ok(lines)
}

/// Whether there can be so many groups: without grouping columns there is exactly one.
fn can_have(columns: &[Kind], count: u64) -> bool
    ensures { result ≡ can_have columns.now count }
{
    !columns.is_empty() || count == 1
}

/// How many groups there are.
#[tactic(auto, unfolding(crate::specs::ReadingParts::group_count_at))]
fn next_group_count<S: ValueReader>(source: &mut S, shape: &GroupShape) -> Result<u64, PartRefusal>
    ensures known { S.known source.old → OnOk result (S.known source.new) }
    ensures onward { OnOk result ((S.stream source.old).place ≤ (S.stream source.new).place) }
    ensures read { S.known source.old → Gives (λ n. (n, S.stream source.new)) result
        (group_count_at (shape_of shape.now) (S.stream source.old)) }
{
    let count = next_count(source)?;
    check(
        source,
        can_have(shape.columns.as_slice(), count),
        PartsFaultKind::OutOfRange,
    )?;
    Ok(count)
}

/// Before the first group of a part, of which this text was read.
fn before_groups<E: Executor>(
    alloc: Global,
    plan: &Plan,
    executor: &E,
    text: &[u8],
    lines: u64,
    refused: Vec<(u64, LineFault)>,
) -> Result<Gathering, AllocError>
    requires few { lines < input_limit }
    requires fewer { length refused.items ≤ lines }
    requires numbered { All (λ line. line.0 ≤ lines) refused.items }
    ensures gathering { IfOk result (IsGathering plan.now) }
    ensures none { IfOk result (λ start. start.last ≡ None) }
    ensures groups { IfOk result (λ start. groups_in start.partial ≡ []) }
    ensures left { IfOk result (λ start. start.left ≡ lines - length refused.items) }
    ensures hashed { IfOk result (λ start. HoldsText start.hasher text.now) }
    ensures refusals { IfOk result (λ start. HasRefusals lines refused.items start.partial) }
{
    let left = lines - refused.len() as u64;
    let partial = Partial::without_groups(alloc, plan, executor, lines, refused)?;
    Ok(Gathering {
        partial,
        last: None,
        hasher: TextHasher::of_text(alloc, text),
        left,
    })
}

/// The contents of a part of a plan, whose first lines, texts of its groups and grouping columns
/// are these, and which has fewer than 2^63 lines with those before it.
#[tactic(auto, unfolding(crate::specs::ReadingParts::contents_at))]
pub(crate) fn next_contents<S: ValueReader, E: Executor>(
    alloc: Global,
    plan: &Plan,
    executor: &E,
    source: &mut S,
    header: &Header,
    shape: &GroupShape,
    before: u64,
) -> Result<Gathering, PartRefusal>
    requires shape { shape_of shape.now ≡ shape_under plan.now.fields plan.now.query }
    requires columns { string_bytes header.now.columns ≡ columns_text plan.now.fields }
    requires query { string_bytes header.now.query ≡ canonical_text plan.now.query }
    ensures known { S.known source.old → OnOk result (S.known source.new) }
    ensures onward { OnOk result ((S.stream source.old).place ≤ (S.stream source.new).place) }
    ensures read { S.known source.old
        → Gives (λ so_far. (contents_of so_far, S.stream source.new)) result
        (contents_at plan.now.fields plan.now.query before (S.stream source.old)) }
    ensures gathering { IfOk result (IsGathering plan.now) }
    ensures hashed { IfOk result (λ so_far. HoldsText so_far.hasher
        (text_of (values_with plan.now.fields plan.now.query (contents_of so_far)))) }
    ensures one { IfOk result (λ so_far. IsOfOnePiece so_far.partial) }
    ensures few { IfOk result (λ so_far. before + so_far.partial.lines < input_limit) }
{
    let columns = plan.schema().columns();
    let lines = next_lines(source, before)?;
    let refused = next_refused(alloc, source, columns, lines)?;
    let count = next_group_count(source, shape)?;
    let text = front_text(alloc, header, columns, lines, refused.as_slice(), count)?;
    let start = before_groups(alloc, plan, executor, text.as_slice(), lines, refused)?;
    next_groups(alloc, plan, source, shape, start, count)
}
