//! A part, from its mark to its checksum.

ghost use Rattle.std.specs.Prelude.{◌≡◌, ◌+◌, ◌<◌, IfOk, OnOk, string_bytes};
ghost use Rattle.part_lines.specs.Groups.{shape_of};
ghost use Rattle.semantics.specs.Canonical.{canonical_text};
ghost use Rattle.tables.specs.Sound.{IsSoundUnder};
ghost use Rattle.part_lines.specs.Reading.{Gives};
ghost use Rattle.parts.specs.Inside.Gathering.{IsOfOnePiece, contents_in};
ghost use Rattle.semantics.specs.Parts.{columns_text};
ghost use Rattle.parts.specs.ReadingParts.{part_at, shape_under};
ghost use Rattle.semantics.specs.Limits.{input_limit};

use crate::checksum::next_checksum;
use crate::contents::next_contents;
use crate::gather::Gathering;
use crate::header::next_header;
use crate::write::Header;
use part_lines::{GroupShape, PartRefusal, ValueReader};
use query_plan::Plan;
use std::alloc::Global;
use tables::{Executor, Partial};

/// The result that the next part is, which is one of a plan, whose first lines and groups are so,
/// and has fewer than 2^63 lines with those before it.
#[tactic(auto, unfolding(crate::specs::ReadingParts::part_at))]
pub(crate) fn next_part<S: ValueReader, E: Executor>(
    alloc: Global,
    plan: &Plan,
    executor: &E,
    source: &mut S,
    header: &Header,
    shape: &GroupShape,
    before: u64,
) -> Result<Partial, PartRefusal>
    requires shape { shape_of shape.now ≡ shape_under plan.now.fields plan.now.query }
    requires columns { string_bytes header.now.columns ≡ columns_text plan.now.fields }
    requires query { string_bytes header.now.query ≡ canonical_text plan.now.query }
    ensures known { S.known source.old → OnOk result (S.known source.new) }
    ensures onward { OnOk result ((S.stream source.old).place < (S.stream source.new).place) }
    ensures read { S.known source.old
        → Gives (λ partial. (contents_in partial, S.stream source.new)) result
        (part_at plan.now.fields plan.now.query before (S.stream source.old)) }
    ensures sound { IfOk result (IsSoundUnder plan.now) }
    ensures one { IfOk result IsOfOnePiece }
    ensures few { IfOk result (λ partial. before + partial.lines < input_limit) }
{
    next_header(
        alloc,
        source,
        header.columns.as_str(),
        header.query.as_str(),
    )?;
    let so_far = next_contents(alloc, plan, executor, source, header, shape, before)?;
    let Gathering {
        partial,
        hasher,
        ..
    } = so_far.closed(plan)?;
    next_checksum(alloc, source, hasher)?;
    Ok(partial)
}
