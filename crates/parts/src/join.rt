//! Parts, one behind the other, read as the result of all of them.

ghost use Rattle.std.specs.Prelude.{◌≡◌, ◌+◌, ◌<◌, ℕ, IfOk, IfSome, List, OnOk, flat_map, string_bytes};
ghost use Rattle.lines.specs.Clip.{clip_lines};
ghost use Rattle.part_lines.specs.Groups.{shape_of};
ghost use Rattle.semantics.specs.Canonical.{canonical_text};
ghost use Rattle.semantics.specs.Lines.{lines};
ghost use Rattle.tables.specs.Partials.{StandsForInput};
ghost use Rattle.tables.specs.Sound.{IsSoundUnder};
ghost use Rattle.parts.specs.Inside.Faults.{GivesParts, refusal_in};
ghost use Rattle.parts.specs.Faults.{in_part};
ghost use Rattle.parts.specs.Inside.Gathering.{IsOfOnePiece, contents_in};
ghost use Rattle.parts.specs.Joining.{AnswersParts, IsNoFault};
ghost use Rattle.parts.specs.Inside.Joining.{JoinsBehind};
ghost use Rattle.semantics.specs.Joins.{CanBeJoined};
ghost use Rattle.semantics.specs.Parts.{columns_text, concatenated, part_text};
ghost use Rattle.parts.specs.ReadingParts.{part_at, shape_under, with_fault};
ghost use Rattle.parts.specs.Inside.Reader.{IsKnown, stream_of};
ghost use Rattle.semantics.specs.Limits.{input_limit};

use crate::fault::PartsRefusal;
use crate::part::next_part;
use crate::reader::PartReader;
use crate::shape::shape_over;
use crate::write::{Header, header_of};
use part_lines::{GroupShape, PartRefusal};
use query_plan::Plan;
use semantics::{PartsFault, PartsFaultKind};
use std::alloc::Global;
use std::io::Read;
use tables::{Executor, Partial, contents_law, sound_law};

/// A refusal of the part of this number.
fn refusal_in(part: u64, refusal: PartRefusal) -> PartsRefusal
    ensures { result ≡ refusal_in part refusal }
{
    match refusal {
        PartRefusal::Fault(fault) => PartsRefusal::Fault(PartsFault {
            part,
            line: fault.line,
            kind: fault.kind,
        }),
        PartRefusal::Reading => PartsRefusal::Reading,
        PartRefusal::OutOfMemory => PartsRefusal::OutOfMemory,
    }
}

/// Where a part stands among others.
#[derive(Clone, Copy)]
struct PartPlace {
    /// Its number, from 1.
    number: u64,
    /// How many lines the inputs of the parts before it have together.
    lines_before: u64,
}

/// The result that the next part is, which stands at this place.
fn next_numbered<R: Read + Drop, E: Executor>(
    alloc: Global,
    plan: &Plan,
    executor: &E,
    reader: &mut PartReader<R>,
    header: &Header,
    shape: &GroupShape,
    place: PartPlace,
) -> Result<Partial, PartsRefusal>
    requires shape { shape_of shape.now ≡ shape_under plan.now.fields plan.now.query }
    requires columns { string_bytes header.now.columns ≡ columns_text plan.now.fields }
    requires query { string_bytes header.now.query ≡ canonical_text plan.now.query }
    ensures known { IsKnown reader.old → OnOk result (IsKnown reader.new) }
    ensures onward { OnOk result (reader.old.line < reader.new.line) }
    ensures read { IsKnown reader.old
        → GivesParts (λ partial. (contents_in partial, stream_of reader.new)) result
        (with_fault (in_part place.number)
        (part_at plan.now.fields plan.now.query place.lines_before (stream_of reader.old))) }
    ensures sound { IfOk result (IsSoundUnder plan.now) }
    ensures one { IfOk result IsOfOnePiece }
    ensures few { IfOk result (λ partial. place.lines_before + partial.lines < input_limit) }
{
    match next_part(
        alloc,
        plan,
        executor,
        reader,
        header,
        shape,
        place.lines_before,
    ) {
        Ok(partial) => Ok(partial),
        Err(refusal) => Err(refusal_in(place.number, refusal)),
    }
}

/// The result of parts and of those behind them, of which this reader gives the lines. The next one
/// has the number 2.
fn join_rest<R: Read + Drop, E: Executor>(
    alloc: Global,
    plan: &Plan,
    executor: &E,
    reader: &mut PartReader<R>,
    header: &Header,
    shape: &GroupShape,
    first: Partial,
) -> Result<Partial, PartsRefusal>
    requires ready { E.ready executor.now }
    requires shape { shape_of shape.now ≡ shape_under plan.now.fields plan.now.query }
    requires columns { string_bytes header.now.columns ≡ columns_text plan.now.fields }
    requires query { string_bytes header.now.query ≡ canonical_text plan.now.query }
    requires sound { IsSoundUnder plan.now first }
    ensures sound { IfOk result (IsSoundUnder plan.now) }
    ensures joins { IsKnown reader.old
        → JoinsBehind plan.now first 2 (stream_of reader.old) result }
{
    contents_law();
    sound_law();
    let mut whole = first;
    let mut part = 2;
    while reader.has_line()? {
        let before = whole.lines();
        let place = PartPlace {
            number: part,
            lines_before: before,
        };
        let rest = next_numbered(alloc, plan, executor, reader, header, shape, place)?;
        whole = whole.follow_by(executor, rest)?;
        part += 1;
    }
    Ok(whole)
}

/// The result of a plan over all inputs whose parts stand one behind the other in what a reader
/// gives. The lines of the first input come before those of the second one, and so on. The executor
/// puts the groups of parts together; it can do so.
///
/// Example: of the parts of two shards of 3 lines each, of which the first line of the second one
/// is refused, it is the result over 6 lines, of which the fourth one is refused.
///
/// # Errors
///
/// The first fault of the parts, from the front: `NoPart` where there is no line; `NotAPart` or
/// `OtherVersion` where a part should begin and another line stands; `OtherColumns` and
/// `OtherQuery` where a part is of others than the plan; and where a line is not what should stand
/// there, `NotAValue`, `UnexpectedValue`, `OutOfOrder`, `OutOfRange`, `EndsTooEarly`,
/// `WrongChecksum` or `TooManyLines`. The parts of inputs, of which there is one at least, have
/// none of these where the inputs have fewer than 2^63 lines together, and the columns and the
/// canonical query at most 1,000,000 bytes each, as strings of JSON. `Reading` where a read fails
/// or the input has 2^63 bytes or more, `OutOfMemory` where memory runs out.
pub fn read_parts<R: Read + Drop, E: Executor>(
    alloc: Global,
    plan: &Plan,
    executor: &E,
    reader: R,
) -> Result<Partial, PartsRefusal>
    requires ready { E.ready executor.now }
    ensures sound { IfOk result (IsSoundUnder plan.now) }
    ensures answers { IfSome (R.remaining reader) (λ bytes.
        AnswersParts plan.now (lines (clip_lines bytes)) result) }
    ensures stands { IfSome (R.remaining reader) (λ bytes. (inputs : List (List ℕ))
        → bytes ≡ flat_map (part_text plan.now.fields plan.now.query) inputs
        → IfOk result (λ partial. StandsForInput plan.now partial
        (concatenated inputs))) }
    ensures takes { IfSome (R.remaining reader) (λ bytes. (inputs : List (List ℕ))
        → bytes ≡ flat_map (part_text plan.now.fields plan.now.query) inputs
        → CanBeJoined plan.now.fields plan.now.query inputs → IsNoFault result) }
{
    contents_law();
    let columns = plan.schema().columns();
    let header = header_of(alloc, plan)?;
    let shape = shape_over(alloc, columns, plan.grouping(), plan.set_functions())?;
    let mut reader = PartReader::new(alloc, reader)?;
    if !reader.has_line()? {
        return Err(PartsRefusal::Fault(PartsFault {
            part: 1,
            line: 1,
            kind: PartsFaultKind::NoPart,
        }));
    }
    let place = PartPlace {
        number: 1,
        lines_before: 0,
    };
    let first = next_numbered(alloc, plan, executor, &mut reader, &header, &shape, place)?;
    join_rest(alloc, plan, executor, &mut reader, &header, &shape, first)
}
