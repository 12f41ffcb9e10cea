//! The bytes of a report, whose rows are written by the calling thread alone or by several.

ghost use Rattle.std.specs.Prelude.{◌≡◌, ◌<◌, All, IfOk, length, map};
ghost use Rattle.group_tables.specs.GroupRows.{row_of};
ghost use Rattle.semantics.specs.Texts.{report_bytes};
ghost use Rattle.report.specs.Inside.Text.{rows_bytes};
ghost use Rattle.report.specs.Inside.Parts.{AreTextsOf};
ghost use Rattle.report_rows.specs.Sources.{cells_at};

use crate::parts::join_parts;
use crate::text::{put_groups, text_of, writer_with_headers};
use csv::WriterBuilder;
use group_tables::{Executor, Group, Operation};
use query_plan::Plan;
use report_rows::{ValueSource, part_len};
use std::alloc::{AllocError, Global};
use std::marker::Sync;
use std::thread;
use std::thread::Threads;

/// A report whose rows are to be written: those of groups in order, where the rows of each grouping
/// set have what they show from some sources.
struct WriteReport<'a> {
    alloc: Global,
    plan: &'a Plan,
    sources: &'a [Vec<ValueSource>],
    groups: &'a [&'a (usize, Group)],
}

impl<'a> Operation for WriteReport<'a> {
    ghost use Rattle.std.specs.Prelude.{◌≡◌, ◌<◌, All, IfOk, length, map};
    ghost use Rattle.group_tables.specs.GroupRows.{row_of};
    ghost use Rattle.report_rows.specs.Sources.{cells_at};
    ghost use Rattle.semantics.specs.Texts.{report_bytes};

    type Output = Result<Vec<u8>, AllocError>;

    ghost can_run = { λ t. All (λ r. (row_of r.now).0 < length t.sources.now) t.groups.now };

    ghost can_give = { λ t result. IfOk result (λ text. text.items
        ≡ report_bytes t.plan.now.query.items
        (map (λ r. cells_at t.sources.now (row_of r.now)) t.groups.now)) };

    fn run_alone(self) -> Result<Vec<u8>, AllocError> {
        let WriteReport {
            alloc,
            plan,
            sources,
            groups,
        } = self;
        write_in_turn(alloc, plan, sources, groups)
    }

    fn run_among<H: Threads + Sync>(self, rt: &H, hands: usize) -> Result<Vec<u8>, AllocError> {
        let WriteReport {
            alloc,
            plan,
            sources,
            groups,
        } = self;
        if hands == 1 {
            return write_in_turn(alloc, plan, sources, groups);
        }
        let size = part_len(groups.len(), hands);
        write_among(rt, alloc, plan, sources, groups, size)
    }
}

/// The bytes of a report with the rows of these groups, in their order; the executor writes them.
pub(crate) fn write_rows<E: Executor>(
    executor: &E,
    alloc: Global,
    plan: &Plan,
    sources: &[Vec<ValueSource>],
    groups: &[&(usize, Group)],
) -> Result<Vec<u8>, AllocError>
    requires ready { E.ready executor.now }
    requires within { All (λ r. (row_of r.now).0 < length sources.now) groups.now }
    ensures { IfOk result (λ text. text.items ≡ report_bytes plan.now.query.items
        (map (λ r. cells_at sources.now (row_of r.now)) groups.now)) }
{
    executor.perform(WriteReport {
        alloc,
        plan,
        sources,
        groups,
    })
}

/// The same, by the calling thread alone.
fn write_in_turn(
    alloc: Global,
    plan: &Plan,
    sources: &[Vec<ValueSource>],
    groups: &[&(usize, Group)],
) -> Result<Vec<u8>, AllocError>
    requires within { All (λ r. (row_of r.now).0 < length sources.now) groups.now }
    ensures { IfOk result (λ text. text.items ≡ report_bytes plan.now.query.items
        (map (λ r. cells_at sources.now (row_of r.now)) groups.now)) }
{
    let mut writer = writer_with_headers(alloc, plan)?;
    put_groups(&mut writer, alloc, sources, groups)?;
    text_of(writer)
}

/// The same, in parts of so many rows.
fn write_among<H: Threads + Sync>(
    rt: &H,
    alloc: Global,
    plan: &Plan,
    sources: &[Vec<ValueSource>],
    groups: &[&(usize, Group)],
    size: usize,
) -> Result<Vec<u8>, AllocError>
    requires size { 0 < size }
    requires within { All (λ r. (row_of r.now).0 < length sources.now) groups.now }
    ensures { IfOk result (λ text. text.items ≡ report_bytes plan.now.query.items
        (map (λ r. cells_at sources.now (row_of r.now)) groups.now)) }
{
    let texts = texts_among(rt, alloc, sources, groups, size)?;
    let text = text_of(writer_with_headers(alloc, plan)?)?;
    join_parts(text, texts)
}

/// The bytes of the rows of groups, in parts of so many rows, each by a thread of its own where one
/// can be started.
fn texts_among<H: Threads + Sync>(
    rt: &H,
    alloc: Global,
    sources: &[Vec<ValueSource>],
    groups: &[&(usize, Group)],
    size: usize,
) -> Result<Vec<Result<Vec<u8>, AllocError>>, AllocError>
    requires size { 0 < size }
    requires within { All (λ r. (row_of r.now).0 < length sources.now) groups.now }
    ensures { IfOk result (λ texts.
        AreTextsOf size (map (λ r. cells_at sources.now (row_of r.now)) groups.now) texts.items) }
{
    let texts = thread::map_chunks(
        rt,
        alloc,
        groups,
        size,
        &|_, part: &[&(usize, Group)]| -> Result<Vec<u8>, AllocError>
            requires { All (λ r. (row_of r.now).0 < length sources.now) part.now }
            ensures { IfOk result (λ text. text.items ≡ rows_bytes
                (map (λ r. cells_at sources.entry.now (row_of r.now)) part.entry.now)) }
        { rows_text(alloc, sources, part) },
    )?;
    Ok(texts)
}

/// The bytes of the rows of groups, without the row of the headers.
fn rows_text(
    alloc: Global,
    sources: &[Vec<ValueSource>],
    groups: &[&(usize, Group)],
) -> Result<Vec<u8>, AllocError>
    requires { All (λ r. (row_of r.now).0 < length sources.now) groups.now }
    ensures { IfOk result (λ text.
        text.items ≡ rows_bytes (map (λ r. cells_at sources.now (row_of r.now)) groups.now)) }
{
    let mut writer = WriterBuilder::new().from_writer(Vec::new(alloc));
    put_groups(&mut writer, alloc, sources, groups)?;
    text_of(writer)
}
