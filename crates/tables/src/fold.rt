//! Reading the lines of a piece.

ghost use Rattle.std.specs.Prelude.{◌≡◌, ◌≤◌, [], All, List, IfOk, length};
ghost use Rattle.semantics.specs.Lines.{lines};
ghost use Rattle.semantics.specs.Groups as groups;
ghost use Rattle.tables.specs.Inside.Folding.{HasRead, HasRoomUnder, IsTableOfKept};
ghost use Rattle.tables.specs.Folding.{refused_lines_of};

use crate::refusals::Refusals;
use group_tables::{Executor, Table};
use lines::{Line, LineRefusal, RecordReader, checked_lines_of};
use query_plan::{Plan, holds};
use std::alloc::{AllocError, Global};
use values::{Record, Truth};

/// The lines of a piece, as far as they have been read.
#[derive(Drop)]
pub(crate) struct Folding {
    /// The table of the valid records that are kept, by all grouping columns.
    pub(crate) table: Table,
    /// The number of lines.
    pub(crate) lines: u64,
    /// The number of the refused ones.
    pub(crate) refused: u64,
    /// These by their numbers, from 1.
    pub(crate) refusals: Refusals,
    /// Of the record that was kept last, which filters of the query keep it. It is written over for
    /// each.
    marks: Vec<bool>,
}

impl Folding {
    ghost use Rattle.std.specs.Prelude.{◌≡◌, [], ◌∷◌, ◌++◌, ℕ, List, OnOk};
    ghost use Rattle.semantics.specs.Records.{Fits};
    ghost use Rattle.semantics.specs.Groups as groups;
    ghost use Rattle.lines.specs.Checked.{line_bytes};
    ghost use Rattle.tables.specs.Inside.Folding.{HasRead, IsTableOfKept, ReadsOneMoreUnder, TakesRecordUnder};

    /// No line has been read behind the records that a table has.
    fn begin(alloc: Global, table: Table) -> Folding
        ensures table { result.table ≡ table }
        ensures lines { result.lines ≡ 0 }
        ensures refused { result.refused ≡ 0 }
        ensures refusals { result.refusals ≡ [] }
    {
        Folding {
            table,
            lines: 0,
            refused: 0,
            refusals: Refusals::new(alloc),
            marks: Vec::new(alloc),
        }
    }

    /// Reads one more line. After an error what has been read is of no use.
    fn read(
        &mut self,
        reader: &mut RecordReader,
        plan: &Plan,
        line: Line<'_>,
    ) -> Result<(), AllocError>
        requires { ReadsOneMoreUnder plan.now self.old }
        ensures { OnOk result ((before : List groups.Record) (seen : List (List ℕ))
            → HasRead plan.now before self.old seen
            → HasRead plan.now before self.new (seen ++ line_bytes line.entry ∷ [])) }
    {
        match reader.read_line(plan.schema(), line) {
            Ok(taken) => {
                self.take(plan, &taken)?;
                reader.give_back(taken);
            }
            Err(LineRefusal::Fault(fault)) => {
                self.refusals.push(self.lines + 1, fault)?;
                self.refused += 1;
            }
            Err(LineRefusal::Memory) => return Err(AllocError),
        }
        self.lines += 1;
        Ok(())
    }

    /// Takes one more record into the table, where it is kept.
    fn take(&mut self, plan: &Plan, taken: &Record) -> Result<(), AllocError>
        requires fits { Fits plan.now.fields taken.now }
        requires room { TakesRecordUnder plan.now self.old }
        ensures table { OnOk result ((rows : List groups.Record) → IsTableOfKept plan.now self.old.table rows
            → IsTableOfKept plan.now self.new.table (rows ++ taken.now ∷ [])) }
        ensures lines { self.new.lines ≡ self.old.lines }
        ensures refused { self.new.refused ≡ self.old.refused }
        ensures refusals { self.new.refusals ≡ self.old.refusals }
    {
        if holds(plan, taken).is(Truth::True) {
            plan.mark_filters(taken, &mut self.marks)?;
            self.table.add(
                plan.grouping(),
                plan.set_functions(),
                taken.values(),
                self.marks.as_slice(),
            )?;
        }
        Ok(())
    }
}

/// The table of no records of a plan, laid out so that the executor is fast in merging others into
/// it.
pub(crate) fn empty_table<E: Executor>(
    alloc: Global,
    plan: &Plan,
    executor: &E,
) -> Result<Table, AllocError>
    ensures { IfOk result (λ table. IsTableOfKept plan.now table []) }
{
    let (seed, hands) = (executor.seed(), executor.hands());
    Table::new(alloc, seed, hands, plan.grouping(), plan.set_functions())
}

/// The table of no records of a plan, to which the executor puts those of one piece.
pub(crate) fn piece_table<E: Executor>(
    alloc: Global,
    plan: &Plan,
    executor: &E,
) -> Result<Table, AllocError>
    ensures { IfOk result (λ table. IsTableOfKept plan.now table []) }
{
    let seed = executor.seed();
    Table::new(alloc, seed, 1, plan.grouping(), plan.set_functions())
}

/// Reads the lines of a piece behind the records that a table has.
pub(crate) fn read_onto(
    alloc: Global,
    plan: &Plan,
    table: Table,
    piece: &[u8],
) -> Result<Folding, AllocError>
    requires { HasRoomUnder plan.now table (length (lines piece.now)) }
    ensures read { IfOk result (λ folding. (before : List groups.Record) → IsTableOfKept plan.now table before
        → HasRead plan.now before folding (lines piece.now)) }
    ensures lines { IfOk result (λ folding. folding.lines ≡ length (lines piece.now)) }
    ensures refused { IfOk result (λ folding.
        folding.refused ≡ length (refused_lines_of plan.now.fields (lines piece.now))) }
    ensures numbered { IfOk result (λ folding.
        All (λ line. line.0 ≤ folding.lines) folding.refusals) }
{
    let mut folding = Folding::begin(alloc, table);
    let mut reader = RecordReader::new(alloc);
    for line in checked_lines_of(piece) {
        folding.read(&mut reader, plan, line)?;
    }
    Ok(folding)
}
