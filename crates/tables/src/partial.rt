//! Partial results: what is known of some pieces of an input.

ghost use Rattle.std.specs.Prelude.{◌≡◌, ◌<◌, ◌≤◌, ◌∷◌, [], All, IfOk, length};
ghost use Rattle.tables.specs.declared.piece_refusals.PieceRefusals.{PieceRefusals};
ghost use Rattle.std.proofs.Props.{props};
ghost use Rattle.tables.specs.Notes.{IsWellNumbered, line_count, notes_in};
ghost use Rattle.tables.specs.Partials.{notes_of_one};
ghost use Rattle.group_tables.specs.Table.{IsCounted};
ghost use Rattle.semantics.specs.Limits.{input_limit};

use crate::contents::PartialContents;
use crate::fold::{Folding, empty_table, piece_table, read_onto};
use crate::groups::Groups;
use crate::laws::members_law;
use crate::merge::merge_tables;
use crate::numbers::{gather, gather_behind, number};
use crate::piece_refusals::PieceRefusals;
use crate::refusals::Refusals;
use crate::rows::rows_of;
use crate::shape::Shape;
use group_tables::{Executor, Group, Serial, Table, entries_law, roll_law};
use lines::LineFault;
use query_plan::Plan;
use std::alloc::{AllocError, Global};
use std::marker::Model;
use values::GroupEntry;

/// The result of a query over some pieces of an input: the groups of their valid records that are
/// kept, the counts of their lines, and their refused lines.
///
/// Partial results of all pieces, merged in any order, give the result of the whole input.
///
/// Example: an input is cut behind its third line, and a result made of each of the two pieces,
/// with the indexes 0 and 1; merged either way round and finished, they give the groups and the
/// refused lines of the input.
pub struct Partial {
    alloc: Global,
    shape: Shape,
    table: Table,
    lines: u64,
    refused: u64,
    notes: Vec<PieceRefusals>,
    ghost few: { lines < input_limit },
    ghost fewer: { refused ≤ lines },
    ghost within: { IsCounted lines shape.functions.items table } by { Prim.hlevel props },
    ghost counted: { line_count (notes_in notes) ≡ lines },
    ghost numbered: { All IsWellNumbered (notes_in notes) } by { Prim.hlevel props },
}

// A function of its own: a derived one is written out, and proved, wherever a result is given up.
impl Drop for Partial {
    fn drop(self) {
        let Partial {
            alloc: _,
            shape,
            table,
            lines: _,
            refused: _,
            notes,
        } = self;
        drop(shape);
        drop(table);
        drop(notes);
    }
}

impl Model for Partial {
    ghost use Rattle.std.specs.Coded.{codes};
    ghost use Rattle.std.specs.Prelude.{map, string_bytes};
    ghost use Rattle.semantics.specs.contracts.line_fault.LineFault as line_fault;
    ghost use Rattle.query_resolve.specs.contracts.function.FilteredFunction as filtered_function;
    ghost use Rattle.query_resolve.specs.Resolution.{contents};
    ghost use Rattle.group_tables.specs.Table.{coded_contents};
    ghost use Rattle.semantics.specs.Lists.{sorted_by};
    ghost use Rattle.tables.specs.Notes.{note_order, notes_in};
    ghost use Rattle.tables.specs.States.{PartialState};

    ghost Value = { PartialState };

    ghost coded = { Prim.hlevel
        (codes, coded_contents, filtered_function.the_row.coded, line_fault.the_row.coded) };

    ghost view = { λ p. record {
      sets = contents p.shape.sets.items;
      functions = p.shape.functions.items;
      filters = map string_bytes p.shape.filters.items;
      table = p.table;
      lines = p.lines;
      refused = p.refused;
      notes = sorted_by note_order (notes_in p.notes);
    } };
}

impl Partial {
    ghost use Rattle.std.specs.Prelude.{[], ◌∷◌, ◌+◌, ◌↔◌, ℕ, List, IfOk, OnOk, IsTrue};
    ghost use Rattle.semantics.specs.Lines.{lines};
    ghost use Rattle.semantics.specs.Groups.{Key, Record};
    ghost use Rattle.tables.specs.Partials.{DiffersInNotes, HasOwnIndexes, HaveOneShape, IsPartialOf, StandsFor, StandsForInput, as_one, both, concatenation, none, of_piece};
    ghost use Rattle.tables.specs.Planned.{AreGroupingColumns, GivesGroupsOfSet, HasMembersOfFiner, IsFinishOf};
    ghost use Rattle.values.specs.GroupStates.{entry_of};
    ghost use Rattle.query_plan.specs.Planned.{PlannedQuery};
    ghost use Rattle.group_tables.specs.Entries.{IsBehind, IsEntryFor};
    ghost use Rattle.tables.specs.Contents.{DiffersInGroups, HasGroupBehind, HasMembersWithin, HasRefusals, HasRoomFor, IsTypedEntryUnder, contents_of, groups_in};
    ghost use Rattle.semantics.specs.Parts.{contents_over};
    ghost use Rattle.tables.specs.Sound.{IsSoundUnder};
    ghost use Rattle.values.specs.Datum.{data_of};
    ghost use Rattle.tables.specs.Pieces.{IndexedPiece, all_lines, records_of, refused_lines_within};

    /// The result over no pieces, so of no lines: merged with another one of the plan, it adds
    /// nothing to that.
    ///
    /// Example: `lines()` and `refused()` of `Partial::empty(alloc, &plan)?` are 0.
    ///
    /// # Errors
    ///
    /// `AllocError` where there is no memory for it.
    pub fn empty(alloc: Global, plan: &Plan) -> Result<Partial, AllocError>
        ensures { IfOk result (λ partial. partial ≡ none plan.now) }
    {
        Partial::empty_by(alloc, plan, &Serial)
    }

    /// What `empty` gives, laid out so that the executor is fast in merging other results into it.
    ///
    /// Example: `Partial::empty_by(alloc, &plan, &Parallel { rt: &rt, workers: 4, seed })?` stands
    /// for no pieces, as `Partial::empty(alloc, &plan)?` does.
    ///
    /// # Errors
    ///
    /// `AllocError` where there is no memory for it.
    pub fn empty_by<E: Executor>(
        alloc: Global,
        plan: &Plan,
        executor: &E,
    ) -> Result<Partial, AllocError>
        ensures { IfOk result (λ partial. partial ≡ none plan.now) }
    {
        let shape = Shape::of(alloc, plan)?;
        let table = empty_table(alloc, plan, executor)?;
        Ok(Partial {
            alloc,
            shape,
            table,
            lines: 0,
            refused: 0,
            notes: Vec::new(alloc),
        })
    }

    /// The result over one piece, which has this index among the pieces of its input, and these
    /// bytes, fewer than 2^63. Pieces of an input are parted just behind line feeds: what a piece
    /// has behind its last one is a line of its own.
    ///
    /// Example: under the column `q:int`, the piece of the lines `{"q":1}` and `[]`, each ended by
    /// a line feed, gives a result whose `lines()` is 2 and whose `refused()` is 1.
    ///
    /// # Errors
    ///
    /// `AllocError` where there is no memory for it.
    pub fn fold_piece(
        alloc: Global,
        plan: &Plan,
        index: u32,
        piece: &[u8],
    ) -> Result<Partial, AllocError>
        requires { length piece.now < input_limit }
        ensures { IfOk result (λ partial.
            partial ≡ of_piece plan.now (record { index = index; bytes = piece.now })) }
    {
        Partial::fold_piece_by(alloc, plan, &Serial, index, piece)
    }

    /// What `fold_piece` gives, in a table of the executor.
    ///
    /// Example: `Partial::fold_piece_by(alloc, &plan, &Serial, 0, piece)?` is
    /// `Partial::fold_piece(alloc, &plan, 0, piece)?`.
    ///
    /// # Errors
    ///
    /// `AllocError` where there is no memory for it.
    pub fn fold_piece_by<E: Executor>(
        alloc: Global,
        plan: &Plan,
        executor: &E,
        index: u32,
        piece: &[u8],
    ) -> Result<Partial, AllocError>
        requires { length piece.now < input_limit }
        ensures { IfOk result (λ partial.
            partial ≡ of_piece plan.now (record { index = index; bytes = piece.now })) }
    {
        let shape = Shape::of(alloc, plan)?;
        let empty = piece_table(alloc, plan, executor)?;
        let Folding {
            table,
            lines,
            refused,
            refusals,
            ..
        } = read_onto(alloc, plan, empty, piece)?;
        let notes = one_note(
            alloc,
            PieceRefusals {
                index,
                lines,
                refused: refusals,
            },
        )?;
        Ok(Partial {
            alloc,
            shape,
            table,
            lines,
            refused,
            notes,
        })
    }

    /// The result over the pieces of this one and one piece more, which has this index among the
    /// pieces of its input. Its records go into the table that is there.
    ///
    /// This is a result of the plan, over some pieces, and has fewer than 2^63 lines together with
    /// the piece.
    ///
    /// Example: `partial.fold_onto(&plan, 1, piece)?` stands for the same pieces as `partial`
    /// merged with `Partial::fold_piece(alloc, &plan, 1, piece)?`.
    ///
    /// # Errors
    ///
    /// `AllocError` where there is no memory for it; what was there is given up then.
    pub fn fold_onto(self, plan: &Plan, index: u32, piece: &[u8]) -> Result<Partial, AllocError>
        requires of_plan { IsPartialOf plan.now self }
        requires few { self.lines + length (lines piece.now) < input_limit }
        ensures { IfOk result (λ partial. partial
            ≡ both self (of_piece plan.now (record { index = index; bytes = piece.now }))) }
    {
        let Partial {
            alloc,
            shape,
            table,
            lines,
            refused,
            mut notes,
        } = self;
        let folding = read_onto(alloc, plan, table, piece)?;
        notes.push(PieceRefusals {
            index,
            lines: folding.lines,
            refused: folding.refusals,
        })?;
        Ok(Partial {
            alloc,
            shape,
            table: folding.table,
            lines: lines + folding.lines,
            refused: refused + folding.refused,
            notes,
        })
    }

    /// The number of all lines of the pieces, refused ones among them, below 2^63.
    pub fn lines(&self) -> u64
        ensures lines { result ≡ self.now.lines }
        ensures of_pieces { (plan : PlannedQuery) (pieces : List IndexedPiece)
            → StandsFor plan self.now pieces → result ≡ length (all_lines pieces) }
        ensures few { result < input_limit }
    {
        self.lines
    }

    /// The number of all refused lines of the pieces, at most that of all lines.
    pub fn refused(&self) -> u64
        ensures refused { result ≡ self.now.refused }
        ensures of_pieces { (plan : PlannedQuery) (pieces : List IndexedPiece)
            → StandsFor plan self.now pieces
            → result ≡ length (refused_lines_within plan.fields pieces) }
        ensures fewer { result ≤ self.now.lines }
    {
        self.refused
    }

    /// Whether two results are of the same grouping sets, set functions and filters, and so can be
    /// merged. It is true of any two results of one query under one schema. It takes no memory.
    ///
    /// Example: under one schema it is true of two results of
    /// `SELECT COUNT(*) FROM lines GROUP BY shop`, and false of one of that and one of
    /// `SELECT COUNT(*) FROM lines GROUP BY kind`.
    pub fn same_shape(&self, other: &Partial) -> bool
        ensures same { IsTrue result ↔ HaveOneShape self.now other.now }
        ensures of_one_query { (plan : PlannedQuery)
            (pieces more : List IndexedPiece)
            → StandsFor plan self.now pieces → StandsFor plan other.now more
            → IsTrue result }
    {
        self.shape.is_same(&other.shape)
    }

    /// The result over the pieces of both, whichever is merged with the other. `same_shape` is true
    /// of the two, and they have fewer than 2^63 lines together.
    ///
    /// Example: a result over 3 lines, 1 of them refused, merged with one over 2 good lines of
    /// another piece, is one over 5 lines, 1 of them refused.
    ///
    /// # Errors
    ///
    /// `AllocError` where there is no memory for it; both are given up then.
    pub fn merge(self, other: Partial) -> Result<Partial, AllocError>
        requires one_shape { HaveOneShape self other }
        requires few { self.lines + other.lines < input_limit }
        ensures { IfOk result (λ partial. partial ≡ both self other) }
    {
        self.merge_by(&Serial, other)
    }

    /// What `merge` does, where the executor merges the tables. It can do so.
    ///
    /// Example: `first.merge_by(&Parallel { rt: &rt, workers: 4, seed }, second)?` stands for the
    /// pieces of both, as `first.merge(second)?` does.
    ///
    /// # Errors
    ///
    /// `AllocError` where there is no memory for it; both are given up then.
    pub fn merge_by<E: Executor>(self, executor: &E, other: Partial) -> Result<Partial, AllocError>
        requires ready { E.ready executor.now }
        requires one_shape { HaveOneShape self other }
        requires few { self.lines + other.lines < input_limit }
        ensures { IfOk result (λ partial. partial ≡ both self other) }
    {
        let Partial {
            alloc,
            shape,
            table,
            lines,
            refused,
            mut notes,
        } = self;
        let Partial {
            alloc: _,
            shape: other_shape,
            table: other_table,
            lines: other_lines,
            refused: other_refused,
            notes: mut other_notes,
        } = other;
        drop(other_shape);
        notes.append(&mut other_notes)?;
        let merged = merge_tables(executor, table, other_table)?;
        Ok(Partial {
            alloc,
            shape,
            table: merged,
            lines: lines + other_lines,
            refused: refused + other_refused,
            notes,
        })
    }

    /// The result over an input of which this one is the result of the front, and the other one
    /// that of the rest behind it. The front is whole lines: it is empty, or ends in a line feed.
    /// The answer stands for the input as one piece of index 0, so that the refused lines of the
    /// rest are numbered behind the lines of the front. Which pieces the two were cut into is
    /// forgotten.
    ///
    /// `same_shape` is true of the two, and they have fewer than 2^63 lines together.
    ///
    /// Example: where the front has 3 lines and the first line of the rest is refused, that is line
    /// 4 of the input.
    ///
    /// # Errors
    ///
    /// `AllocError` where there is no memory for it; both are given up then.
    pub fn follow(self, rest: Partial) -> Result<Partial, AllocError>
        requires one_shape { HaveOneShape self rest }
        requires few { self.lines + rest.lines < input_limit }
        ensures stands { HasOwnIndexes self → HasOwnIndexes rest
            → IfOk result (λ whole. whole ≡ concatenation self rest) }
        // In whatever order refused lines of one index are numbered.
        ensures groups { IfOk result (DiffersInNotes (both self rest)) }
    {
        self.follow_by(&Serial, rest)
    }

    /// What `follow` does, where the executor merges the tables. It can do so.
    ///
    /// Example: `front.follow_by(&Parallel { rt: &rt, workers: 4, seed }, rest)?` stands for the
    /// whole input, as `front.follow(rest)?` does.
    ///
    /// # Errors
    ///
    /// `AllocError` where there is no memory for it; both are given up then.
    pub fn follow_by<E: Executor>(self, executor: &E, rest: Partial) -> Result<Partial, AllocError>
        requires ready { E.ready executor.now }
        requires one_shape { HaveOneShape self rest }
        requires few { self.lines + rest.lines < input_limit }
        ensures stands { HasOwnIndexes self → HasOwnIndexes rest
            → IfOk result (λ whole. whole ≡ concatenation self rest) }
        // In whatever order refused lines of one index are numbered.
        ensures groups { IfOk result (DiffersInNotes (both self rest)) }
    {
        let Partial {
            alloc,
            shape,
            table,
            lines: before,
            refused,
            notes,
        } = self;
        let Partial {
            alloc: _,
            shape: rest_shape,
            table: rest_table,
            lines: rest_lines,
            refused: rest_refused,
            notes: rest_notes,
        } = rest;
        drop(rest_shape);
        let lines = before + rest_lines;
        let merged = merge_tables(executor, table, rest_table)?;
        let mut gathered = gather(alloc, notes)?;
        gather_behind(&mut gathered, before, rest_notes)?;
        let notes = one_note(
            alloc,
            PieceRefusals {
                index: 0,
                lines,
                refused: gathered,
            },
        )?;
        Ok(Partial {
            alloc,
            shape,
            table: merged,
            lines,
            refused: refused + rest_refused,
            notes,
        })
    }

    /// The result over an input of which this one is the result of the front, and `rest` are the
    /// bytes of the rest behind it. The front is whole lines: it is empty, or ends in a line feed.
    /// The records of the rest go into the table that is there. The answer stands for the input as
    /// one piece of index 0, so that the refused lines of the rest are numbered behind the lines of
    /// the front.
    ///
    /// This is a result of the plan, over some pieces, and has fewer than 2^63 lines together with
    /// the rest.
    ///
    /// Example: where the front has 3 lines and the first line of the rest is refused, that is line
    /// 4 of the input.
    ///
    /// # Errors
    ///
    /// `AllocError` where there is no memory for it; what was there is given up then.
    pub fn fold_behind(self, plan: &Plan, rest: &[u8]) -> Result<Partial, AllocError>
        requires of_plan { IsPartialOf plan.now self }
        requires few { self.lines + length (lines rest.now) < input_limit }
        ensures stands { HasOwnIndexes self → IfOk result (λ whole. whole
            ≡ concatenation self (of_piece plan.now (record { index = 0; bytes = rest.now }))) }
    {
        let Partial {
            alloc,
            shape,
            table,
            lines: before,
            refused,
            notes,
        } = self;
        let mut gathered = gather(alloc, notes)?;
        let folding = read_onto(alloc, plan, table, rest)?;
        gathered.put_behind(before, &folding.refusals)?;
        let lines = before + folding.lines;
        let notes = one_note(
            alloc,
            PieceRefusals {
                index: 0,
                lines,
                refused: gathered,
            },
        )?;
        Ok(Partial {
            alloc,
            shape,
            table: folding.table,
            lines,
            refused: refused + folding.refused,
            notes,
        })
    }

    /// The result over the same input as one piece, of index 0, or over no piece where it has no
    /// line. Which pieces it was cut into is forgotten, so that pieces behind it can have the
    /// indexes from 1 on.
    ///
    /// Example: of a result over the pieces 0 and 1 of an input, `partial.in_one_piece()?` has as
    /// many lines, and merged with that over a piece of index 1 whose first line is refused, it has
    /// that line numbered behind all of these.
    ///
    /// # Errors
    ///
    /// `AllocError` where there is no memory for it; what was there is given up then.
    pub fn in_one_piece(self) -> Result<Partial, AllocError>
        ensures stands { HasOwnIndexes self → IfOk result (λ partial. partial ≡ as_one self) }
        // In whatever order refused lines of one index are numbered.
        ensures groups { IfOk result (DiffersInNotes self) }
        ensures fewer { IfOk result (λ partial. partial.refused ≤ partial.lines) }
    {
        let Partial {
            alloc,
            shape,
            table,
            lines,
            refused,
            notes,
        } = self;
        let gathered = gather(alloc, notes)?;
        let notes = note_if_any(alloc, lines, gathered)?;
        Ok(Partial {
            alloc,
            shape,
            table,
            lines,
            refused,
            notes,
        })
    }

    /// The groups and the refused lines of the pieces. For each grouping set of the plan, and each
    /// key of the good records that WHERE keeps, there is one group, with the number of its members
    /// and the value of each set function (ISO/IEC 9075-2, `<group by clause>`); the empty set has
    /// its one group also over no records. Where no two pieces have one index, each refused line is
    /// there once, by its number in the input, from 1: the lines of the pieces with a smaller index
    /// stand before its own.
    ///
    /// This is a result that the plan can finish, as each one of the plan over some pieces is
    /// (`sound_law`).
    ///
    /// Example: of the lines `{"shop":"Quay","cents":250}` and `{"shop":"Quay","cents":50}`, the
    /// plan of `SELECT shop, SUM(cents) FROM lines GROUP BY shop` finds one group: the key
    /// `'Quay'`, 2 members and the cell 300.
    ///
    /// # Errors
    ///
    /// `AllocError` where there is no memory for them; the result is given up then.
    pub fn finish(self, plan: &Plan) -> Result<Groups, AllocError>
        requires sound { IsSoundUnder plan.now self }
        ensures { IfOk result (IsFinishOf plan.now self) }
    {
        self.finish_by(&Serial, plan)
    }

    /// What `finish` gives, where the executor finishes the groups. It can do so.
    ///
    /// This is a result that the plan can finish, as each one of the plan over some pieces is
    /// (`sound_law`).
    ///
    /// Example: `partial.finish_by(&Parallel { rt: &rt, workers: 4, seed }, &plan)?` gives the
    /// groups and the refused lines that `partial.finish(&plan)?` gives.
    ///
    /// # Errors
    ///
    /// `AllocError` where there is no memory for them; the result is given up then.
    pub fn finish_by<E: Executor>(self, executor: &E, plan: &Plan) -> Result<Groups, AllocError>
        requires ready { E.ready executor.now }
        requires sound { IsSoundUnder plan.now self }
        ensures { IfOk result (IsFinishOf plan.now self) }
    {
        let Partial {
            alloc,
            shape,
            table,
            lines: _,
            refused,
            notes,
        } = self;
        drop(shape);
        let rows = rows_of(alloc, executor, plan, table)?;
        let refused = number(alloc, refused, notes)?;
        members_law();
        Ok(Groups::new(rows, refused))
    }

    /// The groups under any set of grouping columns, whether or not it is one of the query's
    /// grouping sets: one for each key of the records that WHERE keeps and no other, its values in
    /// the order of the set. They come in no order that is said, and this result stays as it is.
    ///
    /// This is a result that the plan can finish, as each one of the plan over some pieces is
    /// (`sound_law`). The set has places of columns, from 0, all among those of `Plan::grouping`.
    ///
    /// Example: `partial.roll(&plan, &[])?` is one group with the empty key, whose members are all
    /// records that WHERE keeps, also where there are none.
    ///
    /// # Errors
    ///
    /// `AllocError` where there is no memory for them.
    pub fn roll(&self, plan: &Plan, set: &[usize]) -> Result<Vec<Group>, AllocError>
        requires sound { IsSoundUnder plan.now self.now }
        requires among { AreGroupingColumns plan.now set.now }
        ensures groups { IfOk result (λ groups. (pieces : List IndexedPiece)
            → StandsFor plan.now self.now pieces
            → GivesGroupsOfSet plan.now set.now groups.items (records_of plan.now.fields pieces)) }
        // The members of a key are those of all keys of the grouping columns that have its values,
        // joined.
        ensures members { OnOk result ((rows : List Record) (key : Key)
            → HasMembersOfFiner plan.now set.now key rows) }
    {
        let table = self.table.roll(plan.grouping(), set, plan.set_functions())?;
        roll_law();
        table.finish(&Serial)
    }

    /// What the result contains. Of a result over the pieces of an input, its refused lines are
    /// numbered in the input, and its groups are those of the good records that WHERE keeps, under
    /// all grouping columns.
    ///
    /// Example: of a result over 3 good lines of one key there are 3 lines, no refused line, and
    /// one group with 3 members.
    ///
    /// # Errors
    ///
    /// `AllocError` where there is no memory for it; the result is given up then.
    pub fn into_contents(self) -> Result<PartialContents, AllocError>
        ensures { IfOk result (λ contents. (plan : PlannedQuery) (input : List ℕ)
            → StandsForInput plan self input
            → contents_of contents ≡ contents_over plan.fields plan.query input) }
    {
        let Partial {
            alloc,
            shape,
            table,
            lines,
            refused,
            notes,
        } = self;
        drop(shape);
        let refused_lines = number(alloc, refused, notes)?;
        let groups = table.into_entries()?;
        entries_law();
        Ok(PartialContents {
            lines,
            refused: refused_lines,
            groups,
        })
    }

    /// The result of a plan with so many lines, fewer than 2^63, and these refused ones, by their
    /// numbers from 1, as one piece of index 0, but without any group yet. It is laid out so that
    /// the executor is fast in merging other results into it.
    ///
    /// There are at most as many refused lines as lines, and none has a number above theirs.
    ///
    /// Example: `lines()` of `Partial::without_groups(alloc, &plan, &Serial, 3, Vec::new(alloc))?`
    /// is 3.
    ///
    /// # Errors
    ///
    /// `AllocError` where there is no memory for it.
    pub fn without_groups<E: Executor>(
        alloc: Global,
        plan: &Plan,
        executor: &E,
        lines: u64,
        refused: Vec<(u64, LineFault)>,
    ) -> Result<Partial, AllocError>
        requires few { lines < input_limit }
        requires fewer { length refused.items ≤ lines }
        requires numbered { All (λ line. line.0 ≤ lines) refused.items }
        ensures sound { IfOk result (IsSoundUnder plan.now) }
        ensures refusals { IfOk result (HasRefusals lines refused.items) }
        ensures groups { IfOk result (λ partial. groups_in partial ≡ []) }
        ensures within { IfOk result (HasMembersWithin 0) }
    {
        let shape = Shape::of(alloc, plan)?;
        let table = Table::for_entries(alloc, executor.seed(), executor.hands())?;
        let count = refused.len() as u64;
        let refusals = Refusals::of(alloc, refused.as_slice())?;
        drop(refused);
        let notes = one_note(
            alloc,
            PieceRefusals {
                index: 0,
                lines,
                refused: refusals,
            },
        )?;
        Ok(Partial {
            alloc,
            shape,
            table,
            lines,
            refused: count,
            notes,
        })
    }

    /// The result with one more group, whose key is above those of all its groups. The lines and
    /// the refused ones stay as they are.
    ///
    /// The states are of the forms that the set functions of the result keep, over at most as many
    /// members as the group has: counts and sums of no more, and different values ascending. With
    /// the group's members the groups have at most as many together as there are lines.
    ///
    /// Example: groups that `into_contents` gives can be put, one after the other, to a result of
    /// the same plan and as many lines that has none; it stands for the same input then
    /// (`contents_law`).
    ///
    /// # Errors
    ///
    /// `AllocError` where there is no memory for it; what was there is given up then.
    pub fn put_group(self, group: GroupEntry) -> Result<Partial, AllocError>
        requires behind { IsBehind (data_of group.key.items) (groups_in self) }
        requires states { IsEntryFor self.functions (entry_of group) }
        requires room { HasRoomFor group.members self }
        ensures groups { IfOk result (HasGroupBehind self (entry_of group)) }
        ensures within { IfOk result (λ partial. (most : ℕ) → HasMembersWithin most self
            → HasMembersWithin (most + group.members) partial) }
        ensures sound { IfOk result (λ partial. (plan : PlannedQuery) → IsSoundUnder plan self
            → IsTypedEntryUnder plan (entry_of group) → IsSoundUnder plan partial) }
        ensures others { IfOk result (DiffersInGroups self) }
    {
        let Partial {
            alloc,
            shape,
            mut table,
            lines,
            refused,
            notes,
        } = self;
        table.put_entry(shape.functions.as_slice(), group)?;
        Ok(Partial {
            alloc,
            shape,
            table,
            lines,
            refused,
            notes,
        })
    }
}

/// The notes of one piece.
fn one_note(alloc: Global, note: PieceRefusals) -> Result<Vec<PieceRefusals>, AllocError>
    ensures { IfOk result (λ notes. notes.items ≡ note ∷ []) }
{
    let mut notes = Vec::with_capacity(alloc, 1)?;
    notes.push(note)?;
    Ok(notes)
}

/// The notes of so many lines as one piece, of index 0, with these refused ones; of no line there
/// is none.
fn note_if_any(
    alloc: Global,
    lines: u64,
    refused: Refusals,
) -> Result<Vec<PieceRefusals>, AllocError>
    ensures { IfOk result (λ notes. notes_in notes ≡ notes_of_one lines refused) }
{
    if lines == 0 {
        return Ok(Vec::new(alloc));
    }
    one_note(
        alloc,
        PieceRefusals {
            index: 0,
            lines,
            refused,
        },
    )
}
