//! The refused lines of all pieces by their numbers in the input.

ghost use Rattle.std.specs.Prelude.{◌≡◌, ◌+◌, ◌<◌, ◌++◌, IfOk, OnOk, All};
ghost use Rattle.std.specs.List.Sorted.{IsPermutation, IsNonDecreasingBy};
ghost use Rattle.tables.specs.Inside.Notes.{AreLinesBehind, AreLinesOf};
ghost use Rattle.tables.specs.Notes.{IsWellNumbered, line_count, notes_in, refused_lines_from};
ghost use Rattle.semantics.specs.Limits.{input_limit};

use crate::piece_refusals::PieceRefusals;
use crate::refusals::Refusals;
use lines::LineFault;
use std::alloc::{AllocError, Global};

/// The list of the refused lines of the pieces by ascending index, each numbered by its place
/// within its piece and the line counts of the pieces before. The list takes memory for so many
/// lines at once; each note is given back as soon as its lines are in the list.
pub(crate) fn number(
    alloc: Global,
    count: u64,
    notes: Vec<PieceRefusals>,
) -> Result<Vec<(u64, LineFault)>, AllocError>
    requires few { line_count (notes_in notes) < input_limit }
    requires numbered { All IsWellNumbered (notes_in notes) }
    ensures { IfOk result (λ lines. AreLinesOf (notes_in notes) lines.items) }
{
    let notes = sort_by_index(notes);
    list_in_order(alloc, count, notes)
}

/// The refused lines of the pieces by ascending index, numbered as in `number`, without a list of
/// them.
pub(crate) fn gather(alloc: Global, notes: Vec<PieceRefusals>) -> Result<Refusals, AllocError>
    requires few { line_count (notes_in notes) < input_limit }
    requires numbered { All IsWellNumbered (notes_in notes) }
    ensures { IfOk result (AreLinesOf (notes_in notes)) }
{
    let notes = sort_by_index(notes);
    gather_in_order(alloc, notes)
}

/// Puts the refused lines of more pieces behind those of an earlier part of the input, which has so
/// many lines: by ascending index, each numbered by its place within its piece and the line counts
/// of all that is before.
pub(crate) fn gather_behind(
    gathered: &mut Refusals,
    before: u64,
    notes: Vec<PieceRefusals>,
) -> Result<(), AllocError>
    requires few { before + line_count (notes_in notes) < input_limit }
    requires numbered { All IsWellNumbered (notes_in notes) }
    ensures { OnOk result
        (AreLinesBehind before (notes_in notes) gathered.old gathered.new) }
{
    let notes = sort_by_index(notes);
    put_all_behind(gathered, before, notes)
}

/// The notes by ascending index.
fn sort_by_index(mut notes: Vec<PieceRefusals>) -> Vec<PieceRefusals>
    ensures permutation { IsPermutation notes.items result.items }
    ensures ascending { IsNonDecreasingBy (λ note. note.index) result.items }
{
    notes.sort_unstable_by_key(|note| note.index);
    notes
}

/// The list of the refused lines of the pieces in the order of the notes, each numbered by its
/// place within its piece and the line counts of the pieces before.
fn list_in_order(
    alloc: Global,
    count: u64,
    notes: Vec<PieceRefusals>,
) -> Result<Vec<(u64, LineFault)>, AllocError>
    requires few { line_count (notes_in notes) < input_limit }
    requires numbered { All IsWellNumbered (notes_in notes) }
    ensures { IfOk result (λ lines. lines.items ≡ refused_lines_from 0 (notes_in notes)) }
{
    let mut list = Vec::with_capacity(alloc, count as usize)?;
    let mut before = 0;
    for note in notes {
        note.refused.list_behind(before, &mut list)?;
        before += note.lines;
    }
    Ok(list)
}

/// The refused lines of the pieces in the order of the notes, each numbered by its place within its
/// piece and the line counts of the pieces before. Those of the first piece have these numbers
/// already, and stay as they are.
fn gather_in_order(alloc: Global, mut notes: Vec<PieceRefusals>) -> Result<Refusals, AllocError>
    requires few { line_count (notes_in notes) < input_limit }
    requires numbered { All IsWellNumbered (notes_in notes) }
    ensures { IfOk result (λ lines. lines ≡ refused_lines_from 0 (notes_in notes)) }
{
    if notes.is_empty() {
        return Ok(Refusals::new(alloc));
    }
    let first = notes.remove(0);
    let mut gathered = first.refused;
    put_all_behind(&mut gathered, first.lines, notes)?;
    Ok(gathered)
}

/// Puts the refused lines of pieces, in the order of the notes, behind those of the pieces before,
/// which have so many lines.
fn put_all_behind(
    gathered: &mut Refusals,
    mut before: u64,
    notes: Vec<PieceRefusals>,
) -> Result<(), AllocError>
    requires few { before + line_count (notes_in notes) < input_limit }
    requires numbered { All IsWellNumbered (notes_in notes) }
    ensures { OnOk result
        (gathered.new ≡ gathered.old ++ refused_lines_from before (notes_in notes)) }
{
    for note in notes {
        gathered.put_behind(before, &note.refused)?;
        before += note.lines;
    }
    Ok(())
}
