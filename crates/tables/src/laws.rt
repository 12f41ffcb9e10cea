//! Laws of partial results and of groups, with no work to do.

ghost use Rattle.std.specs.Prelude.{◌≡◌, ◌+◌, ◌<◌, ◌^◌, ◌++◌, ℕ, List, length};
ghost use Rattle.lines.specs.Pieces.{AreWholeLines};
ghost use Rattle.lines.specs.declared.pieces.Piece.{Piece};
ghost use Rattle.pool.specs.Totals.{sum_below};
ghost use Rattle.semantics.specs.ResultRows.{rows_before_having};
ghost use Rattle.semantics.specs.Groups.{Record};
ghost use Rattle.semantics.specs.Parts.{contents_over};
ghost use Rattle.query_plan.specs.Planned.{PlannedQuery};
ghost use Rattle.group_tables.specs.Bags.{SameBag};
ghost use Rattle.tables.specs.Contents.{HasContents};
ghost use Rattle.tables.specs.Jobs.{total_of};
ghost use Rattle.tables.specs.Members.{HasEachRecordOnce};
ghost use Rattle.tables.specs.Partials.{DiffersInNotes, GivesGroups, HasOwnIndexes, IsPartialOf, StandsFor, StandsForInput, as_one, both, concatenation, none, of_piece, of_pieces, one_piece, whole_piece};
ghost use Rattle.tables.specs.Pieces.{IndexedPiece, all_lines, indexed_pieces, indexed_pieces_from, piece_at, piece_from, refused_lines_within};
ghost use Rattle.tables.specs.Sound.{IsSoundUnder};
ghost use Rattle.tables.specs.States.{GroupsState, PartialState};

/// A law: the result of some pieces and more pieces is what the results of both come to together.
/// So no thread, round or machine that makes a result of some of the pieces can change that of all.
pub fn pieces_law()
    ensures { (plan : PlannedQuery) (pieces more : List IndexedPiece)
        → of_pieces plan (pieces ++ more) ≡ both (of_pieces plan pieces) (of_pieces plan more) }
{}

/// A law: the results of one query under one schema are a commutative monoid.
pub fn monoid_law()
    ensures closed { (plan : PlannedQuery) (first second : PartialState)
        → IsPartialOf plan first → IsPartialOf plan second → IsPartialOf plan (both first second) }
    ensures unit { (plan : PlannedQuery) (pieces : List IndexedPiece)
        → both (none plan) (of_pieces plan pieces) ≡ of_pieces plan pieces }
    ensures commutative { (plan : PlannedQuery) (xs ys : List IndexedPiece)
        → both (of_pieces plan xs) (of_pieces plan ys) ≡ both (of_pieces plan ys) (of_pieces plan xs) }
    ensures associative { (plan : PlannedQuery) (xs ys zs : List IndexedPiece)
        → both (both (of_pieces plan xs) (of_pieces plan ys)) (of_pieces plan zs)
        ≡ both (of_pieces plan xs) (both (of_pieces plan ys) (of_pieces plan zs)) }
{}

/// A law: pieces come to the same in any other order.
pub fn order_law()
    ensures { (plan : PlannedQuery) (pieces others : List IndexedPiece)
        → SameBag pieces others → of_pieces plan pieces ≡ of_pieces plan others }
{}

/// A law: whatever pieces an input was cut into, no two of them have one index, and its result as
/// one piece is that of the one piece that it is; and so it is with a front, which is whole lines,
/// and the rest behind it.
pub fn one_piece_law()
    ensures own { (plan : PlannedQuery) (partial : PartialState) (input : List ℕ)
        → StandsForInput plan partial input → HasOwnIndexes partial }
    ensures one { (plan : PlannedQuery) (partial : PartialState) (input : List ℕ)
        → StandsForInput plan partial input → StandsFor plan (as_one partial) (one_piece input) }
    ensures behind { (plan : PlannedQuery) (front rest : PartialState) (before after : List ℕ)
        → StandsForInput plan front before → StandsForInput plan rest after → AreWholeLines before
        → StandsFor plan (concatenation front rest) (whole_piece (before ++ after)) }
{}

/// A law: in the same records in any other order a query finds the same: each row of its groups as
/// often. So the rows that a report shows are one list, whatever the order of the records, by
/// `arranged_law` of `report_rows`.
pub fn records_law()
    ensures { (plan : PlannedQuery) (rows others : List Record) → SameBag rows others → SameBag
        (rows_before_having plan.fields plan.query rows) (rows_before_having plan.fields plan.query others) }
{
    group_tables::records_law();
}

/// A law: where groups are those that a query finds in a list of records, each record that WHERE
/// keeps is a member of exactly one row of each grouping set.
pub fn members_law()
    ensures { (plan : PlannedQuery) (groups : GroupsState) (rows : List Record)
        → GivesGroups plan groups rows → HasEachRecordOnce plan groups.found rows }
{
    group_tables::members_law();
}

/// A law: a plan can finish each result of its own over some pieces; so it can what two come to
/// that it can finish, and what is one of these but for its notes.
pub fn sound_law()
    ensures of_pieces { (plan : PlannedQuery) (partial : PartialState)
        → IsPartialOf plan partial → IsSoundUnder plan partial }
    ensures of_both { (plan : PlannedQuery) (first second : PartialState)
        → IsSoundUnder plan first → IsSoundUnder plan second
        → IsSoundUnder plan (both first second) }
    ensures of_notes { (plan : PlannedQuery) (before partial : PartialState)
        → IsSoundUnder plan before → DiffersInNotes before partial → IsSoundUnder plan partial }
{}

/// A law: a result that a plan can finish, and that has the contents of an input, as one piece,
/// stands for the input.
pub fn contents_law()
    ensures { (plan : PlannedQuery) (partial : PartialState) (input : List ℕ)
        → IsSoundUnder plan partial
        → HasContents partial (contents_over plan.fields plan.query input)
        → StandsForInput plan partial input }
{
    group_tables::entries_law();
}

/// A law: what all pieces of a job come to, one after the other, is what they come to; and the
/// weights and the loads of these are the numbers of their refused lines and of their lines.
pub fn job_law()
    ensures whole { (plan : PlannedQuery) (input : List ℕ) (pieces : List Piece)
        → total_of plan (piece_at input pieces) (length pieces)
        ≡ of_pieces plan (indexed_pieces input pieces) }
    // So it is with indexes from a first one on, where none is above the greatest number of 32
    // bits.
    ensures whole_by { (plan : PlannedQuery) (first : ℕ) (input : List ℕ) (pieces : List Piece)
        → first + length pieces < 2 ^ 32 → total_of plan (piece_from first input pieces) (length pieces)
        ≡ of_pieces plan (indexed_pieces_from first input pieces) }
    ensures refused { (plan : PlannedQuery) (input : List ℕ) (pieces : List Piece)
        → sum_below (λ i. (of_piece plan (piece_at input pieces i)).refused) (length pieces)
        ≡ length (refused_lines_within plan.fields (indexed_pieces input pieces)) }
    ensures lines { (plan : PlannedQuery) (input : List ℕ) (pieces : List Piece)
        → sum_below (λ i. (of_piece plan (piece_at input pieces i)).lines) (length pieces)
        ≡ length (all_lines (indexed_pieces input pieces)) }
{}
