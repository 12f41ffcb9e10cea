//! Laws of tables and of their groups, which have no work to do.

ghost use Rattle.std.specs.Prelude.{◌≡◌, ◌≤◌, ◌+◌, ◌↔◌, ℕ, Bool, List, length};
ghost use Rattle.std.specs.List.{flat_map, sum_by};
ghost use Rattle.semantics.specs.Groups.{Key, keys, members, Record};
ghost use Rattle.group_tables.specs.Rolled.{AreAmong, finer_members};
ghost use Rattle.group_tables.specs.GroupSummaries.{group_summaries};
ghost use Rattle.group_tables.specs.Bags.{SameBag};
ghost use Rattle.semantics.specs.Aggregates.{AggregateFunction};
ghost use Rattle.query_resolve.specs.declared.function.FilteredFunction.{FilteredFunction};
ghost use Rattle.semantics.specs.Columns.{Field};
ghost use Rattle.semantics.specs.GroupStates.{entries_over};
ghost use Rattle.group_tables.specs.Functions.{aggregates_of};
ghost use Rattle.group_tables.specs.Entries.{table_entries};
ghost use Rattle.group_tables.specs.Table.{CanJoin, Contents, HasGroupsOfBoth, HasGroupsOfFiner, IsCounted, IsTableOf, IsTableUnder, IsUnionOf, both_tables};
ghost use Rattle.group_tables.specs.Typed.{AllFit, AreColumns, HaveColumns, IsTypedTable};

/// A table of records is that of the same records in any other order.
pub fn order_law()
    ensures { (set : List ℕ) (functions : List AggregateFunction)
        (table : Contents) (rows others : List Record)
        → SameBag rows others → IsTableOf set functions table rows
        → IsTableOf set functions table others }
{}

/// The same records in any other order have the same keys under each grouping set, each key has the
/// same members, and of each group the same is shown.
pub fn records_law()
    ensures keys { (set : List ℕ) (rows others : List Record)
        → SameBag rows others → SameBag (keys set rows) (keys set others) }
    ensures members { (set : List ℕ) (key : Key) (rows others : List Record)
        → SameBag rows others → SameBag (members set key rows) (members set key others) }
    ensures groups { (set : List ℕ) (functions : List AggregateFunction) (rows others : List Record)
        → SameBag rows others
        → SameBag (group_summaries set functions rows) (group_summaries set functions others) }
{}

/// Under each grouping set a record is a member of exactly one group, and the numbers of members
/// add up to that of the records.
pub fn members_law()
    ensures members { (set : List ℕ) (rows : List Record)
        → SameBag (flat_map (λ key. members set key rows) (keys set rows)) rows }
    ensures lines { (set : List ℕ) (functions : List AggregateFunction) (rows : List Record)
        → sum_by (λ group. group.lines) (group_summaries set functions rows) ≡ length rows }
{}

/// The members of a key are those of the keys of a finer set that have its values in the columns of
/// the set, joined, each as often. So what a table keeps of a group is what a table of the finer
/// set keeps of those keys, put together.
pub fn roll_law()
    ensures members { (finer set : List ℕ) (key : Key) (rows : List Record)
        → AreAmong set finer → SameBag (finer_members finer set key rows) (members set key rows) }
    ensures groups { (finer set : List ℕ) (functions : List AggregateFunction)
        (table rolled : Contents)
        → AreAmong set finer → HasGroupsOfFiner finer functions table set rolled }
{}

/// One table alone has at each key what two tables have: both, put together. Of tables of records
/// under one set and for the same functions it is the table of the records of both. Of two tables
/// that can be put together it does not matter which one comes first.
pub fn both_law()
    ensures groups { (first second table : Contents)
        → HasGroupsOfBoth first second table ↔ (table ≡ both_tables first second) }
    ensures union { (first second : Contents) → IsUnionOf first second (both_tables first second) }
    ensures either_way { (first second : Contents) → CanJoin first second
        → both_tables first second ≡ both_tables second first }
{}

/// The groups of a table have no more records together than the table is of. Those of the groups of
/// two tables, put together, have no more than those of both.
pub fn counted_law()
    ensures records { (most : ℕ) (set : List ℕ) (functions : List FilteredFunction)
        (filters : List (Record → Bool)) (table : Contents) (rows : List Record)
        → IsTableUnder set functions filters table rows → length rows ≤ most
        → IsCounted most functions table }
    ensures joined { (m n : ℕ) (functions : List FilteredFunction) (a b : Contents)
        → IsCounted m functions a → IsCounted n functions b
        → IsCounted (m + n) functions (both_tables a b) }
{}

/// The groups of a table of records that fit the columns are of the types of these and of the set
/// functions. So are those of two tables that are, put together.
pub fn typed_law()
    ensures records { (fields : List Field) (set : List ℕ) (functions : List FilteredFunction)
        (filters : List (Record → Bool)) (table : Contents) (rows : List Record)
        → IsTableUnder set functions filters table rows → AllFit fields rows
        → AreColumns fields set → HaveColumns fields functions
        → IsTypedTable fields set functions table }
    ensures joined { (fields : List Field) (set : List ℕ) (functions : List FilteredFunction)
        (a b : Contents) → IsTypedTable fields set functions a
        → IsTypedTable fields set functions b
        → IsTypedTable fields set functions (both_tables a b) }
{}

/// The list of the groups of a table of records is that of the groups of these records, by
/// ascending keys. And a table of the types of columns and set functions whose list this is, is
/// that of these records.
pub fn entries_law()
    ensures of_records { (set : List ℕ) (functions : List AggregateFunction)
        (table : Contents) (rows : List Record)
        → IsTableOf set functions table rows
        → table_entries table ≡ entries_over set functions rows }
    ensures is_table { (fields : List Field) (set : List ℕ) (functions : List FilteredFunction)
        (filters : List (Record → Bool)) (table : Contents) (rows : List Record)
        → IsTypedTable fields set functions table
        → table_entries table ≡ entries_over set (aggregates_of filters functions) rows
        → IsTableUnder set functions filters table rows }
{}
