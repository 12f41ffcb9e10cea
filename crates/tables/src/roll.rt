//! The groups of each grouping set, rolled out of the table of all grouping columns.

ghost use Rattle.std.specs.Prelude.{◌≡◌, ◌<◌, ◌↔◌, ◌∷◌, ◌++◌, [], Some, true, false, ℕ, All, IfOk, OnOk, IsTrue, List, length};
ghost use Rattle.std.specs.List.{Any};
ghost use Rattle.std.specs.List.Sorted.{IsPermutation};
ghost use Rattle.query_resolve.specs.Resolution.{contents};
ghost use Rattle.query_resolve.specs.declared.function.FilteredFunction.{FilteredFunction};
ghost use Rattle.group_tables.specs.Rolled.{AreAmong};
ghost use Rattle.group_tables.specs.Table.{HasFewRecords};
ghost use Rattle.tables.specs.Inside.Properties.{HasProperty, Property};
ghost use Rattle.tables.specs.Inside.SetTables.{AreGroupsOfRolls, AreRolled, HasFiner, HasGroupsOf, HasRolled, HaveFiner, HaveProperty, HavePropertyWhereMade, KeepsOthers, NoneHasIndex, StandsAtIndex, set_of_roll, sets_of_rolls, sets_of_tables};

use group_tables::{Executor, Group, Operation, Table};
use query_plan::FilteredFunction;
use std::alloc::{AllocError, Global};
use std::marker::Sync;
use std::thread;
use std::thread::Threads;

/// The table of a grouping set.
///
/// Example: a query with GROUP BY ROLLUP of two columns has three of them: of both columns, of the
/// first one, and of the empty set.
#[derive(Drop)]
pub(crate) struct SetTable {
    /// The places of the columns of the set, from 0.
    set: Vec<usize>,
    /// The groups of the records under the set.
    table: Table,
    /// Where the set stands in the list of grouping sets, if it does.
    index: Option<usize>,
}

/// A grouping set of a list whose table is to be rolled out of another one, and the table where
/// that was done.
#[derive(Drop)]
pub(crate) struct Roll {
    set: Vec<usize>,
    index: usize,
    table: Option<Table>,
}

impl Roll {
    /// Makes the table, out of another one.
    ///
    /// That is a table for these set functions, of fewer than 2^63 records, and has the columns of
    /// the set.
    fn roll(&mut self, finer: &SetTable, functions: &[FilteredFunction])
        requires few { HasFewRecords functions.now finer.now.table }
        requires among { AreAmong (set_of_roll self.old) finer.now.set.items }
        ensures rolled { HasRolled functions.now finer.now self.old self.new }
    {
        let rolled = finer
            .table
            .roll(finer.set.as_slice(), self.set.as_slice(), functions);
        self.table = rolled.ok();
    }
}

/// The tables of some rolls, which are to be made out of one table; a roll is left without one
/// where there is no memory for it.
struct RollSets<'a> {
    finer: &'a SetTable,
    rolls: Vec<Roll>,
    functions: &'a [FilteredFunction],
}

impl<'a> Operation for RollSets<'a> {
    ghost use Rattle.std.specs.Prelude.{◌≡◌, All, length};
    ghost use Rattle.group_tables.specs.Table.{HasFewRecords};
    ghost use Rattle.group_tables.specs.Rolled.{AreAmong};
    ghost use Rattle.tables.specs.Inside.SetTables.{AreRolled, set_of_roll};

    type Output = Vec<Roll>;

    ghost can_run = { λ t. HasFewRecords t.functions.now t.finer.now.table
        × All (λ roll. AreAmong (set_of_roll roll) t.finer.now.set.items) t.rolls.items };

    ghost can_give = { λ t rolled. (length rolled.items ≡ length t.rolls.items)
        × AreRolled t.functions.now t.finer.now t.rolls.items rolled.items };

    fn run_alone(self) -> Vec<Roll> {
        let RollSets {
            finer,
            mut rolls,
            functions,
        } = self;
        roll_in_turn(finer, rolls.as_mut_slice(), functions);
        rolls
    }

    fn run_among<H: Threads + Sync>(self, rt: &H, hands: usize) -> Vec<Roll> {
        let RollSets {
            finer,
            mut rolls,
            functions,
        } = self;
        roll_among(rt, hands, finer, rolls.as_mut_slice(), functions);
        rolls
    }
}

/// Makes the tables of rolls, one after the other.
fn roll_in_turn(finer: &SetTable, rolls: &mut [Roll], functions: &[FilteredFunction])
    requires few { HasFewRecords functions.now finer.now.table }
    requires among { All (λ roll. AreAmong (set_of_roll roll) finer.now.set.items) rolls.old }
    ensures rolled { AreRolled functions.now finer.now rolls.old rolls.new }
{
    for place in 0..rolls.len() {
        rolls[place].roll(finer, functions);
    }
}

/// Makes the tables of rolls, by as many threads as there are hands.
fn roll_among<H: Threads + Sync>(
    rt: &H,
    hands: usize,
    finer: &SetTable,
    rolls: &mut [Roll],
    functions: &[FilteredFunction],
)
    requires hands { 0 < hands }
    requires few { HasFewRecords functions.now finer.now.table }
    requires among { All (λ roll. AreAmong (set_of_roll roll) finer.now.set.items) rolls.old }
    ensures rolled { AreRolled functions.now finer.now rolls.old rolls.new }
{
    thread::for_each_mut(
        rt,
        rolls,
        hands,
        &|_place: usize, roll: &mut Roll|
            requires { HasFewRecords functions.now finer.now.table
                × AreAmong roll.now.set.items finer.now.set.items }
            ensures { HasRolled functions.entry.now finer.entry.now roll.entry.now roll.exit.now }
        { roll.roll(finer, functions) },
    );
}

/// The groups of each grouping set of a list, in the order of the list; those of one set in no
/// order that is said.
///
/// They are made of the table of all grouping columns, among which the columns of each set are, and
/// finished by the executor. A table goes as soon as no other one is rolled out of it.
pub(crate) fn groups_of_sets<E: Executor>(
    alloc: Global,
    executor: &E,
    grouping: &[usize],
    sets: &[Vec<usize>],
    functions: &[FilteredFunction],
    finest: Table,
) -> Result<Vec<Vec<Group>>, AllocError>
    requires ready { E.ready executor.now }
    requires among { All (λ set. AreAmong set grouping.now) (contents sets.now) }
    requires few { HasFewRecords functions.now finest }
    ensures { IfOk result (λ groups.
        AreGroupsOfRolls grouping.now functions.now finest (contents sets.now) groups.items) }
{
    let index = index_of(sets, grouping);
    let mut waiting = waiting_sets(alloc, sets, index)?;
    let mut groups = without_groups(alloc, sets.len())?;
    let mut tables = first_table(alloc, grouping, index, finest)?;
    while let Some(finer) = tables.pop() {
        waiting = roll_out(alloc, executor, &finer, waiting, &mut tables, functions)?;
        finish_set(executor, finer, &mut groups)?;
    }
    Ok(groups)
}

/// Where a set stands in a list of sets.
fn index_of(sets: &[Vec<usize>], set: &[usize]) -> Option<usize>
    ensures { StandsAtIndex sets.now (result, set.now) }
{
    sets.iter().position(|other| other.as_slice() == set)
}

/// A roll for each set of a list, but not for the one of an index; those of sets with more columns
/// first.
fn waiting_sets(
    alloc: Global,
    sets: &[Vec<usize>],
    made: Option<usize>,
) -> Result<Vec<Roll>, AllocError>
    ensures listed { IfOk result (λ waiting.
        All (StandsAtIndex sets.now) (sets_of_rolls waiting.items)) }
    ensures all { IfOk result (λ waiting. (index : ℕ) → index < length sets.now
        → NoneHasIndex index (sets_of_rolls waiting.items) → made ≡ Some index) }
{
    let mut waiting = Vec::with_capacity(alloc, sets.len())?;
    for index in 0..sets.len() {
        if made != Some(index) {
            let set = Vec::from_slice(alloc, sets[index].as_slice())?;
            waiting.push(Roll {
                set,
                index,
                table: None,
            })?;
        }
    }
    waiting.sort_unstable_by_key(|roll| usize::MAX - roll.set.len());
    Ok(waiting)
}

/// So many lists without any group.
fn without_groups(alloc: Global, count: usize) -> Result<Vec<Vec<Group>>, AllocError>
    ensures { IfOk result (λ groups. length groups.items ≡ count) }
{
    let mut groups = Vec::with_capacity(alloc, count)?;
    for _ in 0..count {
        groups.push(Vec::new(alloc))?;
    }
    Ok(groups)
}

/// The table of all grouping columns alone.
fn first_table(
    alloc: Global,
    grouping: &[usize],
    index: Option<usize>,
    finest: Table,
) -> Result<Vec<SetTable>, AllocError>
    ensures { IfOk result (λ tables. (first : SetTable) × (first.set.items ≡ grouping.now)
        × (first.index ≡ index) × (first.table ≡ finest) × (tables.items ≡ first ∷ [])) }
{
    let set = Vec::from_slice(alloc, grouping)?;
    let mut tables = Vec::with_capacity(alloc, 1)?;
    tables.push(SetTable {
        set,
        table: finest,
        index,
    })?;
    Ok(tables)
}

/// Rolls out of a table those of the waiting sets whose columns it has, but none whose columns
/// another one of these has. Their tables come behind others, that with the fewest groups last. It
/// gives the sets that wait on.
fn roll_out<E: Executor>(
    alloc: Global,
    executor: &E,
    finer: &SetTable,
    waiting: Vec<Roll>,
    tables: &mut Vec<SetTable>,
    functions: &[FilteredFunction],
) -> Result<Vec<Roll>, AllocError>
    requires ready { E.ready executor.now }
    requires few { HasFewRecords functions.now finer.now.table }
    ensures sets { IfOk result (λ left. IsPermutation
        (sets_of_rolls waiting.items ++ sets_of_tables tables.old.items)
        (sets_of_rolls left.items ++ sets_of_tables tables.new.items)) }
    ensures finer { IfOk result (λ left.
        HaveFiner waiting.items (sets_of_tables (tables.old.items ++ finer.now ∷ []))
        → HaveFiner left.items (sets_of_tables tables.new.items)) }
    ensures tables { OnOk result ((property : Property)
        → HasProperty property finer.now.set.items functions.now finer.now.table
        → HaveProperty property functions.now tables.old.items
        → HaveProperty property functions.now tables.new.items) }
{
    let (rolls, left) = split_waiting(alloc, finer.set.as_slice(), waiting)?;
    let mut rolled = roll_sets(alloc, executor, finer, rolls, functions)?;
    tables.append(&mut rolled)?;
    Ok(left)
}

/// The waiting sets that are to be rolled out of the table of a set, and those that wait on.
fn split_waiting(
    alloc: Global,
    finer: &[usize],
    waiting: Vec<Roll>,
) -> Result<(Vec<Roll>, Vec<Roll>), AllocError>
    ensures split { IfOk result (λ split. IsPermutation waiting.items
        (split.0.items ++ split.1.items)) }
    ensures rolls { IfOk result (λ split.
        All (λ roll. AreAmong roll.set.items finer.now) split.0.items) }
    ensures left { IfOk result (λ split. All (λ roll. AreAmong roll.set.items finer.now
        → HasFiner roll.set.items (sets_of_rolls split.0.items)) split.1.items) }
{
    let mut rolls = Vec::new(alloc);
    let mut left = Vec::with_capacity(alloc, waiting.len())?;
    for roll in waiting {
        if is_next(finer, rolls.as_slice(), roll.set.as_slice()) {
            rolls.push(roll)?;
        } else {
            left.push(roll)?;
        }
    }
    Ok((rolls, left))
}

/// Whether a set has all its columns in a finer one, and in none that is to be rolled out of that.
fn is_next(finer: &[usize], rolls: &[Roll], set: &[usize]) -> bool
    ensures next { result ≡ true → AreAmong set.now finer.now }
    ensures later { result ≡ false → AreAmong set.now finer.now
        → Any (λ roll. AreAmong set.now roll.set.items) rolls.now }
{
    has_columns(finer, set) && !is_finer_rolled(rolls, set)
}

/// Whether one of the rolls has all columns of a set.
fn is_finer_rolled(rolls: &[Roll], set: &[usize]) -> bool
    ensures { result ≡ true → Any (λ roll. AreAmong set.now roll.set.items) rolls.now }
{
    rolls
        .iter()
        .any(|roll| has_columns(roll.set.as_slice(), set))
}

/// Whether a set has all columns of another one.
fn has_columns(finer: &[usize], set: &[usize]) -> bool
    ensures { IsTrue result ↔ AreAmong set.now finer.now }
{
    set.iter().all(|place| finer.contains(place))
}

/// The tables of some sets, rolled out of one that has their columns; that with the fewest groups
/// comes last.
fn roll_sets<E: Executor>(
    alloc: Global,
    executor: &E,
    finer: &SetTable,
    rolls: Vec<Roll>,
    functions: &[FilteredFunction],
) -> Result<Vec<SetTable>, AllocError>
    requires ready { E.ready executor.now }
    requires few { HasFewRecords functions.now finer.now.table }
    requires among { All (λ roll. AreAmong roll.set.items finer.now.set.items) rolls.items }
    ensures sets { IfOk result (λ tables.
        IsPermutation (sets_of_rolls rolls.items) (sets_of_tables tables.items)) }
    ensures tables { IfOk result (λ tables. (property : Property)
        → HasProperty property finer.now.set.items functions.now finer.now.table
        → HaveProperty property functions.now tables.items) }
{
    let rolls = executor.perform(RollSets {
        finer,
        rolls,
        functions,
    });
    let mut tables = tables_of_rolls(alloc, rolls)?;
    tables.sort_unstable_by_key(|table| usize::MAX - table.table.len());
    Ok(tables)
}

/// The tables of rolls, where all were made.
fn tables_of_rolls(alloc: Global, rolls: Vec<Roll>) -> Result<Vec<SetTable>, AllocError>
    ensures sets { IfOk result (λ tables.
        sets_of_tables tables.items ≡ sets_of_rolls rolls.items) }
    ensures tables { IfOk result (λ tables.
        (property : Property) (functions : List FilteredFunction)
        → HavePropertyWhereMade property functions rolls.items
        → HaveProperty property functions tables.items) }
{
    let mut tables = Vec::with_capacity(alloc, rolls.len())?;
    for roll in rolls {
        put_rolled(&mut tables, roll)?;
    }
    Ok(tables)
}

/// Puts the table of a roll behind others, where it was made.
fn put_rolled(tables: &mut Vec<SetTable>, roll: Roll) -> Result<(), AllocError>
    ensures { OnOk result ((made : SetTable) × (made.set.items ≡ roll.set.items)
        × (made.index ≡ Some roll.index) × (roll.table ≡ Some made.table)
        × (tables.new.items ≡ tables.old.items ++ made ∷ [])) }
{
    let Roll { set, index, table } = roll;
    match table {
        Some(table) => {
            tables.push(SetTable {
                set,
                table,
                index: Some(index),
            })?;
            Ok(())
        }
        None => Err(AllocError),
    }
}

/// Finishes a table and keeps its groups at the index of its set. It goes without groups where the
/// set has no index.
fn finish_set<E: Executor>(
    executor: &E,
    finished: SetTable,
    groups: &mut Vec<Vec<Group>>,
) -> Result<(), AllocError>
    requires ready { E.ready executor.now }
    requires within { (index : ℕ) → finished.index ≡ Some index → index < length groups.old.items }
    ensures count { OnOk result (length groups.new.items ≡ length groups.old.items) }
    ensures others { OnOk result (KeepsOthers finished groups.old.items groups.new.items) }
    ensures finished { OnOk result (HasGroupsOf finished groups.new.items) }
{
    let SetTable { index, table, .. } = finished;
    let Some(index) = index else {
        drop(table);
        return Ok(());
    };
    groups[index] = table.finish(executor)?;
    Ok(())
}
