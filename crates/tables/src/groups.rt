//! The groups of an input, and its refused lines.

ghost use Rattle.std.specs.Prelude.{◌≡◌, map};
ghost use Rattle.std.proofs.Props.{props};
ghost use Rattle.tables.specs.Planned.{FitSomePlan};
ghost use Rattle.group_tables.specs.GroupRows.{row_of};

use group_tables::{Executor, Group, Operation};
use lines::LineFault;
use std::alloc::Global;
use std::marker::{Model, Sync};
use std::thread;
use std::thread::Threads;

/// The least number of groups whose memory several threads give back: that of fewer is back before
/// a thread starts.
const PARALLEL_MIN_GROUPS: usize = 4_096;

/// What the grouping sets of a query find in an input: their groups, and the refused lines.
///
/// The groups fit the plan of some query: the index of each is that of a grouping set, its key has
/// a value for each column of the set, of the column's type or NULL, it has a cell for each set
/// function, of the function's type, and no index and key stand twice together. Only
/// `Partial::finish` makes one.
///
/// Example: under `GROUP BY ROLLUP (shop)`, over one record of the shop `'Quay'`, there are the
/// group with the key `'Quay'` beside the index 0, and that with the empty key beside the index 1.
pub struct Groups {
    refused: Vec<(u64, LineFault)>,
    rows: Vec<(usize, Group)>,
    ghost fit: { FitSomePlan (map row_of rows.items) } by { Prim.hlevel props },
}

// A function of its own: a derived one is written out, and proved, wherever groups are given up.
// What lies in one piece of memory goes before the many small pieces of the groups: behind these
// the allocator would look at each of them.
impl Drop for Groups {
    fn drop(self) {
        let Groups { refused, rows } = self;
        drop(refused);
        drop(rows);
    }
}

impl Model for Groups {
    ghost use Rattle.std.specs.Prelude.{map};
    ghost use Rattle.group_tables.specs.GroupRows.{row_of};
    ghost use Rattle.tables.specs.States.{GroupsState};

    ghost Value = { GroupsState };

    ghost view = { λ g. record { found = map row_of g.rows.items; refused = g.refused.items } };
}

impl Groups {
    /// These groups, which fit the plan of a query, and refused lines.
    pub(crate) fn new(rows: Vec<(usize, Group)>, refused: Vec<(u64, LineFault)>) -> Groups
        requires fit { FitSomePlan (map row_of rows.items) }
        ensures rows { result.found ≡ map row_of rows.items }
        ensures refused { result.refused ≡ refused.items }
    {
        Groups { refused, rows }
    }

    /// The groups, each with the index of its grouping set among those of the plan, from 0, in no
    /// order that is said.
    pub fn rows(&self) -> &[(usize, Group)]
        ensures rows { map row_of result.now ≡ self.now.found }
        ensures fit { FitSomePlan self.now.found }
    {
        self.rows.as_slice()
    }

    /// The refused lines, each by its number in the input, from 1, with its fault; ascending where
    /// no two pieces had one index.
    pub fn refused(&self) -> &[(u64, LineFault)]
        ensures { result.now ≡ self.now.refused }
    {
        self.refused.as_slice()
    }

    /// Gives the memory of the groups back; the executor does so.
    ///
    /// Example: `groups.give_back(&Parallel { rt: &rt, workers: 4, seed }, alloc)` does what
    /// `drop(groups)` does.
    pub fn give_back<E: Executor>(self, executor: &E, alloc: Global)
        requires ready { E.ready executor.now }
    {
        let Groups { refused, rows } = self;
        drop(refused);
        executor.perform(GiveBack { alloc, rows });
    }
}

/// Groups whose memory is to be given back.
#[derive(Drop)]
struct GiveBack {
    alloc: Global,
    rows: Vec<(usize, Group)>,
}

impl Operation for GiveBack {
    ghost use Rattle.std.specs.Prelude.{⊤};

    type Output = ();

    ghost can_run = { λ _. ⊤ };

    ghost can_give = { λ _ _. ⊤ };

    fn run_alone(self) {
        drop(self);
    }

    fn run_among<H: Threads + Sync>(self, rt: &H, hands: usize) {
        let GiveBack { alloc, mut rows } = self;
        if hands == 1 || rows.len() < PARALLEL_MIN_GROUPS {
            return;
        }
        thread::for_each_mut(
            rt,
            rows.as_mut_slice(),
            hands,
            &|_place: usize, row: &mut (usize, Group)| { empty(alloc, &mut row.1) },
        );
    }
}

/// Takes away what a group has, whose memory is given back.
fn empty(alloc: Global, group: &mut Group) {
    group.key = Vec::new(alloc);
    group.cells = Vec::new(alloc);
}
