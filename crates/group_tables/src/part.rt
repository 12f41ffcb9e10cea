//! What a group takes.

ghost use Rattle.std.specs.Prelude.{◌≡◌, Some, OnOk};
ghost use Rattle.group_tables.specs.Inside.Table.{IsTaken, group_with_part};

use crate::accumulators::Accumulators;
use crate::memory::Memory;
use query_resolve::FilteredFunction;
use std::alloc::AllocError;
use values::Value;

/// A part of a group, which a group takes.
#[derive(Clone, Copy)]
pub(crate) enum Part<'a> {
    /// One member, by its values, and the marks that say which filters keep it.
    Record(&'a [Value], &'a [bool]),
    /// What is kept of some members, of which copies are taken.
    Copies(&'a Accumulators),
}

impl Part<'_> {
    /// Puts it to a group. After an error the group is of no use.
    pub(crate) fn put_to(
        self,
        memory: Memory,
        group: &mut Accumulators,
        functions: &[FilteredFunction],
    ) -> Result<(), AllocError>
        requires { IsTaken functions.now (Some group.old) self }
        ensures { OnOk result (group.new
            ≡ group_with_part functions.now (Some group.old) self.entry) }
    {
        match self {
            Part::Record(row, marks) => group.add(memory, functions, marks, row),
            Part::Copies(members) => group.absorb_copies(memory, members),
        }
    }
}
