//! The groups of a part, put to a partial result as they come.

ghost use Rattle.std.specs.Option.{option_copied};
ghost use Rattle.std.specs.Prelude.{◌≡◌, ◌-◌, ◌++◌, ◌∷◌, [], ℕ, IfOk, List, None, OnOk, Some, option_map};
ghost use Rattle.values.specs.GroupStates.{entry_of};
ghost use Rattle.semantics.specs.Parts.{group_values, text_of};
ghost use Rattle.part_lines.specs.Known.{IsGroupFor};
ghost use Rattle.parts.specs.Inside.Hashing.{HoldsText};
ghost use Rattle.tables.specs.Contents.{DiffersInGroups};
ghost use Rattle.tables.specs.Sound.{IsSoundUnder};
ghost use Rattle.values.specs.Datum.{data_of};
ghost use Rattle.parts.specs.ReadingParts.{shape_under};

use crate::checksum::TextHasher;
use crate::put_group::put_last;
use query_plan::Plan;
use std::alloc::{AllocError, Global};
use tables::Partial;
use values::{GroupEntry, Value};

/// The groups of a part that were read so far.
#[derive(Drop)]
pub(crate) struct Gathering {
    /// The result that has them, but for the last one.
    pub(crate) partial: Partial,
    /// The last one, behind which the next one has to be.
    pub(crate) last: Option<GroupEntry>,
    /// What was given the text of the part so far.
    pub(crate) hasher: TextHasher,
    /// How many members the next ones may have.
    pub(crate) left: u64,
}

impl Gathering {
    ghost use Rattle.parts.specs.Inside.Gathering.{IsGathering, groups_of, key_of};

    /// The key of the last group.
    pub(crate) fn last_key(&self) -> Option<&[Value]>
        ensures { option_map data_of (option_copied result) ≡ option_map key_of self.now.last }
    {
        match &self.last {
            Some(group) => Some(group.key.as_slice()),
            None => None,
        }
    }

    /// These groups and one more, which fits behind them.
    pub(crate) fn with_group(
        self,
        alloc: Global,
        plan: &Plan,
        group: GroupEntry,
    ) -> Result<Gathering, AllocError>
        requires gathering { IsGathering plan.now self }
        requires fits { IsGroupFor (shape_under plan.now.fields plan.now.query)
            (option_map key_of self.last) self.left (entry_of group) }
        ensures gathering { IfOk result (IsGathering plan.now) }
        ensures groups { IfOk result (λ next.
            groups_of next ≡ groups_of self ++ entry_of group ∷ []) }
        ensures last { IfOk result (λ next. next.last ≡ Some group) }
        ensures left { IfOk result (λ next. next.left ≡ self.left - group.members) }
        ensures hashed { IfOk result (λ next. (bytes : List ℕ) → HoldsText self.hasher bytes
            → HoldsText next.hasher (bytes ++ text_of (group_values (entry_of group)))) }
        ensures others { IfOk result (λ next. DiffersInGroups self.partial next.partial) }
    {
        let Gathering {
            partial,
            last,
            mut hasher,
            left,
        } = self;
        let partial = put_last(plan, partial, last, left)?;
        hasher.push_group(alloc, &group)?;
        let left = left - group.members;
        Ok(Gathering {
            partial,
            last: Some(group),
            hasher,
            left,
        })
    }

    /// The same groups, all put to the result.
    pub(crate) fn closed(self, plan: &Plan) -> Result<Gathering, AllocError>
        requires gathering { IsGathering plan.now self }
        ensures sound { IfOk result (λ next. IsSoundUnder plan.now next.partial) }
        ensures groups { IfOk result (λ next. groups_of next ≡ groups_of self) }
        ensures last { IfOk result (λ next. next.last ≡ None) }
        ensures hasher { IfOk result (λ next. next.hasher ≡ self.hasher) }
        ensures others { IfOk result (λ next. DiffersInGroups self.partial next.partial) }
    {
        let Gathering {
            partial,
            last,
            hasher,
            left,
        } = self;
        let partial = put_last(plan, partial, last, left)?;
        Ok(Gathering {
            partial,
            last: None,
            hasher,
            left,
        })
    }
}
