//! A plan as the rows of a report are shown under it.

ghost use Rattle.std.specs.Prelude.{◌≡◌};
ghost use Rattle.semantics.specs.SetFunctions.{functions_of};
ghost use Rattle.query_resolve.specs.Planning.{planned_forms};

use query_plan::{Plan, Query, SetFunction};
use query_resolve::{Planned, planned_functions, planned_place};
use std::alloc::{AllocError, Global};
use std::marker::Model;
use values::Schema;

/// A plan, and the different set functions of its query by their trees, which are looked up once
/// for all rows.
///
/// Example: one view serves all calls of this crate that make one report.
#[derive(Drop)]
pub struct PlanView<'a> {
    plan: &'a Plan,
    functions: Vec<Planned<'a>>,
    ghost functions_are: { ∥ planned_forms functions.items
        ≡ functions_of plan.now.fields plan.now.query ∥₁ },
}

impl<'a> Model for PlanView<'a> {
    ghost use Rattle.query_plan.specs.Planned.{PlannedQuery};
    ghost use Rattle.query_plan.specs.Coding.{coded_planned};

    ghost Value = { PlannedQuery };

    ghost coded = { coded_planned };

    ghost view = { λ v. v.plan.now };
}

impl<'a> PlanView<'a> {
    ghost use Rattle.std.specs.Prelude.{◌≡◌, IfOk};
    ghost use Rattle.semantics.specs.SetFunctions.{place_among};
    ghost use Rattle.query_ast.specs.Syntax.{function_form};
    ghost use Rattle.query_resolve.specs.Resolution.{contents};
    ghost use Rattle.semantics.specs.Sets.{sets_of};
    ghost use Rattle.query_typecheck.specs.Typing.{IsTyped};

    /// The view of a plan.
    ///
    /// Example: `PlanView::new(alloc, &plan)?` is asked for once, before the groups are put in
    /// order.
    ///
    /// # Errors
    ///
    /// `AllocError` where there is no memory for the list of set functions.
    pub fn new(alloc: Global, plan: &'a Plan) -> Result<PlanView<'a>, AllocError>
        ensures { IfOk result (λ view. view ≡ plan.now) }
    {
        let functions = planned_functions(alloc, plan.schema().columns(), plan.query().tree())?;
        Ok(PlanView { plan, functions })
    }

    /// The schema of the plan.
    pub(crate) fn schema(&self) -> &Schema
        ensures schema { result.now ≡ self.now.fields }
    {
        self.plan.schema()
    }

    /// The query of the plan.
    pub(crate) fn query(&self) -> &Query
        ensures query { result.now ≡ self.now.query }
        ensures typed { ∥ IsTyped self.now.fields self.now.query ∥₁ }
    {
        self.plan.query()
    }

    /// The grouping sets of the plan.
    pub(crate) fn sets(&self) -> &[Vec<usize>]
        ensures sets { contents result.now ≡ sets_of self.now.fields self.now.query }
    {
        self.plan.sets()
    }

    /// The place of a set function among those of the plan; `None` where it has no such function.
    /// It takes no memory.
    pub(crate) fn function_place(&self, function: &SetFunction) -> Option<usize>
        ensures { result ≡ place_among self.now.fields self.now.query (function_form function.now) }
    {
        planned_place(
            self.plan.schema().columns(),
            self.functions.as_slice(),
            function,
        )
    }
}
