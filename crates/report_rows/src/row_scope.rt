//! What the names of HAVING stand for.

ghost use Rattle.std.specs.Prelude.{◌≤◌, length};
ghost use Rattle.semantics.specs.SetFunctions.{functions_of};
ghost use Rattle.semantics.specs.Limits.{most_set_functions};

use crate::source::{ValueSource, name_source, source_of};
use crate::view::PlanView;
use query_eval::{OperandSource, Scope};
use query_plan::{Expression, Text};

/// The scope of HAVING for the rows of a grouping set: the values of a row are those of its key,
/// and behind them those of its cells.
#[derive(Drop)]
pub(crate) struct RowScope<'a, 'p> {
    pub plan: &'a PlanView<'p>,
    pub set: &'a [usize],
    ghost few: { length (functions_of plan.now.fields plan.now.query) ≤ most_set_functions },
}

impl RowScope<'_, '_> {
    ghost use Rattle.semantics.specs.Syntax as syntax;
    ghost use Rattle.query_eval.specs.Binding.{GivesExpression};
    ghost use Rattle.report_rows.specs.Inside.Having.{row_scope};
    ghost use Rattle.report_rows.specs.Inside.Sources.{IsSourceOf, IsWithin};

    /// Where the list of the values of a row has what is at a place of the row.
    fn value_source(&self, source: ValueSource) -> OperandSource
        requires { IsWithin (length self.now.set.now)
            (length (functions_of self.now.plan.now.fields self.now.plan.now.query)) source }
        ensures { (e : syntax.Expression) → IsSourceOf self.now.plan.now self.now.set.now e source
            → GivesExpression (row_scope self.now.plan.now self.now.set.now) e result }
    {
        match source {
            ValueSource::KeyAt(place) => OperandSource::Value(place),
            ValueSource::CellAt(place) => OperandSource::Value(self.set.len() + place),
            ValueSource::Always(value) => OperandSource::Literal(value),
        }
    }
}

impl Scope for RowScope<'_, '_> {
    ghost use Rattle.report_rows.specs.Inside.Having.{row_scope};

    ghost form = { λ scope. row_scope scope.plan.now scope.set.now };

    /// Where the value that the rows show for the column of a name is.
    fn name_source(&self, column: &Text) -> OperandSource {
        self.value_source(name_source(self.plan.schema().columns(), self.set, column))
    }

    /// Where the value that the rows show for an expression is.
    fn expression_source(&self, expression: &Expression) -> OperandSource {
        self.value_source(source_of(self.plan, self.set, expression))
    }
}
