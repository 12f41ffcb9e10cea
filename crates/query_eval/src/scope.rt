//! What the names of a predicate stand for.

ghost use Rattle.semantics.specs.Syntax.{name};
ghost use Rattle.query_ast.specs.Syntax.{expression_form};
ghost use Rattle.query_eval.specs.Binding.{GivesExpression, ScopeForm};

use crate::condition::OperandSource;
use query_ast::{Expression, Text};
use query_resolve::place_of;
use values::{Column, Value};

/// What the names and the other expressions of a clause stand for. A predicate is bound under a
/// scope once, and its condition is then evaluated for each list of values of the scope.
///
/// Example: in WHERE the name of a column stands for its value in a record.
pub trait Scope {
    ghost form: { Self → ScopeForm };

    /// Where the value of the column of a name comes from. It takes no memory.
    ///
    /// Example: in WHERE under the columns `a:bool,q:int` that of `q` is `OperandSource::Value(1)`.
    fn name_source(&self, column: &Text) -> OperandSource
        ensures { GivesExpression (form self.now) (name column.now) result };

    /// Where the value of an expression comes from. It takes no memory.
    ///
    /// Example: in WHERE that of a name is what `name_source` answers.
    fn expression_source(&self, expression: &Expression) -> OperandSource
        ensures { GivesExpression (form self.now) (expression_form expression.now) result };
}

/// The scope of WHERE and of FILTER: a record under these columns.
#[derive(Drop)]
pub(crate) struct RecordScope<'a> {
    pub columns: &'a [Column],
}

impl Scope for RecordScope<'_> {
    ghost use Rattle.values.specs.Schema.{fields_of};
    ghost use Rattle.query_eval.specs.Inside.Binding.{record_scope};

    ghost form = { λ scope. record_scope (fields_of scope.columns.now) };

    /// Where the value of a column comes from. What is no column has no value; typing lets none
    /// stand.
    fn name_source(&self, column: &Text) -> OperandSource {
        match place_of(self.columns, column.as_str()) {
            Some(place) => OperandSource::Value(place),
            None => OperandSource::Literal(Value::Null),
        }
    }

    /// Where the value of an expression comes from. No GROUPING and no set function has one in
    /// WHERE; typing lets none stand there.
    fn expression_source(&self, expression: &Expression) -> OperandSource {
        match expression {
            Expression::Name(column) => self.name_source(column),
            Expression::Grouping(_) | Expression::Function(_) => OperandSource::Literal(
                Value::Null,
            ),
        }
    }
}
