//! The leaves of expressions and predicates.

ghost use Rattle.std.specs.Prelude.{◌≡◌, ◌++◌, codes, map, OnOk, string_bytes};
ghost use Rattle.semantics.specs.Canonical.{aggregate_text, comma_list, in_brackets, literal_text, names_text, op_text, not_text, truth_text};
ghost use Rattle.semantics.specs.Words.{name_text};

use crate::lists::{Written, write_list};
use itoa::Buffer;
use query_ast::{Aggregate, Literal, Text};
use query_lexer::{push_name, push_quoted};
use std::alloc::AllocError;
use values::{Op, Truth};

impl Written for Text {
    ghost use Rattle.std.specs.Prelude.{ℕ, List};
    ghost use Rattle.semantics.specs.Words.{name_text};

    ghost Form = { List ℕ };

    ghost form = { λ n. n };

    ghost text = { name_text };

    fn write(&self, out: &mut String) -> Result<(), AllocError> {
        push_name(out, self.as_str())
    }
}

/// Writes a function of one column at the end.
fn push_call(out: &mut String, opening: &str, column: &Text) -> Result<(), AllocError>
    ensures { OnOk result (string_bytes out.new
        ≡ string_bytes out.old ++ (opening.now ++ name_text column.now ++ codes ")")) }
{
    out.push_str(opening)?;
    push_name(out, column.as_str())?;
    out.push_str(")")
}

/// Writes a set function at the end.
pub(crate) fn push_aggregate(out: &mut String, aggregate: &Aggregate) -> Result<(), AllocError>
    ensures { OnOk result (string_bytes out.new
        ≡ string_bytes out.old ++ aggregate_text aggregate.now) }
{
    match aggregate {
        Aggregate::CountRows => out.push_str("COUNT(*)"),
        Aggregate::Count(column) => push_call(out, "COUNT(", column),
        Aggregate::CountDistinct(column) => push_call(out, "COUNT(DISTINCT ", column),
        Aggregate::Sum(column) => push_call(out, "SUM(", column),
        Aggregate::Min(column) => push_call(out, "MIN(", column),
        Aggregate::Max(column) => push_call(out, "MAX(", column),
        Aggregate::Avg(column) => push_call(out, "AVG(", column),
    }
}

/// Writes GROUPING of these names at the end.
pub(crate) fn push_grouping(out: &mut String, names: &[Text]) -> Result<(), AllocError>
    ensures { OnOk result (string_bytes out.new
        ≡ string_bytes out.old ++ (codes "GROUPING(" ++ names_text names.now ++ codes ")")) }
{
    out.push_str("GROUPING(")?;
    write_list(out, names)?;
    out.push_str(")")
}

/// A whole number is written in decimal, a text between apostrophes, a truth value as its keyword.
impl Written for Literal {
    ghost use Rattle.semantics.specs.declared.literal.Literal.{Literal};
    ghost use Rattle.semantics.specs.Canonical.{literal_text};

    ghost Form = { Literal };

    ghost form = { λ a. a };

    ghost text = { literal_text };

    fn write(&self, out: &mut String) -> Result<(), AllocError> {
        match self {
            Literal::Integer(number) => {
                let mut digits = Buffer::new();
                out.push_str(digits.format(*number))
            }
            Literal::Text(text) => push_quoted(out, text.as_str(), '\''),
            Literal::Truth(true) => out.push_str("TRUE"),
            Literal::Truth(false) => out.push_str("FALSE"),
        }
    }
}

/// The sign of an operator.
fn op_text(op: Op) -> &'static str
    ensures { result.now ≡ op_text op }
{
    match op {
        Op::Eq => "=",
        Op::Ne => "<>",
        Op::Lt => "<",
        Op::Le => "<=",
        Op::Gt => ">",
        Op::Ge => ">=",
    }
}

/// Writes the sign of an operator at the end, between spaces.
pub(crate) fn push_op(out: &mut String, op: Op) -> Result<(), AllocError>
    ensures { OnOk result (string_bytes out.new
        ≡ string_bytes out.old ++ (codes " " ++ op_text op ++ codes " ")) }
{
    out.push_str(" ")?;
    out.push_str(op_text(op))?;
    out.push_str(" ")
}

/// The keyword of a truth value.
pub(crate) fn truth_text(truth: Truth) -> &'static str
    ensures { result.now ≡ truth_text truth }
{
    match truth {
        Truth::True => "TRUE",
        Truth::False => "FALSE",
        Truth::Unknown => "UNKNOWN",
    }
}

/// NOT, where it is written.
fn not_text(not: bool) -> &'static str
    ensures { result.now ≡ not_text not }
{
    if not { "NOT " } else { "" }
}

/// Writes NOT at the end, where it is written, between two texts.
pub(crate) fn push_marked(
    out: &mut String,
    before: &str,
    not: bool,
    behind: &str,
) -> Result<(), AllocError>
    ensures { OnOk result (string_bytes out.new
        ≡ string_bytes out.old ++ (before.now ++ not_text not ++ behind.now)) }
{
    out.push_str(before)?;
    out.push_str(not_text(not))?;
    out.push_str(behind)
}

/// Writes IN at the end, with NOT where it is written, and the literals in brackets.
pub(crate) fn push_membership(
    out: &mut String,
    not: bool,
    literals: &[Literal],
) -> Result<(), AllocError>
    ensures { OnOk result (string_bytes out.new ≡ string_bytes out.old ++ (codes " " ++ not_text not
        ++ codes "IN " ++ in_brackets (comma_list (map literal_text literals.now)))) }
{
    push_marked(out, " ", not, "IN (")?;
    write_list(out, literals)?;
    out.push_str(")")
}
