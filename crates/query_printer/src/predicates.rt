//! Expressions and predicates, which hold one another.

ghost use Rattle.std.specs.Prelude.{◌≡◌, ◌++◌, codes, IfOk, map, OnOk, string_bytes};
ghost use Rattle.semantics.specs.Canonical.{bracketed_below, expression_text, function_text, separated_texts, operand_text, part_texts, predicate_text, precedence};
ghost use Rattle.query_ast.specs.Syntax.{expression_form, function_form, operand_form, predicate_form};
ghost use Rattle.semantics.specs.Syntax.{predicate_forms};

use crate::leaves::{
    push_aggregate, push_grouping, push_marked, push_membership, push_op, truth_text,
};
use crate::lists::Written;
use query_ast::{Expression, Operand, Predicate, SetFunction};
use query_lexer::push_name;
use std::alloc::{AllocError, Global};

/// The precedence of a predicate: that of OR is the lowest, then AND, NOT, a truth test, and an
/// atom the highest.
fn precedence(predicate: &Predicate) -> u32
    ensures { result ≡ precedence (predicate_form predicate.now) }
{
    match predicate {
        Predicate::Or(_) => 0,
        Predicate::And(_) => 1,
        Predicate::Not(_) => 2,
        Predicate::Is { .. } => 3,
        Predicate::Compare { .. }
        | Predicate::Between { .. }
        | Predicate::In { .. }
        | Predicate::IsNull { .. }
        | Predicate::Column(_) => 4,
    }
}

/// Writes an expression at the end.
#[cycle(push_expression)]
pub(crate) fn push_expression(out: &mut String, expression: &Expression) -> Result<(), AllocError>
    ensures { OnOk result (string_bytes out.new
        ≡ string_bytes out.old ++ expression_text (expression_form expression.now)) }
{
    match expression {
        Expression::Name(name) => push_name(out, name.as_str()),
        Expression::Grouping(names) => push_grouping(out, names),
        Expression::Function(function) => push_function(out, function),
    }
}

/// Writes a set function at the end, with its FILTER where it has one.
#[cycle(push_expression)]
fn push_function(out: &mut String, function: &SetFunction) -> Result<(), AllocError>
    ensures { OnOk result (string_bytes out.new
        ≡ string_bytes out.old ++ function_text (function_form function.now)) }
{
    push_aggregate(out, &function.aggregate)?;
    match &function.filter {
        None => Ok(()),
        Some(predicate) => push_filter(out, predicate),
    }
}

/// Writes the FILTER of a set function at the end.
#[cycle(push_expression)]
fn push_filter(out: &mut String, predicate: &Predicate) -> Result<(), AllocError>
    ensures { OnOk result (string_bytes out.new ≡ string_bytes out.old ++ (codes " FILTER (WHERE "
        ++ predicate_text (predicate_form predicate.now) ++ codes ")")) }
{
    out.push_str(" FILTER (WHERE ")?;
    push_predicate(out, predicate)?;
    out.push_str(")")
}

/// Writes an operand at the end.
#[cycle(push_expression)]
fn push_operand(out: &mut String, operand: &Operand) -> Result<(), AllocError>
    ensures { OnOk result (string_bytes out.new
        ≡ string_bytes out.old ++ operand_text (operand_form operand.now)) }
{
    match operand {
        Operand::Expression(expression) => push_expression(out, expression),
        Operand::Literal(literal) => literal.write(out),
    }
}

/// Writes a predicate at the end.
#[cycle(push_expression)]
pub(crate) fn push_predicate(out: &mut String, predicate: &Predicate) -> Result<(), AllocError>
    ensures { OnOk result (string_bytes out.new
        ≡ string_bytes out.old ++ predicate_text (predicate_form predicate.now)) }
{
    match predicate {
        Predicate::Or(parts) => push_parts(out, " OR ", 1, parts),
        Predicate::And(parts) => push_parts(out, " AND ", 2, parts),
        Predicate::Not(part) => {
            out.push_str("NOT ")?;
            push_part(out, 3, part)
        }
        Predicate::Is { part, not, truth } => {
            push_part(out, 4, part)?;
            push_marked(out, " IS ", *not, truth_text(*truth))
        }
        Predicate::Compare { left, op, right } => {
            push_operand(out, left)?;
            push_op(out, *op)?;
            push_operand(out, right)
        }
        Predicate::Between {
            operand,
            not,
            low,
            high,
        } => {
            push_operand(out, operand)?;
            push_marked(out, " ", *not, "BETWEEN ")?;
            push_operand(out, low)?;
            out.push_str(" AND ")?;
            push_operand(out, high)
        }
        Predicate::In {
            operand,
            not,
            literals,
        } => {
            push_operand(out, operand)?;
            push_membership(out, *not, literals)
        }
        Predicate::IsNull { operand, not } => {
            push_operand(out, operand)?;
            push_marked(out, " IS ", *not, "NULL")
        }
        Predicate::Column(name) => push_name(out, name.as_str()),
    }
}

/// Writes a part at the end, in brackets where its precedence is lower than its place asks.
#[cycle(push_expression)]
fn push_part(out: &mut String, least: u32, part: &Predicate) -> Result<(), AllocError>
    ensures { OnOk result (string_bytes out.new ≡ string_bytes out.old ++ bracketed_below least
        (precedence (predicate_form part.now)) (predicate_text (predicate_form part.now))) }
{
    if precedence(part) < least {
        out.push_str("(")?;
        push_predicate(out, part)?;
        return out.push_str(")");
    }
    push_predicate(out, part)
}

/// Writes parts at the end, with a keyword between each and the next.
#[cycle(push_expression)]
fn push_parts(
    out: &mut String,
    keyword: &str,
    least: u32,
    parts: &[Predicate],
) -> Result<(), AllocError>
    ensures { OnOk result (string_bytes out.new ≡ string_bytes out.old
        ++ separated_texts keyword.now
        (part_texts least (predicate_forms (map predicate_form parts.now)))) }
{
    let [first, others @ ..] = parts else {
        return Ok(());
    };
    push_part(out, least, first)?;
    for part in others {
        out.push_str(keyword)?;
        push_part(out, least, part)?;
    }
    Ok(())
}

/// The canonical text of a predicate, with brackets only where they are needed.
///
/// Example: of the predicate of `(a) and not (q = 1)` it answers `a AND NOT q = 1`.
///
/// # Errors
///
/// `AllocError` where there is no memory for the text.
pub fn predicate_text(alloc: Global, predicate: &Predicate) -> Result<String, AllocError>
    ensures { IfOk result (λ text.
        string_bytes text ≡ predicate_text (predicate_form predicate.now)) }
{
    let mut out = String::new(alloc);
    push_predicate(&mut out, predicate)?;
    Ok(out)
}
