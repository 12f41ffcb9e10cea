//! The elements of GROUP BY.

ghost use Rattle.std.specs.Prelude.{◌≡◌, ◌++◌, codes, map, OnOk, string_bytes};
ghost use Rattle.semantics.specs.Canonical.{comma_list, group_text, group_texts, in_brackets, unit_text};
ghost use Rattle.query_ast.specs.Syntax.{element_form};
ghost use Rattle.semantics.specs.Syntax.{element_forms};

use crate::lists::{Written, write_list};
use query_ast::{GroupingElement, Text};
use query_lexer::push_name;
use std::alloc::AllocError;

/// A set or a unit: one name is that name, all else stands in brackets.
impl Written for Vec<Text> {
    ghost use Rattle.std.specs.Prelude.{ℕ, List};
    ghost use Rattle.semantics.specs.Canonical.{unit_text};

    ghost Form = { List (List ℕ) };

    ghost form = { λ unit. unit.items };

    ghost text = { unit_text };

    fn write(&self, out: &mut String) -> Result<(), AllocError> {
        if let [name] = self.as_slice() {
            return push_name(out, name.as_str());
        }
        out.push_str("(")?;
        write_list(out, self)?;
        out.push_str(")")
    }
}

/// Writes the units of a ROLLUP or a CUBE at the end, between this opening and a bracket.
fn push_units(out: &mut String, opening: &str, units: &[Vec<Text>]) -> Result<(), AllocError>
    ensures { OnOk result (string_bytes out.new ≡ string_bytes out.old ++ (opening.now
        ++ comma_list (map unit_text (map (λ unit. unit.items) units.now)) ++ codes ")")) }
{
    out.push_str(opening)?;
    write_list(out, units)?;
    out.push_str(")")
}

/// Writes an element of GROUP BY at the end.
#[cycle(push_group)]
pub(crate) fn push_group(out: &mut String, group: &GroupingElement) -> Result<(), AllocError>
    ensures { OnOk result (string_bytes out.new
        ≡ string_bytes out.old ++ group_text (element_form group.now)) }
{
    match group {
        GroupingElement::Set(names) => names.write(out),
        GroupingElement::Rollup(units) => push_units(out, "ROLLUP (", units),
        GroupingElement::Cube(units) => push_units(out, "CUBE (", units),
        GroupingElement::Sets(groups) => {
            out.push_str("GROUPING SETS ")?;
            push_bracketed(out, groups)
        }
    }
}

/// Writes elements of GROUPING SETS at the end, in brackets.
#[cycle(push_group)]
fn push_bracketed(out: &mut String, groups: &[GroupingElement]) -> Result<(), AllocError>
    ensures { OnOk result (string_bytes out.new ≡ string_bytes out.old
        ++ in_brackets (comma_list (group_texts (element_forms (map element_form groups.now))))) }
{
    out.push_str("(")?;
    push_groups(out, groups)?;
    out.push_str(")")
}

/// Writes elements of GROUP BY at the end, with commas.
#[cycle(push_group)]
pub(crate) fn push_groups(out: &mut String, groups: &[GroupingElement]) -> Result<(), AllocError>
    ensures { OnOk result (string_bytes out.new ≡ string_bytes out.old
        ++ comma_list (group_texts (element_forms (map element_form groups.now)))) }
{
    let [first, others @ ..] = groups else {
        return Ok(());
    };
    push_group(out, first)?;
    for group in others {
        out.push_str(", ")?;
        push_group(out, group)?;
    }
    Ok(())
}
