//! The names in GROUP BY.

ghost use Rattle.std.specs.Prelude.{◌≡◌, map};
ghost use Rattle.std.specs.List.{flat_map};
ghost use Rattle.values.specs.Schema.{fields_of};
ghost use Rattle.query_ast.specs.Syntax.{element_form, units_form};
ghost use Rattle.semantics.specs.Names.{group_names};
ghost use Rattle.query_typecheck.specs.FirstFaults.{Answers, column_fault, first_fault};

use crate::types::check_column;
use query_ast::{GroupingElement, Text};
use semantics::QueryFault;
use values::Column;

/// Whether columns have these names.
fn check_columns(columns: &[Column], names: &[Text]) -> Result<(), QueryFault>
    ensures fault { Answers result (first_fault (column_fault (fields_of columns.now)) names.now) }
{
    for name in names {
        check_column(columns, name)?;
    }
    Ok(())
}

/// Whether columns have the names in some units.
fn check_units(columns: &[Column], units: &[Vec<Text>]) -> Result<(), QueryFault>
    ensures fault { Answers result (first_fault (column_fault (fields_of columns.now))
        (flat_map (λ unit. unit) (units_form units.now))) }
{
    for unit in units {
        check_columns(columns, unit)?;
    }
    Ok(())
}

/// Whether columns have the names in an element of GROUP BY.
fn check_group(columns: &[Column], group: &GroupingElement) -> Result<(), QueryFault>
    ensures fault { Answers result (first_fault (column_fault (fields_of columns.now))
        (group_names (element_form group.now))) }
{
    match group {
        GroupingElement::Set(names) => check_columns(columns, names),
        GroupingElement::Rollup(units) => check_units(columns, units),
        GroupingElement::Cube(units) => check_units(columns, units),
        GroupingElement::Sets(groups) => {
            for group in groups {
                check_group(columns, group)?;
            }
            Ok(())
        }
    }
}

/// Whether columns have the names in GROUP BY.
pub(crate) fn check_groups(columns: &[Column], groups: &[GroupingElement]) -> Result<(), QueryFault>
    ensures fault { Answers result (first_fault (column_fault (fields_of columns.now))
        (flat_map group_names (map element_form groups.now))) }
{
    for group in groups {
        check_group(columns, group)?;
    }
    Ok(())
}
