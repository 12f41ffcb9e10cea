//! The places of the columns that GROUP BY names.

ghost use Rattle.std.specs.Prelude.{◌≡◌, ◌++◌, ◌==◌, map, IfOk, OnOk};
ghost use Rattle.std.specs.List.{flat_map};
ghost use Rattle.values.specs.Schema.{fields_of};
ghost use Rattle.query_ast.specs.Syntax.{element_form, units_form};
ghost use Rattle.semantics.specs.Names.{group_names, places_of};
ghost use Rattle.semantics.specs.Lists.{distinct};

use crate::columns::place_of;
use query_ast::{GroupingElement, Text};
use std::alloc::{AllocError, Global};
use values::Column;

/// Adds the places of the columns of some names.
pub(crate) fn push_places(
    places: &mut Vec<usize>,
    columns: &[Column],
    names: &[Text],
) -> Result<(), AllocError>
    ensures { OnOk result (places.new.items
        ≡ places.old.items ++ places_of (fields_of columns.now) names.now) }
{
    for name in names {
        if let Some(place) = place_of(columns, name.as_str()) {
            places.push(place)?;
        }
    }
    Ok(())
}

/// Adds the places of the columns of the names in some units.
fn push_unit_places(
    places: &mut Vec<usize>,
    columns: &[Column],
    units: &[Vec<Text>],
) -> Result<(), AllocError>
    ensures { OnOk result (places.new.items ≡ places.old.items
        ++ places_of (fields_of columns.now) (flat_map (λ unit. unit) (units_form units.now))) }
{
    for unit in units {
        push_places(places, columns, unit)?;
    }
    Ok(())
}

/// Adds the places of the columns of the names in an element of GROUP BY.
fn push_group_places(
    places: &mut Vec<usize>,
    columns: &[Column],
    group: &GroupingElement,
) -> Result<(), AllocError>
    ensures { OnOk result (places.new.items ≡ places.old.items
        ++ places_of (fields_of columns.now) (group_names (element_form group.now))) }
{
    match group {
        GroupingElement::Set(names) => push_places(places, columns, names),
        GroupingElement::Rollup(units) => push_unit_places(places, columns, units),
        GroupingElement::Cube(units) => push_unit_places(places, columns, units),
        GroupingElement::Sets(groups) => {
            for group in groups {
                push_group_places(places, columns, group)?;
            }
            Ok(())
        }
    }
}

/// The places without repeats, each where it first stands.
fn distinct_places(alloc: Global, places: &[usize]) -> Result<Vec<usize>, AllocError>
    ensures { IfOk result (λ v. v.items ≡ distinct (λ a b. a == b) places.now) }
{
    let mut found = Vec::new(alloc);
    for place in places {
        if !found.contains(place) {
            found.push(*place)?;
        }
    }
    Ok(found)
}

/// The places of the grouping columns, from 0, in the order in which GROUP BY first names them,
/// each once. A name that is no column has no place.
///
/// Example: of `GROUP BY r, ROLLUP (d, r)` under the columns `d:text,r:text` they are 1 and 0.
///
/// # Errors
///
/// `AllocError` where memory was refused.
pub fn grouping_places(
    alloc: Global,
    columns: &[Column],
    groups: &[GroupingElement],
) -> Result<Vec<usize>, AllocError>
    ensures { IfOk result (λ v. v.items ≡ distinct (λ a b. a == b)
        (places_of (fields_of columns.now) (flat_map group_names (map element_form groups.now)))) }
{
    let mut places = Vec::new(alloc);
    for group in groups {
        push_group_places(&mut places, columns, group)?;
    }
    distinct_places(alloc, &places)
}
