//! The grouping sets of a query.

ghost use Rattle.std.specs.Prelude.{◌≡◌, map, if◌then◌else◌, IfOk};
ghost use Rattle.values.specs.Schema.{fields_of};
ghost use Rattle.query_ast.specs.Syntax.{element_form, units_form};
ghost use Rattle.semantics.specs.Names.{places_of};
ghost use Rattle.semantics.specs.Lists.{distinct};
ghost use Rattle.semantics.specs.Sets.{group_sets, ordered_set, same_columns};
ghost use Rattle.query_resolve.specs.Resolution.{contents, ordered_expansion};

use crate::grouping_columns::push_places;
use crate::product::Product;
use crate::repeats::apply_distinct;
use crate::union::{cube, one_set, ordered_set, ordered_sets, rollup};
use query_ast::{GroupingElement, Text};
use std::alloc::{AllocError, Global};
use values::Column;

/// The places of the columns of some names, in the order of the grouping columns.
fn places(
    alloc: Global,
    columns: &[Column],
    grouping: &[usize],
    names: &[Text],
) -> Result<Vec<usize>, AllocError>
    ensures { IfOk result (λ v.
        v.items ≡ ordered_set grouping.now (places_of (fields_of columns.now) names.now)) }
{
    let mut all = Vec::new(alloc);
    push_places(&mut all, columns, names)?;
    ordered_set(alloc, grouping, &all)
}

/// The places of the columns of the names of each unit, in the order of the grouping columns.
fn unit_places(
    alloc: Global,
    columns: &[Column],
    grouping: &[usize],
    units: &[Vec<Text>],
) -> Result<Vec<Vec<usize>>, AllocError>
    ensures { IfOk result (λ v. contents v.items ≡ map (ordered_set grouping.now)
        (map (places_of (fields_of columns.now)) (units_form units.now))) }
{
    let mut all = Vec::new(alloc);
    for unit in units {
        all.push(places(alloc, columns, grouping, unit)?)?;
    }
    Ok(all)
}

/// The sets that an element of GROUP BY stands for, each in the order of the grouping columns.
fn group_sets(
    alloc: Global,
    columns: &[Column],
    grouping: &[usize],
    group: &GroupingElement,
) -> Result<Vec<Vec<usize>>, AllocError>
    ensures { IfOk result (λ v. contents v.items ≡ map (ordered_set grouping.now)
        (map (places_of (fields_of columns.now)) (group_sets (element_form group.now)))) }
{
    match group {
        GroupingElement::Set(names) => { one_set(alloc, places(alloc, columns, grouping, names)?) }
        GroupingElement::Rollup(units) => {
            let units = unit_places(alloc, columns, grouping, units)?;
            ordered_sets(alloc, grouping, &rollup(alloc, &units)?)
        }
        GroupingElement::Cube(units) => {
            let units = unit_places(alloc, columns, grouping, units)?;
            ordered_sets(alloc, grouping, &cube(alloc, &units)?)
        }
        GroupingElement::Sets(groups) => {
            let mut sets = Vec::new(alloc);
            for group in groups {
                let mut more = group_sets(alloc, columns, grouping, group)?;
                sets.append(&mut more)?;
            }
            Ok(sets)
        }
    }
}

/// The expanded list of grouping sets, each set in the order of the grouping columns: the cross
/// product of the elements of GROUP BY, the leftmost varying slowest.
fn expand(
    alloc: Global,
    columns: &[Column],
    grouping: &[usize],
    groups: &[GroupingElement],
) -> Result<Vec<Vec<usize>>, AllocError>
    ensures { IfOk result (λ v. contents v.items
        ≡ ordered_expansion (fields_of columns.now) grouping.now (map element_form groups.now)) }
{
    let mut product = Product::new(alloc)?;
    for group in groups {
        product.cross(alloc, &group_sets(alloc, columns, grouping, group)?)?;
    }
    product.sets_in_order(alloc, grouping)
}

/// The grouping sets as places of columns, from 0, each in the order of these grouping columns: the
/// expanded list, and where they are to be distinct, that list without each set that has the same
/// columns as an earlier one, ISO/IEC 9075-2 `<group by clause>`. A name that is no column has no
/// place.
///
/// Example: `GROUP BY ROLLUP (r), d` stands under the columns `d:text,r:text` and the grouping
/// columns 1 and 0 for the sets of 1 and 0, and of 0.
///
/// # Errors
///
/// `AllocError` where memory was refused.
pub fn grouping_sets(
    alloc: Global,
    columns: &[Column],
    grouping: &[usize],
    distinct_sets: bool,
    groups: &[GroupingElement],
) -> Result<Vec<Vec<usize>>, AllocError>
    ensures { let all = ordered_expansion (fields_of columns.now) grouping.now
        (map element_form groups.now)
        in IfOk result (λ v.
        contents v.items ≡ (if distinct_sets then distinct same_columns all else all)) }
{
    let all = expand(alloc, columns, grouping, groups)?;
    apply_distinct(alloc, distinct_sets, all)
}
