//! How many sets GROUP BY stands for.

ghost use Rattle.std.specs.Prelude.{◌≡◌, length, map, min};
ghost use Rattle.query_ast.specs.Syntax.{element_form};
ghost use Rattle.semantics.specs.Sets.{expansion, group_sets};

use query_ast::GroupingElement;

/// How many sets an element of GROUP BY stands for, or the greatest number of 64 bits where they
/// are more.
fn count_group(group: &GroupingElement) -> u64
    ensures { result ≡ min (length (group_sets (element_form group.now))) u64.MAX }
{
    match group {
        GroupingElement::Set(_) => 1,
        GroupingElement::Rollup(units) => (units.len() as u64).saturating_add(1),
        GroupingElement::Cube(units) => {
            let mut count: u64 = 1;
            for _unit in units {
                count = count.saturating_mul(2);
            }
            count
        }
        GroupingElement::Sets(groups) => {
            let mut count: u64 = 0;
            for group in groups {
                count = count.saturating_add(count_group(group));
            }
            count
        }
    }
}

/// How many sets GROUP BY stands for before DISTINCT drops any, or the greatest number of 64 bits
/// where they are more, ISO/IEC 9075-2 `<group by clause>`. Without GROUP BY that is 1. No set is
/// made, and no memory is taken.
///
/// Example: `GROUP BY a, ROLLUP (b, c), CUBE (d, e)` stands for 1 times 3 times 4 sets, which are
/// 12.
pub fn set_count(groups: &[GroupingElement]) -> u64
    ensures { result ≡ min (length (expansion (map element_form groups.now))) u64.MAX }
{
    let mut count: u64 = 1;
    for group in groups {
        count = count.saturating_mul(count_group(group));
    }
    count
}
