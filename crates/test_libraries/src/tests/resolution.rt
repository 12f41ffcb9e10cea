//! What no clause says: that a query is checked and resolved where memory is ample.

use query::QueryFault;
use query_ast::{Aggregate, Expression, GroupingElement, Item, SetFunction, Text, Tree};
use query_resolve::{ColumnFunction, FilteredFunction, set_count};
use query_typecheck::check_tree;
use std::alloc::{AllocError, Global};
use std::test::Fail;
use values::Schema;

fn names(alloc: Global, texts: &[&str]) -> Result<Vec<Text>, AllocError> {
    let mut all = Vec::new(alloc);
    for text in texts {
        all.push(Text::from_string(text.to_string(alloc)?))?;
    }
    Ok(all)
}

fn units(alloc: Global, texts: &[&str]) -> Result<Vec<Vec<Text>>, AllocError> {
    let mut all = Vec::new(alloc);
    for text in texts {
        all.push(names(alloc, &[text])?)?;
    }
    Ok(all)
}

/// `SELECT COUNT(*) FROM lines GROUP BY GROUPING SETS (ROLLUP (d, r), CUBE (r), (d,
/// d))`, with DISTINCT behind GROUP BY or without it.
fn counting(alloc: Global, distinct_sets: bool) -> Result<Tree, AllocError> {
    let mut sets = Vec::new(alloc);
    sets.push(GroupingElement::Rollup(units(alloc, &["d", "r"])?))?;
    sets.push(GroupingElement::Cube(units(alloc, &["r"])?))?;
    sets.push(GroupingElement::Set(names(alloc, &["d", "d"])?))?;
    let mut groups = Vec::new(alloc);
    groups.push(GroupingElement::Sets(sets))?;
    let function = SetFunction {
        aggregate: Aggregate::CountRows,
        filter: None,
    };
    let mut items = Vec::new(alloc);
    items.push(Item {
        expression: Expression::Function(Box::new(alloc, function)?),
        alias: None,
    })?;
    Ok(Tree {
        items,
        where_condition: None,
        distinct_sets,
        groups,
        having_condition: None,
        keys: Vec::new(alloc),
    })
}

#[test]
fn resolves_a_query(rt: HostRuntime) -> Result<(), Fail> {
    let alloc = rt.alloc();
    let tree = counting(alloc, false)?;
    let schema = Schema::parse(alloc, "q:int,d:text,r:text")?;
    let resolved = check_tree(alloc, &tree, &schema)?;
    assert_eq!(rt; resolved.grouping(), [1, 2].as_slice());
    let wanted: [&[usize]; 6] = [&[1, 2], &[1], &[], &[2], &[], &[1]];
    assert_eq!(rt; resolved.sets().len() as u64, set_count(&tree.groups));
    assert_eq!(rt; resolved.sets().len(), wanted.len());
    for (set, wanted) in resolved.sets().iter().zip(wanted) {
        assert_eq!(rt; set.as_slice(), wanted);
    }
    assert_eq!(rt;
        resolved.functions(),
        [FilteredFunction {
            function: ColumnFunction::CountRows,
            filter: None
        }]
        .as_slice()
    );
    Ok(())
}

/// Whether these are the different grouping sets of that query.
fn are_distinct_sets(sets: &[Vec<usize>]) -> bool {
    match sets {
        [both, first, none, second] => {
            both.as_slice() == [1, 2].as_slice()
                && first.as_slice() == [1].as_slice()
                && none.is_empty()
                && second.as_slice() == [2].as_slice()
        }
        _ => false,
    }
}

#[test]
fn resolves_distinct_sets(rt: HostRuntime) -> Result<(), Fail> {
    let alloc = rt.alloc();
    let tree = counting(alloc, true)?;
    let schema = Schema::parse(alloc, "q:int,d:text,r:text")?;
    let resolved = check_tree(alloc, &tree, &schema)?;
    assert_eq!(rt; set_count(&tree.groups), 6);
    assert!(rt; are_distinct_sets(resolved.sets()));
    Ok(())
}

/// For the loop that refuses each allocation in turn: the different grouping sets, or want of
/// memory.
#[test]
fn refusal_of_distinct_sets(rt: HostRuntime) {
    let alloc = rt.alloc();
    let Ok(tree) = counting(alloc, true) else {
        return;
    };
    if let Ok(schema) = Schema::parse(alloc, "q:int,d:text,r:text") {
        match check_tree(alloc, &tree, &schema) {
            Ok(resolved) => assert!(rt; are_distinct_sets(resolved.sets())),
            Err(fault) => assert!(rt; is_out_of_memory(&fault), "{fault:?}"),
        }
    }
    drop(tree);
}

fn is_out_of_memory(fault: &QueryFault) -> bool {
    matches!(fault, QueryFault::OutOfMemory)
}
