//! What no clause says: that columns are read and values copied where memory is ample.

use std::process::Abort;
use std::test::Fail;
use values::{Column, Kind, Schema, SchemaFault, Value};

/// A schema text of five columns.
const FIVE_COLUMNS: &str = "d:text,r:text,q:int,u:int,v:bool";

fn has_the_five_columns(schema: &Schema) -> bool {
    let wanted = [
        ("d", Kind::Text),
        ("r", Kind::Text),
        ("q", Kind::Int),
        ("u", Kind::Int),
        ("v", Kind::Bool),
    ];
    let same = |column: &Column, name: &str, kind: Kind| column.name.as_str() == name
        && column.kind == kind;
    schema.columns().len() == wanted.len()
        && schema
            .columns()
            .iter()
            .zip(wanted.iter())
            .all(|(column, (name, kind))| same(column, name, *kind))
}

#[test]
fn parses_columns(rt: HostRuntime) -> Result<(), Fail> {
    let schema = Schema::parse(rt.alloc(), FIVE_COLUMNS)?;
    assert!(rt; has_the_five_columns(&schema), "{schema:?}");
    Ok(())
}

#[test]
fn clones_values(rt: HostRuntime) -> Result<(), Fail> {
    let value = Value::Text("it's".to_string(rt.alloc())?);
    assert!(rt; value.clone()? == value);
    Ok(())
}

/// For the loop that refuses each allocation in turn: the columns, or want of memory.
#[test]
fn refusal_of_parse(rt: HostRuntime) {
    match Schema::parse(rt.alloc(), FIVE_COLUMNS) {
        Ok(schema) => assert!(rt; has_the_five_columns(&schema), "{schema:?}"),
        Err(fault) => assert_eq!(rt; fault, SchemaFault::OutOfMemory),
    }
}

/// The same of a schema text that is refused: its fault, or want of memory.
#[test]
fn refusal_of_a_refused_text(rt: HostRuntime) {
    match Schema::parse(rt.alloc(), "d:text,r:text,d:int") {
        Ok(_) => panic!(rt; "taken"),
        Err(fault) => {
            assert!(rt; fault == SchemaFault::RepeatedName(3) || fault == SchemaFault::OutOfMemory)
        }
    }
}
