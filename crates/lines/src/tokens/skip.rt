//! Skipping a JSON value that no column takes.

ghost use Rattle.std.specs.Prelude.{◌<◌, length, IfSome};
ghost use Rattle.serde_json.specs.Data.{Data, Items, Members};
ghost use Rattle.lines_json.specs.Meant.{AreItems, AreMembers, IsValue};

use json::{Reader, Token};
use lines_json::has_value;

/// Skips a JSON value that nests at most `depth` deep; `None` says nothing of the tokens.
#[cycle(skip_value)]
pub(crate) fn skip_value(reader: &mut Reader<'_>, depth: usize) -> Option<()>
    ensures passed { IfSome result (λ _. (d : Data) × IsValue depth reader.old d reader.new) }
    ensures shorter { IfSome result (λ _. length reader.new < length reader.old) }
{
    match reader.next()? {
        Token::String(_) | Token::Bool(_) | Token::Null => Some(()),
        Token::Number(text) if has_value(text.as_bytes()) => Some(()),
        Token::BeginArray if depth > 0 => skip_items(reader, depth - 1),
        Token::BeginObject if depth > 0 => skip_members(reader, depth - 1),
        _ => None,
    }
}

/// Skips the items of an array, up to its closing bracket.
#[cycle(skip_value)]
fn skip_items(reader: &mut Reader<'_>, depth: usize) -> Option<()>
    ensures passed { IfSome result (λ _. (ds : Items) × AreItems depth reader.old ds reader.new) }
    ensures shorter { IfSome result (λ _. length reader.new < length reader.old) }
{
    'items: while !reader.take_end_array() {
        skip_value(reader, depth)?;
    }
    Some(())
}

/// Skips the members of an object, up to its closing brace.
#[cycle(skip_value)]
fn skip_members(reader: &mut Reader<'_>, depth: usize) -> Option<()>
    ensures passed { IfSome result (λ _.
        (ms : Members) × AreMembers depth reader.old ms reader.new) }
    ensures shorter { IfSome result (λ _. length reader.new < length reader.old) }
{
    'members: while let Some(_) = reader.next_key().ok()? {
        skip_value(reader, depth)?;
    }
    Some(())
}
