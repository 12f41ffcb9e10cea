//! Values and groups, written as lines.

ghost use Rattle.std.specs.Prelude.{◌≡◌, [], ◌∷◌, ◌++◌, ℕ, OnErr, OnOk, take};
ghost use Rattle.semantics.specs.Lines.{line_feed};
ghost use Rattle.semantics.specs.Values as semantics;
ghost use Rattle.values.specs.Datum.{datum_of, data_of};
ghost use Rattle.semantics.specs.Parts.{line_of, text_of, group_values, groups_values, state_values};
ghost use Rattle.part_lines.specs.Inside.LineValues.{count_values};
ghost use Rattle.values.specs.GroupStates.{entries_of, entry_of, state_of};

use crate::strings::{has_no_escape, json_string};
use itoa::Buffer;
use std::alloc::{AllocError, Global};
use values::{GroupEntry, State, Value};

/// Puts the line of a value behind a text.
///
/// Example: of the text `a"b` it is `"a\"b"` and a line feed.
///
/// # Errors
///
/// `AllocError` where there is no memory for the line. The first bytes of it may stand behind the
/// text then.
pub fn push_value(alloc: Global, text: &mut Vec<u8>, value: &Value) -> Result<(), AllocError>
    ensures behind { OnOk result (text.new.items ≡ text.old.items ++ line_of (datum_of value.now)) }
    ensures front { OnErr result ((count : ℕ)
        × (text.new.items ≡ text.old.items ++ take count (line_of (datum_of value.now)))) }
{
    match value {
        Value::Bool(true) => push_line(text, b"true"),
        Value::Bool(false) => push_line(text, b"false"),
        Value::Int(number) => push_line(text, Buffer::new().format(*number).as_bytes()),
        Value::Text(string) => push_string(alloc, text, string.as_str()),
        Value::Null => push_line(text, b"null"),
    }
}

/// Puts the line of a text behind others.
fn push_string(alloc: Global, text: &mut Vec<u8>, string: &str) -> Result<(), AllocError>
    ensures behind { OnOk result (text.new.items
        ≡ text.old.items ++ line_of (semantics.text string.now)) }
    ensures front { OnErr result ((count : ℕ) × (text.new.items
        ≡ text.old.items ++ take count (line_of (semantics.text string.now)))) }
{
    if has_no_escape(string) {
        text.push(b'"')?;
        text.extend_from_slice(string.as_bytes())?;
        return push_line(text, b"\"");
    }
    push_line(text, json_string(alloc, string)?.as_slice())
}

/// Puts bytes and a line feed behind a text.
fn push_line(text: &mut Vec<u8>, line: &[u8]) -> Result<(), AllocError>
    ensures behind { OnOk result (text.new.items ≡ text.old.items ++ line.now ++ line_feed ∷ []) }
    ensures front { OnErr result ((count : ℕ)
        × (text.new.items ≡ text.old.items ++ take count (line.now ++ line_feed ∷ []))) }
{
    text.extend_from_slice(line)?;
    text.push(b'\n')?;
    Ok(())
}

/// Puts the line of a count behind a text.
fn push_count(alloc: Global, text: &mut Vec<u8>, count: u64) -> Result<(), AllocError>
    ensures { OnOk result (text.new.items ≡ text.old.items ++ text_of (count_values count)) }
{
    push_value(alloc, text, &Value::Int(i128::from(count)))
}

/// Puts the lines of values behind a text.
fn push_values(alloc: Global, text: &mut Vec<u8>, values: &[Value]) -> Result<(), AllocError>
    ensures { OnOk result (text.new.items ≡ text.old.items ++ text_of (data_of values.now)) }
{
    for value in values {
        push_value(alloc, text, value)?;
    }
    Ok(())
}

/// Puts the lines of a state behind a text.
fn push_state(alloc: Global, text: &mut Vec<u8>, state: &State) -> Result<(), AllocError>
    ensures { OnOk result (text.new.items
        ≡ text.old.items ++ text_of (state_values (state_of state.now))) }
{
    match state {
        State::Rows => Ok(()),
        State::Count(count) => push_count(alloc, text, *count),
        State::Sum(sum, count) => {
            push_value(alloc, text, &Value::Int(*sum))?;
            push_count(alloc, text, *count)
        }
        State::Extreme(value) => push_value(alloc, text, value),
        State::Distinct(values) => {
            push_count(alloc, text, values.len() as u64)?;
            push_values(alloc, text, values.as_slice())
        }
    }
}

/// Puts the lines of a group behind a text.
///
/// # Errors
///
/// `AllocError` where there is no memory for them. A part of them may stand behind the text then.
pub fn push_group(alloc: Global, text: &mut Vec<u8>, group: &GroupEntry) -> Result<(), AllocError>
    ensures { OnOk result (text.new.items
        ≡ text.old.items ++ text_of (group_values (entry_of group.now))) }
{
    push_values(alloc, text, group.key.as_slice())?;
    push_count(alloc, text, group.members)?;
    for state in &group.states {
        push_state(alloc, text, state)?;
    }
    Ok(())
}

/// Puts the lines of groups behind a text, one group after the other.
///
/// # Errors
///
/// `AllocError` where there is no memory for them. A part of them may stand behind the text then.
pub fn push_groups(
    alloc: Global,
    text: &mut Vec<u8>,
    groups: &[GroupEntry],
) -> Result<(), AllocError>
    ensures { OnOk result (text.new.items
        ≡ text.old.items ++ text_of (groups_values (entries_of groups.now))) }
{
    for group in groups {
        push_group(alloc, text, group)?;
    }
    Ok(())
}
