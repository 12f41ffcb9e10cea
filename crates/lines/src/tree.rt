//! Reading a line as a record by the tree of its JSON value, which is `serde_json`'s.

ghost use Rattle.std.specs.Prelude.{◌≡◌, ◌≢◌, ◌<◌, ℕ, IfErr, IfOk, List, length, option_map, string_bytes};
ghost use Rattle.serde_json.specs.Find.{get_member};
ghost use Rattle.serde_json.specs.View.{members_view, view};
ghost use Rattle.values.specs.Datum.{datum_of, data_of};
ghost use Rattle.semantics.specs.Records.{Fits, IsRefusal, all_taken, data_taken, datum_taken, max_line_len, member_of, decode_line};
ghost use Rattle.values.specs.Schema.{IsSchema, fields_of};

use crate::record_reader::MAX_LINE_LEN;
use semantics::{LineFault, LineRefusal};
use serde_json::{Map, Value as Json};
use std::alloc::Global;
use values::{Column, Kind, Record, Schema, Value};

/// Reads a line as [`read_record`](crate::read_record) does, by the tree of its JSON value, which
/// takes memory.
///
/// Example: under `cents:int` it answers of the line `{"cents":"x","cents":2}` the record of the
/// whole number 2.
///
/// # Errors
///
/// `Fault` with the first fault that the line has, or `Memory` where there was no memory to read
/// it. A line that is too long is refused as `TooLong`, whatever memory there is.
#[inline(never)]
pub fn read_by_tree(alloc: Global, schema: &Schema, line: &[u8]) -> Result<Record, LineRefusal>
    ensures ok { IfOk result (λ «record». decode_line schema.now line.now ≡ Ok «record») }
    ensures refused { IfErr result (λ refusal.
        IsRefusal refusal (decode_line schema.now line.now)) }
    ensures fits { IfOk result (λ «record». Fits schema.now «record») }

    // A line that is too long is not looked into, so its refusal never is for want of memory.
    ensures too_long { max_line_len < length line.now
        → result ≡ Err (LineRefusal.Fault LineFault.TooLong) }
{
    if line.len() > MAX_LINE_LEN {
        return Err(LineRefusal::Fault(LineFault::TooLong));
    }
    let mut json = match Json::from_slice(alloc, line) {
        Ok(json) => json,
        Err(error) if error.is_memory() => return Err(LineRefusal::Memory),
        Err(_) => return Err(LineRefusal::Fault(LineFault::NoJson)),
    };
    let Some(members) = json.as_object_mut() else {
        return Err(LineRefusal::Fault(LineFault::NoObject));
    };
    let values = take_values(alloc, schema.columns(), members)?;
    Ok(Record::new(values))
}

/// Takes the columns' values out of an object's members.
fn take_values(
    alloc: Global,
    columns: &[Column],
    members: &mut Map<String, Json>,
) -> Result<Vec<Value>, LineRefusal>
    requires { IsSchema (fields_of columns.now) }
    ensures ok { IfOk result (λ v.
        all_taken (data_taken (fields_of columns.now) (members_view members.old.entries))
        ≡ Ok (data_of v.items)) }
    ensures refused { IfErr result (λ refusal. IsRefusal refusal
        (all_taken (data_taken (fields_of columns.now) (members_view members.old.entries)))) }
    ensures fits { IfOk result (λ v. Fits (fields_of columns.now) (data_of v.items)) }
{
    let mut values = Vec::with_capacity(alloc, columns.len()).map_err(|_| LineRefusal::Memory)?;
    for (place, column) in columns.iter().enumerate() {
        let Some(value) = take_value(column, members) else {
            return Err(LineRefusal::Fault(LineFault::BadValue(place)));
        };
        values.push(value).map_err(|_| LineRefusal::Memory)?;
    }
    Ok(values)
}

/// Takes a column's value out of an object's members; `None` where the column does not take its
/// member.
fn take_value(column: &Column, members: &mut Map<String, Json>) -> Option<Value>
    ensures taken { option_map datum_of result ≡ datum_taken column.now.kind
        (member_of (members_view members.old.entries) (string_bytes column.now.name)) }
    ensures others { (name : List ℕ) → name ≢ string_bytes column.now.name
        → get_member name (members_view members.new.entries)
        ≡ get_member name (members_view members.old.entries) }
{
    let json = take_member(members, column.name.as_str());
    value_taken(column.kind, json)
}

/// Takes the member of a name out of an object, and leaves `null` there; a missing member is
/// `null`.
fn take_member(members: &mut Map<String, Json>, name: &str) -> Json
    ensures taken { view result ≡ member_of (members_view members.old.entries) name.now }
    ensures others { (other : List ℕ) → other ≢ name.now
        → get_member other (members_view members.new.entries)
        ≡ get_member other (members_view members.old.entries) }
{
    match members.get_mut(name) {
        Some(member) => member.take(),
        None => Json::Null,
    }
}

/// What a column of this type takes of a member; `None` where it does not take it.
fn value_taken(kind: Kind, json: Json) -> Option<Value>
    ensures { option_map datum_of result ≡ datum_taken kind (view json) }
{
    match (kind, json) {
        (_, Json::Null) => Some(Value::Null),
        (Kind::Int, Json::Number(number)) => number.as_i64().map(|n| Value::Int(i128::from(n))),
        (Kind::Text, Json::String(text)) => Some(Value::Text(text)),
        (Kind::Bool, Json::Bool(truth)) => Some(Value::Bool(truth)),
        _ => None,
    }
}
