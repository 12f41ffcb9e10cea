//! Reading a line as a record by its bytes, in one pass, without tokens of it.

ghost use Rattle.std.specs.Prelude.{◌≡◌, ◌≤◌, Ok, Some, IfSome, length};
ghost use Rattle.serde_json.specs.Data.{Members, no_members, object};
ghost use Rattle.serde_json.specs.Read.{read};
ghost use Rattle.values.specs.Schema.{IsSchema, fields_of};
ghost use Rattle.lines.specs.Inside.Members.{AreTaken};
ghost use Rattle.semantics.specs.Records.{Fits, max_line_len, decode_line};

mod member;
mod members;
mod name;

use crate::columns::missing_values;
use crate::spare::Spare;
use lines_json::{byte_at, space_end};
use members::take_members;
use values::{Column, Record, Schema, Value};

/// Reads a line as a record by its bytes; `None` says nothing of the line.
pub(crate) fn record_by_bytes(schema: &Schema, line: &str, spare: &mut Spare) -> Option<Record>
    requires { length line.now ≤ max_line_len }
    ensures ok { IfSome result (λ «record». decode_line schema.now line.now ≡ Ok «record») }
    ensures fits { IfSome result (λ «record». Fits schema.now «record») }
{
    let columns = schema.columns();
    let mut values = missing_values(columns, spare)?;
    match take_object(columns, line, &mut values, spare) {
        Some(()) => Some(Record::new(values)),
        None => {
            spare.keep(values);
            None
        }
    }
}

/// Takes the columns' values out of a text that is one object; `None` says nothing of the text.
#[inline(always)]
fn take_object(
    columns: &[Column],
    text: &str,
    values: &mut Vec<Value>,
    spare: &mut Spare,
) -> Option<()>
    requires schema { IsSchema (fields_of columns.now) }
    requires missing { AreTaken columns.now values.old.items no_members }
    ensures { IfSome result (λ _. (found : Members)
        × (read text.now ≡ Some (object found))
        × AreTaken columns.now values.new.items found) }
{
    let line = text.as_bytes();
    let brace = space_end(line, 0);
    if byte_at(line, brace) != b'{' {
        return None;
    }
    let stop = take_members(columns, text, brace + 1, values, spare)?;
    if space_end(line, stop) < line.len() {
        return None;
    }
    Some(())
}
