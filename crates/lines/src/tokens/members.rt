//! Taking the columns' values out of the members of an object, token by token.

ghost use Rattle.std.specs.Prelude.{◌≡◌, ◌<◌, Some, length, IfSome};
ghost use Rattle.serde_json.specs.Data.{Data, Members};
ghost use Rattle.values.specs.Datum.{datum_of};
ghost use Rattle.values.specs.Schema.{IsSchema, fields_of};
ghost use Rattle.lines_json.specs.Meant.{AreMembers, IsValue};
ghost use Rattle.lines.specs.Inside.Members.{AreTaken};
ghost use Rattle.semantics.specs.Records.{datum_taken};
ghost use Rattle.lines.specs.declared.columns.TheConstants.{MEMBER_DEPTH};

use crate::columns::{MEMBER_DEPTH, missing_values, place_found_from, put_at};
use crate::spare::Spare;
use crate::tokens::skip::skip_value;
use json::{Reader, Token};
use lines_json::whole_number;
use values::{Column, Kind, Value};

/// Takes the columns' values out of an object's members, up to its closing brace.
pub(crate) fn take_members(
    columns: &[Column],
    reader: &mut Reader<'_>,
    spare: &mut Spare,
) -> Option<Vec<Value>>
    requires { IsSchema (fields_of columns.now) }
    ensures taken { IfSome result (λ v. (found : Members)
        × AreMembers MEMBER_DEPTH reader.old found reader.new
        × AreTaken columns.now v.items found) }
{
    let mut values = missing_values(columns, spare)?;
    // Members mostly come in the order of the columns.
    let mut next = 0;
    'members: while let Some(name) = reader.next_key().ok()? {
        match place_found_from(columns, name.as_bytes(), next) {
            Some(place) => {
                let value = take_value(columns[place].kind, reader, spare)?;
                put_at(&mut values, place, value);
                next = place + 1;
            }
            None => skip_value(reader, MEMBER_DEPTH)?,
        }
    }
    Some(values)
}

/// Takes the value of a member as a column of this type takes it; `None` says nothing of the
/// member.
fn take_value(kind: Kind, reader: &mut Reader<'_>, spare: &mut Spare) -> Option<Value>
    ensures taken { IfSome result (λ v. (d : Data)
        × IsValue MEMBER_DEPTH reader.old d reader.new
        × (datum_taken kind d ≡ Some (datum_of v))) }
    ensures shorter { IfSome result (λ v. length reader.new < length reader.old) }
{
    match (kind, reader.next()?) {
        (_, Token::Null) => Some(Value::Null),
        (Kind::Int, Token::Number(text)) => {
            let number = whole_number(text.as_bytes())?;
            Some(Value::Int(i128::from(number)))
        }
        (Kind::Text, Token::String(text)) => Some(Value::Text(spare.copy(text)?)),
        (Kind::Bool, Token::Bool(truth)) => Some(Value::Bool(truth)),
        _ => None,
    }
}
