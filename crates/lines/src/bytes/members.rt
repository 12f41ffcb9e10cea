//! The members of an object, one after another.

ghost use Rattle.std.specs.Prelude.{◌≡◌, ◌≤◌, IfSome, length};
ghost use Rattle.serde_json.specs.Data.{no_members};
ghost use Rattle.values.specs.Schema.{IsSchema, fields_of};
ghost use Rattle.lines.specs.Inside.Members.{AreMembersAt, AreTaken, IsMemberAt};

use crate::bytes::member::value_at;
use crate::bytes::name::name_at;
use crate::columns::{MEMBER_DEPTH, place_found_from, put_at};
use crate::spare::Spare;
use lines_json::{byte_at, space_end, value_end};
use values::{Column, Value};

/// Takes the columns' values out of the members that stand behind the brace of an object; it
/// answers where the object ends. `None` says nothing of the text.
#[inline(always)]
pub(crate) fn take_members(
    columns: &[Column],
    text: &str,
    from: usize,
    values: &mut Vec<Value>,
    spare: &mut Spare,
) -> Option<usize>
    requires within { from ≤ length text.now }
    requires schema { IsSchema (fields_of columns.now) }
    requires missing { AreTaken columns.now values.old.items no_members }
    ensures { IfSome result (λ stop.
        AreMembersAt text.now from stop columns.now values.new.items) }
{
    let line = text.as_bytes();
    let mut at = space_end(line, from);
    if byte_at(line, at) == b'}' {
        return Some(at + 1);
    }
    // Members mostly come in the order of the columns.
    let mut next = 0;
    'members: loop {
        let (stop, behind) = take_member(columns, text, at, next, values, spare)?;
        let end = space_end(line, stop);
        let mark = byte_at(line, end);
        if mark == b'}' {
            return Some(end + 1);
        }
        if mark != b',' {
            return None;
        }
        at = space_end(line, end + 1);
        next = behind;
    }
}

/// Takes the value of the member that stands at a place, where a column has its name. It answers
/// where the member ends, and the place of the column from which the next name is looked for;
/// `None` says nothing of the text.
#[inline(always)]
fn take_member(
    columns: &[Column],
    text: &str,
    at: usize,
    next: usize,
    values: &mut Vec<Value>,
    spare: &mut Spare,
) -> Option<(usize, usize)>
    requires within { at ≤ length text.now }
    requires next_within { next ≤ length columns.now }
    requires schema { IsSchema (fields_of columns.now) }
    requires room { length values.old.items ≡ length columns.now }
    ensures taken { IfSome result (λ r.
        IsMemberAt text.now at r.0 columns.now values.old.items values.new.items) }
    ensures next_within { IfSome result (λ r. r.1 ≤ length columns.now) }
{
    let line = text.as_bytes();
    let (name, start) = name_at(line, at)?;
    match place_found_from(columns, name, next) {
        Some(place) => {
            let (value, stop) = value_at(columns[place].kind, text, start, spare)?;
            put_at(values, place, value);
            Some((stop, place + 1))
        }
        None => {
            let stop = value_end(line, start, MEMBER_DEPTH)?;
            Some((stop, next))
        }
    }
}
