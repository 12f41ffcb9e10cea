//! Values, arrays and objects.

ghost use Rattle.std.specs.Prelude.{◌≤◌, IfSome, length};
ghost use Rattle.lines_json.specs.Inside.Contents.{AreItemsAt, AreMembersAt, IsNameAt};
ghost use Rattle.lines_json.specs.Standing.{IsValueAt};

use crate::bytes::{byte_at, space_end};
use crate::numbers::number_end;
use crate::strings::string_end;
use crate::words::{bool_at, null_end};

/// Where the value ends that stands at a place and nests at most `depth` deep; `None` says nothing
/// of the text.
///
/// Example: of the text `{"a":[1,{}]}` it answers 11 at 5 for a depth of 2, and `None` for a depth
/// of 1.
#[cycle(value)]
pub fn value_end(text: &[u8], at: usize, depth: usize) -> Option<usize>
    requires { at ≤ length text.now }
    ensures { IfSome result (IsValueAt text.now depth at) }
{
    match byte_at(text, at) {
        b'"' => Some(string_end(text, at + 1)? + 1),
        b'{' if depth > 0 => object_end(text, at + 1, depth - 1),
        b'[' if depth > 0 => array_end(text, at + 1, depth - 1),
        b't' | b'f' => Some(bool_at(text, at)?.1),
        b'n' => null_end(text, at),
        _ => number_end(text, at),
    }
}

/// Where the array ends whose opening bracket stands before a place, and whose items nest at most
/// `depth` deep.
#[cycle(value)]
fn array_end(text: &[u8], from: usize, depth: usize) -> Option<usize>
    requires { from ≤ length text.now }
    ensures { IfSome result (AreItemsAt text.now depth from) }
{
    let mut at = space_end(text, from);
    if byte_at(text, at) == b']' {
        return Some(at + 1);
    }
    'items: loop {
        let stop = value_end(text, at, depth)?;
        let behind = space_end(text, stop);
        match byte_at(text, behind) {
            b']' => return Some(behind + 1),
            b',' => at = space_end(text, behind + 1),
            _ => return None,
        }
    }
}

/// Where the object ends whose opening brace stands before a place, and whose members nest at most
/// `depth` deep.
#[cycle(value)]
fn object_end(text: &[u8], from: usize, depth: usize) -> Option<usize>
    requires { from ≤ length text.now }
    ensures { IfSome result (AreMembersAt text.now depth from) }
{
    let mut at = space_end(text, from);
    if byte_at(text, at) == b'}' {
        return Some(at + 1);
    }
    'members: loop {
        let start = member_value(text, at)?;
        let stop = value_end(text, start, depth)?;
        let behind = space_end(text, stop);
        match byte_at(text, behind) {
            b'}' => return Some(behind + 1),
            b',' => at = space_end(text, behind + 1),
            _ => return None,
        }
    }
}

/// Where the value of the member stands whose name stands at a place; `None` says nothing of the
/// text.
///
/// Example: of the text `{"a": 1}` it answers 6 at 1.
#[inline(always)]
fn member_value(text: &[u8], at: usize) -> Option<usize>
    requires { at ≤ length text.now }
    ensures { IfSome result (IsNameAt text.now at) }
{
    if byte_at(text, at) != b'"' {
        return None;
    }
    let quote = string_end(text, at + 1)?;
    let colon = space_end(text, quote + 1);
    if byte_at(text, colon) != b':' {
        return None;
    }
    Some(space_end(text, colon + 1))
}
