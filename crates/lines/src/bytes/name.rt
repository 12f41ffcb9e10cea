//! The name of a member.

ghost use Rattle.std.specs.Prelude.{◌≤◌, IfSome, length};
ghost use Rattle.lines.specs.Inside.Members.{IsNameAt};

use lines_json::{byte_at, plain_string_end, space_end};

/// The name of the member that stands at a place, and where its value begins; `None` says nothing
/// of the line.
#[inline(always)]
pub(crate) fn name_at(line: &[u8], at: usize) -> Option<(&[u8], usize)>
    requires { at ≤ length line.now }
    ensures { IfSome result (λ r. IsNameAt line.now at r.1 r.0.now) }
{
    if byte_at(line, at) != b'"' {
        return None;
    }
    let quote = plain_string_end(line, at + 1)?;
    let colon = space_end(line, quote + 1);
    if byte_at(line, colon) != b':' {
        return None;
    }
    Some((&line[at + 1..quote], space_end(line, colon + 1)))
}
