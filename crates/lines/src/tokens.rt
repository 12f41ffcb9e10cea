//! Reading a line as a record by its tokens, without a tree of it.

ghost use Rattle.std.specs.Prelude.{◌≡◌, ◌≤◌, Ok, IfSome, length};
ghost use Rattle.semantics.specs.Records.{Fits, max_line_len, decode_line};

mod members;
mod skip;

use crate::spare::Spare;
use json::{Reader, Scratch, Token};
use members::take_members;
use values::{Record, Schema};

/// Reads a line as a record by its tokens; `None` says nothing of the line. Out of line, since few
/// lines come here.
#[inline(never)]
pub(crate) fn record_by_tokens(
    schema: &Schema,
    line: &str,
    scratch: &mut Scratch,
    spare: &mut Spare,
) -> Option<Record>
    requires { length line.now ≤ max_line_len }
    ensures ok { IfSome result (λ «record». decode_line schema.now line.now ≡ Ok «record») }
    ensures fits { IfSome result (λ «record». Fits schema.now «record») }
{
    let mut reader = Reader::new(line, scratch).ok()?;
    let Token::BeginObject = reader.next()? else {
        return None;
    };
    let values = take_members(schema.columns(), &mut reader, spare)?;
    match reader.next() {
        Some(_) => None,
        None => Some(Record::new(values)),
    }
}
