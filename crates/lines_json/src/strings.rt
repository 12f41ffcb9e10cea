//! Strings, RFC 8259, section 7.

ghost use Rattle.std.specs.Prelude.{◌≡◌, ◌≤◌, ℕ, ◌++◌, IfSome, List, length, string_bytes};
ghost use Rattle.std.specs.Str.{IsCharBoundary};
ghost use Rattle.lines_json.specs.Standing.{IsPlainString, IsStringOf};

use crate::bytes::byte_at;
use crate::escapes::escape_at;
use crate::plain::plain_end;

/// The place of the quote that closes a string whose first byte stands at a place; `None` says
/// nothing of the text.
///
/// Example: of the text `r#""a\n""#` it answers 4 at 1.
#[inline(always)]
pub(crate) fn string_end(text: &[u8], from: usize) -> Option<usize>
    requires { from ≤ length text.now }
    ensures { IfSome result (λ quote. (bytes : List ℕ) × IsStringOf text.now from quote bytes) }
{
    let stop = plain_end(text, from);
    match byte_at(text, stop) {
        b'"' => Some(stop),
        b'\\' => escaped_string_end(text, stop),
        _ => None,
    }
}

/// The same of a string without an escape.
///
/// Example: of the text `r#""ab""#` it answers 3 at 1, and of `r#""a\n""#` it answers `None` there.
#[inline(always)]
pub fn plain_string_end(text: &[u8], from: usize) -> Option<usize>
    requires { from ≤ length text.now }
    ensures { IfSome result (IsPlainString text.now from) }
{
    let stop = plain_end(text, from);
    if byte_at(text, stop) == b'"' {
        Some(stop)
    } else {
        None
    }
}

/// As `string_end`, from an escape on; out of line, since few strings have one.
#[inline(never)]
fn escaped_string_end(text: &[u8], from: usize) -> Option<usize>
    requires { from ≤ length text.now }
    ensures { IfSome result (λ quote. (bytes : List ℕ) × IsStringOf text.now from quote bytes) }
{
    let mut at = from;
    'escapes: loop {
        let stop = plain_end(text, at);
        match byte_at(text, stop) {
            b'"' => return Some(stop),
            b'\\' => at = escape_at(text, stop + 1)?.1,
            _ => return None,
        }
    }
}

/// Pushes the content of a string, each escape as what it means, behind what stands in `content`.
/// The string's first byte stands at a place, and the place of the quote that closes it is
/// answered; `None` says nothing of the text.
///
/// Example: of the text `r#""a\n""#` it pushes `a` and a line feed, and answers 4 at 1.
#[inline(never)]
pub fn push_content(text: &str, from: usize, content: &mut String) -> Option<usize>
    requires { IsCharBoundary text.now from }
    ensures { IfSome result (λ quote. (bytes : List ℕ) × IsStringOf text.now from quote bytes
        × (string_bytes content.new ≡ string_bytes content.old ++ bytes)) }
{
    let bytes = text.as_bytes();
    let mut at = from;
    'escapes: loop {
        let stop = plain_end(bytes, at);
        let mark = byte_at(bytes, stop);
        if mark != b'"' && mark != b'\\' {
            return None;
        }
        content.push_str(&text[at..stop]).ok()?;
        if mark == b'"' {
            return Some(stop);
        }
        let (meant, behind) = escape_at(bytes, stop + 1)?;
        content.push(meant).ok()?;
        at = behind;
    }
}
