//! Escapes in strings, RFC 8259, section 7.

ghost use Rattle.std.specs.Prelude.{◌≡◌, ◌+◌, ◌<◌, ◌≤◌, IfSome, Some, length, true};
ghost use Rattle.std.specs.Char.{digit_value, encode_utf8, is_digit};
ghost use Rattle.json.specs.Lex.{in_string};
ghost use Rattle.json.specs.Text.{after_high, after_u, is_high_surrogate, is_low_surrogate, surrogate_pair};
ghost use Rattle.lines_json.specs.Inside.Contents.{IsEscapeAt, IsPartAt, IsShortEscape, code_unit_at};
ghost use Rattle.lines_json.specs.Inside.Signs.{hexadecimal};

use crate::bytes::byte_at;

/// The character that the escape means whose backslash stands before a place, and where the escape
/// ends; `None` says nothing of the text.
///
/// Example: of the text `r#""\n""#` it answers a line feed and 3 at 2.
#[inline(never)]
pub(crate) fn escape_at(text: &[u8], at: usize) -> Option<(char, usize)>
    requires { at ≤ length text.now }
    ensures { IfSome result (λ r. IsEscapeAt text.now at r.1 r.0) }
{
    let letter = byte_at(text, at);
    if letter == b'u' {
        return unit_at(text, at + 1);
    }
    let meant = short_escape(letter)?;
    Some((meant, at + 1))
}

/// What a backslash and a byte mean together, but for `\u`; `None` says nothing of them.
fn short_escape(letter: u8) -> Option<char>
    ensures { IfSome result (IsShortEscape letter) }
{
    match letter {
        b'"' => Some('"'),
        b'\\' => Some('\\'),
        b'/' => Some('/'),
        b'b' => Some('\u{8}'),
        b'f' => Some('\u{c}'),
        b'n' => Some('\n'),
        b'r' => Some('\r'),
        b't' => Some('\t'),
        _ => None,
    }
}

/// As `escape_at`, of an escape by its code unit, whose first digit stands at a place.
fn unit_at(text: &[u8], at: usize) -> Option<(char, usize)>
    requires { at ≤ length text.now }
    ensures { IfSome result (λ r. IsPartAt in_string after_u text.now at r.1 (encode_utf8 r.0)) }
{
    if text.len() - at < 4 {
        return None;
    }
    let unit = code_unit(text, at)?;
    if is_high_surrogate(unit) {
        return low_half_at(text, at + 4, unit);
    }
    // The lower half of a pair alone is no character.
    let meant = char::from_u32(unit)?;
    Some((meant, at + 4))
}

/// The same of the lower half of a pair of surrogates, whose upper half ends before a place.
fn low_half_at(text: &[u8], at: usize, high: u32) -> Option<(char, usize)>
    requires within { at ≤ length text.now }
    requires half { is_high_surrogate high ≡ true }
    ensures { IfSome result (λ r.
        IsPartAt in_string (after_high high) text.now at r.1 (encode_utf8 r.0)) }
{
    if text.len() - at < 6 || text[at] != b'\\' || text[at + 1] != b'u' {
        return None;
    }
    let low = code_unit(text, at + 2)?;
    if is_low_surrogate(low) {
        let meant = char::from_u32(surrogate_pair(high, low))?;
        Some((meant, at + 6))
    } else {
        None
    }
}

/// The code of the character that a pair of surrogates means.
fn surrogate_pair(high: u32, low: u32) -> u32
    requires high { is_high_surrogate high ≡ true }
    requires low { is_low_surrogate low ≡ true }
    ensures { result ≡ surrogate_pair high low }
{
    0x1_0000 + (high - 0xd800) * 0x400 + (low - 0xdc00)
}

/// Whether a code unit is the upper half of a pair.
fn is_high_surrogate(unit: u32) -> bool
    ensures { result ≡ is_high_surrogate unit }
{
    unit >= 0xd800 && unit < 0xdc00
}

/// The same of the lower half.
fn is_low_surrogate(unit: u32) -> bool
    ensures { result ≡ is_low_surrogate unit }
{
    unit >= 0xdc00 && unit < 0xe000
}

/// The code unit that four hexadecimal digits spell.
fn code_unit(text: &[u8], at: usize) -> Option<u32>
    requires { at + 4 ≤ length text.now }
    ensures { IfSome result (λ unit. code_unit_at text.now at ≡ Some unit) }
{
    let first = hex_digit(text[at])?;
    let second = hex_digit(text[at + 1])?;
    let third = hex_digit(text[at + 2])?;
    let fourth = hex_digit(text[at + 3])?;
    Some(first * 0x1000 + second * 0x100 + third * 0x10 + fourth)
}

/// The value of a hexadecimal digit.
fn hex_digit(byte: u8) -> Option<u32>
    ensures { IfSome result (λ value.
        (is_digit byte hexadecimal ≡ true) × (value ≡ digit_value byte) × (value < hexadecimal)) }
{
    (byte as char).to_digit(16)
}
