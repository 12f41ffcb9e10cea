//! Codes, parted from the bytes behind them.

ghost use Rattle.std.specs.Prelude.{◌≡◌, ◌==◌, ◌<◌, ◌++◌, Some, IfSome, length, position};
ghost use Rattle.sort_keys.specs.Inside.Decoding.{IsCodeLength};
ghost use Rattle.sort_keys.specs.Decoding.{IsCodeSplit};

use crate::code::{NUMBER, NUMBER_ABOVE, NUMBER_BELOW, TEXT, TEXT_END};
use memchr::memchr;

/// How many bytes the code of a number of 64 bits has.
const NUMBER_LEN: usize = 9;

/// How many bytes the code of any other number has.
const WIDE_LEN: usize = 17;

/// Among how many bytes the end of a text is looked for first.
const SHORT: usize = 16;

/// The code of the value that stands in front of other bytes, and these. Bytes that begin with no
/// code are parted somewhere behind the first one.
///
/// Example: of the bytes 6, 98, 0 and 2 they are 6, 98 and 0, the code of the text `a`, and 2.
#[inline]
pub fn split_code(code: &[u8]) -> (&[u8], &[u8])
    ensures front { IsCodeSplit code.now result.0.now result.1.now }
    ensures whole { code.now ≡ result.0.now ++ result.1.now }
    ensures shorter { 0 < length code.now → length result.1.now < length code.now }
{
    let len = code_len(code).min(code.len());
    code.split_at(len)
}

/// How many bytes the code of the value has that stands in front of other bytes.
#[inline]
fn code_len(code: &[u8]) -> usize
    ensures len { IsCodeLength code.now result }
    ensures some { 0 < result }
{
    let Some((first, rest)) = code.split_first() else {
        return 1;
    };
    match *first {
        NUMBER => NUMBER_LEN,
        NUMBER_BELOW | NUMBER_ABOVE => WIDE_LEN,
        TEXT => match text_len(rest) {
            Some(len) => len + 2,
            None => 1,
        },
        _ => 1,
    }
}

/// How many bytes stand in front of the end of a text.
#[inline]
pub(crate) fn text_len(code: &[u8]) -> Option<usize>
    ensures { result ≡ position (λ b. b == 0) code.now }
{
    // Most texts are short.
    match short_text_len(code) {
        Some(len) => Some(len),
        None => memchr(TEXT_END, code),
    }
}

/// The same, where the end is among the first bytes. Their number is fixed, so that none is
/// counted.
#[inline]
fn short_text_len(code: &[u8]) -> Option<usize>
    ensures { IfSome result (λ len. position (λ b. b == 0) code.now ≡ Some len) }
{
    let front = code.first_chunk::<SHORT>()?;
    place_of_end(front)
}

/// The place of the first byte that ends a text.
#[inline]
fn place_of_end(code: &[u8]) -> Option<usize>
    ensures { result ≡ position (λ b. b == 0) code.now }
{
    code.iter().position(|byte| *byte == TEXT_END)
}
