//! The plain text of strings, which has no quote, no backslash and no control byte.

ghost use Rattle.std.specs.Prelude.{◌≡◌, ◌+◌, ◌<◌, ◌≤◌, length, map};
ghost use Rattle.std.specs.List.{list_all};
ghost use Rattle.std.specs.Simd.Lanes.{mask_l};
ghost use Rattle.json.specs.Run.{is_plain, is_stop};
ghost use Rattle.lines_json.specs.Inside.Contents.{IsPlainEnd};
ghost use Rattle.lines_json.specs.declared.plain.TheConstants.{LANES};

use std::simd::prelude::*;

/// How many bytes are looked at together.
const LANES: usize = 16;

/// Whether a text is plain: each of its bytes stands for itself in a string.
///
/// Example: `a/b` is plain, and `a"b` is not.
pub fn is_plain(text: &[u8]) -> bool
    ensures { result ≡ list_all is_plain text.now }
{
    plain_end(text, 0) == text.len()
}

/// Where the plain text ends that may stand at a place: at the first quote, backslash or control
/// byte, or at the end of the text.
///
/// Example: of the text `r#""ab""#` it answers 3 at 1.
#[inline(always)]
pub(crate) fn plain_end(text: &[u8], from: usize) -> usize
    requires { from ≤ length text.now }
    ensures { IsPlainEnd text.now from result }
{
    let mut at = from;
    'plain: while text.len() - at >= 16 {
        let marks = marks(u8x16::from_slice(&text[at..]));
        if marks != 0 {
            return at + marks.trailing_zeros() as usize;
        }
        at += 16;
    }
    last_plain_end(text, at)
}

/// The same among the last bytes, fewer than 16, which are the upper ones of the last 16 of the
/// text.
#[inline(never)]
fn last_plain_end(text: &[u8], from: usize) -> usize
    requires within { from ≤ length text.now }
    requires few { length text.now < from + LANES }
    ensures { IsPlainEnd text.now from result }
{
    if text.len() < 16 {
        return short_plain_end(text, from);
    }
    let start = text.len() - 16;
    let marks = marks(u8x16::from_slice(&text[start..])) >> (from - start);
    if marks == 0 {
        text.len()
    } else {
        from + marks.trailing_zeros() as usize
    }
}

/// The same byte by byte.
#[inline(always)]
fn short_plain_end(text: &[u8], from: usize) -> usize
    requires { from ≤ length text.now }
    ensures { IsPlainEnd text.now from result }
{
    let mut at = from;
    'short: while at < text.len() && text[at] != b'"' && text[at] != b'\\' && text[at] >= b' ' {
        at += 1;
    }
    at
}

/// Which of 16 bytes end plain text, a bit for each, the first one lowest.
#[inline(always)]
fn marks(bytes: u8x16) -> u64
    ensures { result ≡ mask_l (map is_stop bytes) }
{
    let quotes = bytes.simd_eq(u8x16::splat(b'"'));
    let backslashes = bytes.simd_eq(u8x16::splat(b'\\'));
    let controls = bytes.simd_lt(u8x16::splat(b' '));
    (quotes | backslashes | controls).to_bitmask()
}
