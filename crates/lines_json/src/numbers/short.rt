//! Whole numbers of up to 18 digits, in one pass over their bytes.

ghost use Rattle.std.specs.Prelude.{◌≡◌, ◌<◌, ◌≤◌, ◌-◌, IfSome, IsTrue, drop, get_or, length, take, true};
ghost use Rattle.std.specs.Str.Parse.{AllDigits, digits_value};
ghost use Rattle.lines_json.specs.Inside.Contents.{is_word_end};
ghost use Rattle.lines_json.specs.Inside.NumberParts.{AreDigitsAt};
ghost use Rattle.lines_json.specs.Standing.{IsWholeNumberAt};
ghost use Rattle.lines_json.specs.Bytes.{byte_or_space};
ghost use Rattle.lines_json.specs.Inside.Signs.{digit_zero};
ghost use Rattle.lines_json.specs.declared.numbers.short.TheConstants.{MOST_DIGITS};

use crate::bytes::{byte_at, ends_word};

/// The whole number of up to 18 digits that stands at a place, and where it ends; `None` says
/// nothing of the text.
///
/// Example: of the text `[-12]` it answers `(-12, 4)` at 1, and of `[1.5]` it answers `None` there.
#[inline(always)]
pub(crate) fn short_number_at(text: &[u8], at: usize) -> Option<(i64, usize)>
    requires { at ≤ length text.now }
    ensures { IfSome result (λ r. IsWholeNumberAt text.now at r.1 r.0) }
{
    if byte_at(text, at) == b'-' {
        let (size, stop) = digits_at(text, at + 1)?;
        if size > 0 {
            Some((-(size as i64), stop))
        } else {
            None
        }
    } else {
        let (size, stop) = digits_at(text, at)?;
        Some((size as i64, stop))
    }
}

/// The number without a sign that stands at a place, and where it ends.
#[inline(always)]
fn digits_at(text: &[u8], from: usize) -> Option<(u64, usize)>
    requires { from ≤ length text.now }
    ensures { IfSome result (λ r. AreDigitsAt text.now from r.1 r.0) }
{
    let rest = &text[from..];
    let (size, count) = leading_digits(rest);
    if is_whole(rest, count) {
        Some((size, from + count))
    } else {
        None
    }
}

/// The most digits that are read at once: any number of so many has fewer than 64 bits.
const MOST_DIGITS: usize = 18;

/// The number that the first digits of a text are, and how many they are: 18 at most.
#[inline(always)]
fn leading_digits(text: &[u8]) -> (u64, usize)
    ensures within { result.1 ≤ length text.now }
    ensures short { result.1 ≤ MOST_DIGITS }
    ensures digits { AllDigits 10 (take result.1 text.now) }
    ensures value { result.0 ≡ digits_value 10 (take result.1 text.now) }
{
    let most = text.len().min(MOST_DIGITS);
    let mut size = 0;
    let mut count = 0;
    while count < most && text[count].is_ascii_digit() {
        size = size * 10 + u64::from(text[count] - b'0');
        count += 1;
    }
    (size, count)
}

/// Whether so many digits of a text are a number: no zero before another digit, and then the end of
/// the word.
#[inline(always)]
fn is_whole(text: &[u8], count: usize) -> bool
    requires { count ≤ length text.now }
    ensures some { IsTrue result → 0 < count }
    ensures first { IsTrue result → byte_or_space text.now 0 ≡ digit_zero → count ≡ 1 }
    ensures ends { IsTrue result → is_word_end (byte_or_space text.now count) ≡ true }
{
    count > 0 && (count == 1 || text[0] != b'0') && ends_word(byte_at(text, count))
}
