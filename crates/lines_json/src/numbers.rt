//! Numbers, RFC 8259, section 6.

ghost use Rattle.std.specs.Prelude.{◌≡◌, ◌<◌, ◌≤◌, ◌+◌, ◌-◌, ◌==◌, ℕ, IfSome, IsTrue, List, Some, drop, is_some, length, take, true};
ghost use Rattle.std.specs.Char.{is_ascii_digit};
ghost use Rattle.std.specs.List.{prefix_len};
ghost use Rattle.json.specs.Token.{number};
ghost use Rattle.json.specs.Word.{after_digits, after_exponent, after_fraction, after_minus, after_number, after_sign, after_whole};
ghost use Rattle.serde_json.specs.Read.{number_of};
ghost use Rattle.lines_json.specs.Inside.NumberParts.{IsNumberPart};
ghost use Rattle.lines_json.specs.Standing.{IsTokenAt, IsWholeNumberAt};
ghost use Rattle.lines_json.specs.Inside.Signs.{IsBetweenCommaAndColon};

mod short;

use crate::bytes::{byte_at, ends_word};
use crate::numerals::{has_value, whole_number};
use short::short_number_at;

/// Where the number ends that stands at a place and has a value; `None` says nothing of the text.
///
/// Example: of the text `[-1.5e3]` it answers 7 at 1.
#[inline(always)]
pub(crate) fn number_end(text: &[u8], at: usize) -> Option<usize>
    requires { at ≤ length text.now }
    ensures { IfSome result (λ stop. (digits : List ℕ)
        × IsTokenAt text.now at stop (number digits) × (is_some (number_of digits) ≡ true)) }
{
    match short_number_at(text, at) {
        Some((_, stop)) => Some(stop),
        None => long_number_end(text, at),
    }
}

/// The whole number of 64 bits that stands at a place, and where it ends; `None` says nothing of
/// the text.
///
/// Example: of the text `[-12]` it answers `(-12, 4)` at 1.
#[inline(always)]
pub fn whole_number_at(text: &[u8], at: usize) -> Option<(i64, usize)>
    requires { at ≤ length text.now }
    ensures { IfSome result (λ r. IsWholeNumberAt text.now at r.1 r.0) }
{
    match short_number_at(text, at) {
        Some(found) => Some(found),
        None => long_number_at(text, at),
    }
}

/// Where the number ends that stands at a place, of whatever length, with a fraction or an exponent
/// or none.
#[inline(never)]
fn long_number_end(text: &[u8], at: usize) -> Option<usize>
    requires { at ≤ length text.now }
    ensures { IfSome result (λ stop. (digits : List ℕ)
        × IsTokenAt text.now at stop (number digits) × (is_some (number_of digits) ≡ true)) }
{
    let stop = numeral_end(text, at)?;
    if has_value(&text[at..stop]) {
        Some(stop)
    } else {
        None
    }
}

/// The whole number of 64 bits that stands at a place, of whatever length, and where it ends.
#[inline(never)]
fn long_number_at(text: &[u8], at: usize) -> Option<(i64, usize)>
    requires { at ≤ length text.now }
    ensures { IfSome result (λ r. IsWholeNumberAt text.now at r.1 r.0) }
{
    let stop = numeral_end(text, at)?;
    let number = whole_number(&text[at..stop])?;
    Some((number, stop))
}

/// Where the number ends that stands at a place, whether or not it has a value.
///
/// Example: of the text `[1e400]` it answers 6 at 1, and of `[01]` it answers `None` there.
#[inline(always)]
fn numeral_end(text: &[u8], at: usize) -> Option<usize>
    requires { at ≤ length text.now }
    ensures { IfSome result
        (λ stop. IsTokenAt text.now at stop (number (take (stop - at) (drop at text.now)))) }
{
    if !begins_number(byte_at(text, at)) {
        return None;
    }
    let stop = parts_end(text, at)?;
    if ends_word(byte_at(text, stop)) {
        Some(stop)
    } else {
        None
    }
}

/// Where the parts of a number end, one after another.
#[inline(always)]
fn parts_end(text: &[u8], at: usize) -> Option<usize>
    requires { at ≤ length text.now }
    ensures { IfSome result (IsNumberPart after_number text.now at) }
{
    let point = whole_end(text, minus_end(text, at))?;
    let power = fraction_end(text, point)?;
    exponent_end(text, power)
}

/// Where the minus ends that may stand at a place.
#[inline(always)]
fn minus_end(text: &[u8], at: usize) -> usize
    requires { at ≤ length text.now }
    ensures { IsNumberPart (λ rest. Some (after_minus rest)) text.now at result }
{
    if byte_at(text, at) == b'-' {
        at + 1
    } else {
        at
    }
}

/// Where the whole part ends: one zero, or digits.
#[inline(always)]
fn whole_end(text: &[u8], at: usize) -> Option<usize>
    requires { at ≤ length text.now }
    ensures { IfSome result (IsNumberPart after_whole text.now at) }
{
    if byte_at(text, at) == b'0' {
        Some(at + 1)
    } else {
        digits_end(text, at)
    }
}

/// Where the fraction ends that may stand at a place.
#[inline(always)]
fn fraction_end(text: &[u8], at: usize) -> Option<usize>
    requires { at ≤ length text.now }
    ensures { IfSome result (IsNumberPart after_fraction text.now at) }
{
    if byte_at(text, at) == b'.' {
        digits_end(text, at + 1)
    } else {
        Some(at)
    }
}

/// Where the exponent ends that may stand at a place.
#[inline(always)]
fn exponent_end(text: &[u8], at: usize) -> Option<usize>
    requires { at ≤ length text.now }
    ensures { IfSome result (IsNumberPart after_exponent text.now at) }
{
    match byte_at(text, at) {
        b'e' | b'E' => digits_end(text, sign_end(text, at + 1)),
        _ => Some(at),
    }
}

/// Where the sign ends that may stand in an exponent.
#[inline(always)]
fn sign_end(text: &[u8], at: usize) -> usize
    requires { at ≤ length text.now }
    ensures { IsNumberPart (λ rest. Some (after_sign rest)) text.now at result }
{
    match byte_at(text, at) {
        b'-' | b'+' => at + 1,
        _ => at,
    }
}

/// Where digits end, of which there is at least one.
#[inline(always)]
fn digits_end(text: &[u8], from: usize) -> Option<usize>
    requires { from ≤ length text.now }
    ensures { IfSome result (IsNumberPart after_digits text.now from) }
{
    let end = last_digit_end(text, from);
    if end > from { Some(end) } else { None }
}

/// The first place from a place on where no digit stands.
#[inline(always)]
fn last_digit_end(text: &[u8], from: usize) -> usize
    requires { from ≤ length text.now }
    ensures value { result ≡ from + prefix_len is_ascii_digit (drop from text.now) }
    ensures bound { result ≤ length text.now }
{
    let mut end = from;
    while end < text.len() && text[end].is_ascii_digit() {
        end += 1;
    }
    end
}

/// Whether a number may begin with a byte.
#[inline(always)]
fn begins_number(byte: u8) -> bool
    ensures { IsTrue result → IsBetweenCommaAndColon byte }
{
    byte == b'-' || byte.is_ascii_digit()
}
