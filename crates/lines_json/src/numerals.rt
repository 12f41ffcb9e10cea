//! The numbers of a JSON text: which whole number one is, and whether it has a value at all.

ghost use Rattle.std.specs.Prelude.{◌≡◌, ◌<◌, ◌==◌, Some, length, slice_index, option_and_then, is_some, IsTrue, IfSome, true, false};
ghost use Rattle.fast_float.specs.Text.{minus};
ghost use Rattle.serde_json.specs.Find.{as_integer};
ghost use Rattle.serde_json.specs.Read.{number_from, number_of};

use fast_float::Numeral;

/// The whole number of 64 bits that a number's text is; `None` says nothing of the text.
#[inline(always)]
pub fn whole_number(text: &[u8]) -> Option<i64>
    ensures { IfSome result (λ n. option_and_then as_integer (number_of text.now) ≡ Some n) }
{
    if has_minus(text) {
        whole_negative(&Numeral::scan(&text[1..]))
    } else {
        whole_positive(&Numeral::scan(text))
    }
}

/// The same of a number without a sign.
#[inline(always)]
fn whole_positive(numeral: &Numeral<'_>) -> Option<i64>
    ensures { IfSome result (λ n.
        option_and_then as_integer (number_from false numeral.now) ≡ Some n) }
{
    numeral.to_i64(false)
}

/// The same of what stands behind a minus; `-0` is no whole number.
#[inline(always)]
fn whole_negative(numeral: &Numeral<'_>) -> Option<i64>
    ensures { IfSome result (λ n.
        option_and_then as_integer (number_from true numeral.now) ≡ Some n) }
{
    let number = numeral.to_i64(true)?;
    if number < 0 { Some(number) } else { None }
}

/// Whether a number's text has a value, as one that is too large has none; `false` says nothing of
/// the text.
#[inline(always)]
pub fn has_value(text: &[u8]) -> bool
    ensures { IsTrue result → is_some (number_of text.now) ≡ true }
{
    if has_minus(text) {
        negative_has_value(&Numeral::scan(&text[1..]))
    } else {
        positive_has_value(&Numeral::scan(text))
    }
}

/// The same of a number without a sign.
#[inline(always)]
fn positive_has_value(numeral: &Numeral<'_>) -> bool
    ensures { IsTrue result → is_some (number_from false numeral.now) ≡ true }
{
    numeral.to_u64().is_some() || numeral.to_float::<f64>(false).is_finite()
}

/// The same of what stands behind a minus.
#[inline(always)]
fn negative_has_value(numeral: &Numeral<'_>) -> bool
    ensures { IsTrue result → is_some (number_from true numeral.now) ≡ true }
{
    match numeral.to_i64(true) {
        Some(number) if number < 0 => true,
        _ => numeral.to_float::<f64>(true).is_finite(),
    }
}

/// Whether a number begins with a minus.
#[inline(always)]
fn has_minus(bytes: &[u8]) -> bool
    ensures value { result ≡ (slice_index bytes.now 0 == minus) }
    ensures some { IsTrue result → 0 < length bytes.now }
{
    !bytes.is_empty() && bytes[0] == b'-'
}
