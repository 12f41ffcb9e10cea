//! The literal names of RFC 8259, section 3: `true`, `false` and `null`.

ghost use Rattle.std.specs.Prelude.{
  ◌≡◌,
  ◌+◌,
  ◌≤◌,
  Bool,
  IfSome,
  IsFalse,
  IsNone,
  IsTrue,
  false,
  if◌then◌else◌,
  length,
  true,
};
ghost use Rattle.json.specs.Ascii.{false_text, null_text, true_text};
ghost use Rattle.json.specs.Token.{boolean, null};
ghost use Rattle.lines_json.specs.Standing.{IsNoTokenAt, IsTokenAt};

use crate::bytes::{byte_at, ends_word};

/// The truth value that stands at a place, and where it ends; `None` where none stands there.
///
/// Example: of the text `[true]` it answers `(true, 5)` at 1.
#[inline(always)]
pub fn bool_at(text: &[u8], at: usize) -> Option<(bool, usize)>
    requires { at ≤ length text.now }
    ensures stands { IfSome result (λ r. IsTokenAt text.now at r.1 (boolean r.0)) }
    ensures ends { IfSome result (λ r. r.1
        ≡ at + length (if r.0 then true_text else false_text)) }
    ensures none { IsNone result → (b : Bool) → IsNoTokenAt text.now at (boolean b) }
{
    if has_true(text, at) {
        return Some((true, at + 4));
    }
    if has_false(text, at) {
        return Some((false, at + 5));
    }
    None
}

/// Where the `null` ends that stands at a place; `None` where none stands there.
///
/// Example: of the text `[null]` it answers 5 at 1.
#[inline(always)]
pub fn null_end(text: &[u8], at: usize) -> Option<usize>
    requires { at ≤ length text.now }
    ensures stands { IfSome result (λ stop. IsTokenAt text.now at stop null) }
    ensures ends { IfSome result (λ stop. stop ≡ at + length null_text) }
    ensures none { IsNone result → IsNoTokenAt text.now at null }
{
    if has_null(text, at) {
        Some(at + 4)
    } else {
        None
    }
}

/// Whether `true` stands at a place.
#[inline(always)]
fn has_true(text: &[u8], at: usize) -> bool
    requires { at ≤ length text.now }
    ensures stands { IsTrue result → IsTokenAt text.now at (at + 4) (boolean true) }
    ensures none { IsFalse result → IsNoTokenAt text.now at (boolean true) }
{
    if text.len() - at >= 4
        && text[at] == b't'
        && text[at + 1] == b'r'
        && text[at + 2] == b'u'
        && text[at + 3] == b'e'
    {
        ends_word(byte_at(text, at + 4))
    } else {
        false
    }
}

/// The same of `false`.
#[inline(always)]
fn has_false(text: &[u8], at: usize) -> bool
    requires { at ≤ length text.now }
    ensures stands { IsTrue result → IsTokenAt text.now at (at + 5) (boolean false) }
    ensures none { IsFalse result → IsNoTokenAt text.now at (boolean false) }
{
    if text.len() - at >= 5
        && text[at] == b'f'
        && text[at + 1] == b'a'
        && text[at + 2] == b'l'
        && text[at + 3] == b's'
        && text[at + 4] == b'e'
    {
        ends_word(byte_at(text, at + 5))
    } else {
        false
    }
}

/// The same of `null`.
#[inline(always)]
fn has_null(text: &[u8], at: usize) -> bool
    requires { at ≤ length text.now }
    ensures stands { IsTrue result → IsTokenAt text.now at (at + 4) null }
    ensures none { IsFalse result → IsNoTokenAt text.now at null }
{
    if text.len() - at >= 4
        && text[at] == b'n'
        && text[at + 1] == b'u'
        && text[at + 2] == b'l'
        && text[at + 3] == b'l'
    {
        ends_word(byte_at(text, at + 4))
    } else {
        false
    }
}
