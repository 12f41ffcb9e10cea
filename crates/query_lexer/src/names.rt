//! Canonical spellings of names and texts.

ghost use Rattle.std.specs.Prelude.{◌≡◌, ◌<◌, ◌++◌, OnOk, string_bytes};
ghost use Rattle.semantics.specs.Words.{is_plain_name, quoted_text, name_text};
ghost use Rattle.query_lexer.specs.Steps.{IsAscii};

use crate::words::{is_word, reserved_word};
use std::alloc::AllocError;

/// Whether a name may be written without quotes: it is a word, and not a reserved one.
///
/// A word is an ASCII letter or `_`, and then ASCII letters, digits and `_`.
///
/// Example: `is_plain_name("shop")` answers `true`; of `"select"`, `"my column"` and `""` it
/// answers `false`.
pub fn is_plain_name(name: &str) -> bool
    ensures { result ≡ is_plain_name name.now }
{
    is_word(name) && reserved_word(name).is_none()
}

/// Writes the text at the end, between quotes and with each quote in it twice. It asks that the
/// quote is ASCII.
///
/// Example: `push_quoted(&mut out, "it's", '\'')` writes `'it''s'` at the end of `out`.
///
/// # Errors
///
/// `AllocError` where memory was refused. Then nothing is promised of what stands in `out`.
pub fn push_quoted(out: &mut String, text: &str, quote: char) -> Result<(), AllocError>
    requires { IsAscii quote }
    ensures { OnOk result (string_bytes out.new
        ≡ string_bytes out.old ++ quoted_text quote text.now) }
{
    out.push(quote)?;
    let mut rest = text;
    while let Some((piece, left)) = rest.split_once(quote) {
        out.push_str(piece)?;
        out.push(quote)?;
        out.push(quote)?;
        rest = left;
    }
    out.push_str(rest)?;
    out.push(quote)?;
    Ok(())
}

/// Writes the name at the end, as canonical texts have it: plain where it can be, else in double
/// quotes.
///
/// Example: `push_name(&mut out, "shop")` writes `shop`, and `push_name(&mut out, "select")` writes
/// `"select"`.
///
/// # Errors
///
/// `AllocError` where memory was refused. Then nothing is promised of what stands in `out`.
pub fn push_name(out: &mut String, name: &str) -> Result<(), AllocError>
    ensures { OnOk result (string_bytes out.new ≡ string_bytes out.old ++ name_text name.now) }
{
    if is_plain_name(name) {
        return out.push_str(name);
    }
    push_quoted(out, name, '"')
}
