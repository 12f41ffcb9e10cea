//! Texts of a part, as a message shows them.

ghost use Rattle.std.specs.Int.{to_be_bytes, w16};
ghost use Rattle.std.specs.Prelude.{◌≡◌, ◌<◌, ◌^◌, ◌++◌, IfOk, IsTrue, OnOk, string_bytes};
ghost use Rattle.json.specs.Print.{quoted};
ghost use Rattle.parts.specs.Shown.{all_visible, escape_of, is_hidden, shortened, shown, visible};

use json::Writer;
use std::alloc::{AllocError, Global};

/// The most characters of a text that a message shows.
const MOST_SHOWN: usize = 200;

/// A text as a message shows it: in quotes, as a string of JSON, and without a control character or
/// one that turns the direction of writing. Of more than 200 characters there are the first 200,
/// and `..` before the closing quote.
///
/// Example: of the text `cents:int` it is `"cents:int"`. U+0080 is shown as `\u0080`.
pub(crate) fn shown(alloc: Global, text: &str) -> Result<String, AllocError>
    ensures { IfOk result (λ line. string_bytes line ≡ shown text.now) }
{
    let short = shortened(alloc, text)?;
    let line = quoted(alloc, short.as_str())?;
    all_visible(alloc, line.as_str())
}

/// A text of at most 200 characters, and of a longer one the first 200, and `..`.
pub(crate) fn shortened(alloc: Global, text: &str) -> Result<String, AllocError>
    ensures { IfOk result (λ short. string_bytes short ≡ shortened text.now) }
{
    let mut short = String::new(alloc);
    let mut rest = text.chars();
    for _ in 0..MOST_SHOWN {
        let Some(c) = rest.next() else {
            return Ok(short);
        };
        short.push(c)?;
    }
    if rest.next().is_some() {
        short.push_str("..")?;
    }
    Ok(short)
}

/// A text as a string of JSON, with its quotes.
fn quoted(alloc: Global, text: &str) -> Result<String, AllocError>
    ensures { IfOk result (λ line. string_bytes line ≡ quoted text.now) }
{
    let mut writer = Writer::new(Vec::new(alloc));
    writer.string(text)?;
    match String::from_utf8(writer.into_inner()) {
        Ok(line) => Ok(line),
        Err(_) => unreachable!(),
    }
}

/// A text in which escapes stand for the characters that are hidden.
fn all_visible(alloc: Global, text: &str) -> Result<String, AllocError>
    ensures { IfOk result (λ line. string_bytes line ≡ all_visible text.now) }
{
    let mut line = String::new(alloc);
    for c in text.chars() {
        push_visible(alloc, &mut line, c)?;
    }
    Ok(line)
}

/// What stands for a character.
fn push_visible(alloc: Global, line: &mut String, c: char) -> Result<(), AllocError>
    ensures { OnOk result (string_bytes line.new ≡ string_bytes line.old ++ visible c) }
{
    if is_hidden(c) {
        push_escape(alloc, line, c as u16)
    } else {
        line.push(c)
    }
}

/// Whether a character is not shown, or turns the direction of writing.
fn is_hidden(c: char) -> bool
    ensures test { result ≡ is_hidden c }
    ensures small { IsTrue result → c < 2 ^ 16 }
{
    matches!(c, '\u{7f}'..='\u{9f}' | '\u{202a}'..='\u{202e}' | '\u{2066}'..='\u{2069}')
}

/// The escape of the character of this number.
fn push_escape(alloc: Global, line: &mut String, number: u16) -> Result<(), AllocError>
    ensures { OnOk result (string_bytes line.new ≡ string_bytes line.old ++ escape_of number) }
{
    let digits = hex::encode(alloc, number.to_be_bytes())?;
    line.push_str("\\u")?;
    line.push_str(digits.as_str())
}
